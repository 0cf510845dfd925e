//! Laws about winners' circuits, and about the texts that psyn writes.

ghost use Rattle.std.specs.Prelude.{◌≡◌, ◌<◌, ◌⊎◌, Bool};
ghost use Rattle.ps_aiger.specs.Wires.{IsOutOfLiterals};
ghost use Rattle.ps_certificate.specs.Certificates.{CertificateData, Fits};
ghost use Rattle.ps_certificate.specs.Written.{HasWords, text_in};
ghost use Rattle.ps_circuit.specs.Circuits.{CircuitData, IsCircuit};
ghost use Rattle.ps_circuit.specs.Written.{text_of};
ghost use Rattle.ps_game.specs.Games.{IsNamedGame, NamedGameData, vertex_count};
ghost use Rattle.ps_hoa.specs.Files.{FileData};
ghost use Rattle.ps_hoa.specs.Sound.{IsSoundFile};
ghost use Rattle.ps_machine.specs.Behaviours.{Behaviour};
ghost use Rattle.ps_machine.specs.FileGames.{IsGameOfFile};
ghost use Rattle.ps_solver.specs.Solving.{IsCertified};
ghost use Rattle.ps_machine.specs.declared.key.Order.{Order};
ghost use Rattle.ps_pgsolver.specs.Written.{game_text};
ghost use Rattle.ps_synthesis.specs.Printing.{HasCircuitWords, HasGameWords};
ghost use Rattle.ps_synthesis.specs.Printing.{PrintsCertificate, PrintsCircuit, PrintsGame};
ghost use Rattle.ps_synthesis.specs.Reports.{IsWinners, IsWinnersCircuit};

/// A certificate of a file's game gives at most one circuit, and none if this would need too many variables.
pub fn winners_circuit_is_one()
    ensures one { (order : Order) (file : FileData) (game : NamedGameData) (first second : IsGameOfFile order file game)
        (certificate : CertificateData) (c d : CircuitData) → IsWinnersCircuit order file game first certificate c →
        IsWinnersCircuit order file game second certificate d → c ≡ d }
    ensures apart { (order : Order) (file : FileData) (game : NamedGameData)
        (first second : IsGameOfFile order file game)
        (certificate : CertificateData) (c : CircuitData) (m : Behaviour) →
        IsWinnersCircuit order file game first certificate c → IsWinners order file game second certificate m →
        ¬ IsOutOfLiterals m }
{
    ps_machine::one_machine_of_file();
    ps_aiger::one_circuit();
    ps_aiger::circuit_has_literals();
}

/// A valid certificate gives a circuit, unless this would need too many variables.
pub fn winners_circuit_is_there()
    ensures { (order : Order) (file : FileData) (game : NamedGameData) (is_game : IsGameOfFile order file game)
        (certificate : CertificateData) → IsSoundFile file → IsCertified game certificate →
        ((m : Behaviour) × IsWinners order file game is_game certificate m × IsOutOfLiterals m) ⊎
        ((c : CircuitData) × IsWinnersCircuit order file game is_game certificate c) }
{
    ps_machine::machine_is_there();
    ps_aiger::circuit_is_there();
}

/// The texts of a game, a certificate and a circuit parse to the same values, if their numbers fit in 64 bits, as in
/// `NamedGame`, `Certificate` and `Circuit`, and if the game's text is no longer than the parser accepts.
pub fn written_texts_are_read()
    ensures game { (game : NamedGameData) → 0 < vertex_count game.game → IsNamedGame game → HasGameWords game →
        PrintsGame (game_text game) game }
    ensures certificate { (compact : Bool) (game : NamedGameData) (certificate : CertificateData) → IsNamedGame game →
        Fits game.game certificate → HasWords game.ids certificate →
        PrintsCertificate compact (text_in compact game certificate) game certificate }
    ensures circuit { (circuit : CircuitData) → IsCircuit circuit → HasCircuitWords circuit →
        PrintsCircuit (text_of circuit) circuit }
{}
