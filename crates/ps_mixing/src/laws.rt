//! Laws of mixed files: each law is the contract of a function whose body is empty or calls other laws.

ghost use Rattle.std.specs.Prelude.{◌↔◌, ℕ, Bool, List, length};
ghost use Rattle.ps_hoa.specs.Files.{FileData};
ghost use Rattle.ps_hoa.specs.Sound.{IsSoundFile};
ghost use Rattle.ps_automaton.specs.Acceptance.{IsAccepted};
ghost use Rattle.ps_automaton.specs.Answers.{IsAdmitted, IsRefused};
ghost use Rattle.ps_automaton.specs.declared.fault.AutomatonFault.{AutomatonFault};
ghost use Rattle.ps_aiger.specs.Encoded.{Encodes};
ghost use Rattle.ps_aiger.specs.Wires.{IsWired};
ghost use Rattle.ps_certificate.specs.Certificates.{CertificateData};
ghost use Rattle.ps_circuit.specs.Circuits.{CircuitData};
ghost use Rattle.ps_circuit.specs.Values.{Moment};
ghost use Rattle.ps_game.specs.Games.{NamedGameData};
ghost use Rattle.ps_machine.specs.Behaviours.{Behaviour, IsMachine};
ghost use Rattle.ps_machine.specs.Boards.{Board};
ghost use Rattle.ps_machine.specs.Extracting.{HasPropositions, IsMachineOf};
ghost use Rattle.ps_machine.specs.FileGames.{IsGameOfFile, board_of_file};
ghost use Rattle.ps_machine.specs.Keys.{mover_of};
ghost use Rattle.ps_machine.specs.declared.key.Order.{Order};
ghost use Rattle.ps_simulate.specs.Lassos.{AreLetters, IsVerdictOf};
ghost use Rattle.ps_simulate.specs.Symbols.{HasSymbols};
ghost use Rattle.ps_simulate.specs.declared.lassos.Verdict.{Verdict};
ghost use Rattle.ps_simulate.specs.declared.role.Role.{Role};
ghost use Rattle.ps_mixing.specs.MixedBoards.{mixed_machine};
ghost use Rattle.ps_mixing.specs.MixedFiles.{HasLabels, IsMixingOf, mixed_file, moved_word};
ghost use Rattle.ps_mixing.specs.Mixings.{IsMixing, Mixing, inverse};

/// The mixed file of a sound file is sound, if the text states a label for each edge, or for its state.
pub fn mixed_is_sound()
    ensures { (file : FileData) (mixing : Mixing) → IsMixingOf file mixing → IsSoundFile file → HasLabels file →
        IsSoundFile (mixed_file mixing file) }
{}

/// A file has an automaton if and only if the mixed file has one, and else both have the same fault.
pub fn answer_of_mixed()
    ensures admitted { (file : FileData) (mixing : Mixing) → IsMixingOf file mixing →
        IsAdmitted file ↔ IsAdmitted (mixed_file mixing file) }
    ensures refused { (file : FileData) (mixing : Mixing) → IsMixingOf file mixing → (fault : AutomatonFault) →
        IsRefused file fault ↔ IsRefused (mixed_file mixing file) fault }
{}

/// A file accepts a lasso if and only if the mixed file accepts the lasso with its propositions moved.
pub fn lassos_of_mixed()
    ensures { (file : FileData) (mixing : Mixing) → IsMixingOf file mixing → (stem lap : List ℕ) →
        IsAccepted file stem lap ↔
        IsAccepted (mixed_file mixing file) (moved_word mixing file stem) (moved_word mixing file lap) }
{}

/// By the names of a file and of the mixed file, a circuit has the inputs and outputs of the same roles.
pub fn symbols_of_mixed()
    ensures { (file : FileData) (mixing : Mixing) → IsMixingOf file mixing → (role : Role) (c : CircuitData) →
        HasSymbols role file.names file.controllable c ↔
        HasSymbols role (mixed_file mixing file).names (mixed_file mixing file).controllable c }
{}

/// By the names of the mixed file, the letters of a circuit's steps are the letters with their propositions moved.
pub fn letters_of_mixed()
    ensures { (file : FileData) (mixing : Mixing) → IsMixingOf file mixing → (c : CircuitData) (moments : List Moment)
        (letters : List ℕ) → AreLetters file.names c moments letters ↔
        AreLetters (mixed_file mixing file).names c moments (moved_word mixing file letters) }
{}

/// A circuit has the same verdict on a lasso by a file and by the mixed file.
pub fn verdict_of_mixed()
    ensures { (file : FileData) (mixing : Mixing) → IsMixingOf file mixing → (c : CircuitData)
        (stem lap : List (List Bool)) (verdict : Verdict) →
        IsVerdictOf file c stem lap verdict ↔ IsVerdictOf (mixed_file mixing file) c stem lap verdict }
{}

/// The game of the mixed file is the game of the file, with the same numbers, ids and names.
pub fn game_of_mixed()
    ensures { (file : FileData) (mixing : Mixing) → IsMixingOf file mixing → (order : Order) (game : NamedGameData) →
        IsGameOfFile order (mixed_file mixing file) game ↔ IsGameOfFile order file game }
{}

/// The machine of a certificate for the mixed file, with its propositions moved back, is the machine of the certificate
/// for the file.
pub fn machine_of_mixed()
    ensures { (file : FileData) (mixing : Mixing) → IsMixingOf file mixing → (order : Order) (game : NamedGameData)
        (of : IsGameOfFile order (mixed_file mixing file) game) → (here : IsGameOfFile order file game) ×
        ((certificate : CertificateData) (m : Behaviour) →
        IsMachineOf (board_of_file order (mixed_file mixing file) of.auto) (mover_of order) of.keys game.game
        certificate m →
        IsMachineOf (board_of_file order file here.auto) (mover_of order) here.keys game.game certificate
        (mixed_machine (length file.names) (inverse mixing) m)) }
{}

/// The circuit of a machine is the circuit of the machine with its propositions moved.
pub fn circuit_of_machine()
    ensures { (board : Board) (mixing : Mixing) → IsMixing board.propositions board.is_first mixing →
        (names : List (List ℕ)) (m : Behaviour) → IsMachine m → HasPropositions names board m →
        (circuit : CircuitData) → Encodes m circuit → IsWired m circuit →
        Encodes (mixed_machine board.propositions mixing m) circuit ×
        IsWired (mixed_machine board.propositions mixing m) circuit }
{}
