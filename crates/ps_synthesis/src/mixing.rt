//! A law about the circuits of mixed files (`ps_mixing`): its body is empty.

ghost use Rattle.ps_hoa.specs.Files.{FileData};
ghost use Rattle.ps_hoa.specs.Sound.{IsSoundFile};
ghost use Rattle.ps_certificate.specs.Certificates.{CertificateData};
ghost use Rattle.ps_circuit.specs.Circuits.{CircuitData};
ghost use Rattle.ps_game.specs.Games.{NamedGameData};
ghost use Rattle.ps_machine.specs.FileGames.{IsGameOfFile};
ghost use Rattle.ps_machine.specs.declared.key.Order.{Order};
ghost use Rattle.ps_mixing.specs.MixedFiles.{IsMixingOf, mixed_file};
ghost use Rattle.ps_mixing.specs.Mixings.{Mixing};
ghost use Rattle.ps_synthesis.specs.Reports.{IsWinnersCircuit};

/// The winner's circuit of the mixed file is the winner's circuit of the file.
pub fn circuit_of_mixed()
    ensures { (file : FileData) (mixing : Mixing) → IsMixingOf file mixing → IsSoundFile file → (order : Order)
        (game : NamedGameData) (of : IsGameOfFile order (mixed_file mixing file) game)
        (certificate : CertificateData) (circuit : CircuitData) →
        IsWinnersCircuit order (mixed_file mixing file) game of certificate circuit →
        (here : IsGameOfFile order file game) × IsWinnersCircuit order file game here certificate circuit }
{}
