//! Laws: a circuit wins exactly if no stimulus shows that it loses; the circuit of a winner wins.

ghost use Rattle.std.specs.Prelude.{◌≡◌, ◌↔◌, ℕ, IsTrue};
ghost use Rattle.ps_hoa.specs.Files.{FileData};
ghost use Rattle.ps_hoa.specs.Sound.{IsSoundFile};
ghost use Rattle.ps_automaton.specs.Answers.{IsAdmitted};
ghost use Rattle.ps_circuit.specs.Circuits.{CircuitData, IsCircuit};
ghost use Rattle.ps_machine.specs.declared.key.Order.{Order};
ghost use Rattle.ps_mixing.specs.MixedFiles.{IsMixingOf, mixed_file};
ghost use Rattle.ps_mixing.specs.Mixings.{Mixing};
ghost use Rattle.ps_simulate.specs.Lassos.{IsVerdictOf};
ghost use Rattle.ps_simulate.specs.Stimuli.{StimulusData};
ghost use Rattle.ps_simulate.specs.Symbols.{HasSymbols};
ghost use Rattle.ps_simulate.specs.declared.lassos.Verdict.{Verdict};
ghost use Rattle.ps_simulate.specs.declared.role.Role.{Role};
ghost use Rattle.ps_simulate.specs.declared.role.Role.TheVariants.{Environment};
ghost use Rattle.ps_traces.specs.Answers.{IsWitness, role_of};
ghost use Rattle.ps_traces.specs.Shapes.{IsInTimeWhereReached};
ghost use Rattle.ps_verify.specs.Judgements.{IsJudgement, IsLosing, IsWinning};
ghost use Rattle.ps_verify.specs.declared.judgement.Judgement.{Judgement};

use ps_automaton::automaton_is_there;
use ps_simulate::circuit_has_one_values;
use ps_traces::in_time_where_reached;

/// A circuit either wins or loses, but not both. If a circuit wins, no stimulus shows that it loses. If no stimulus
/// shows that a circuit loses, the circuit wins. The law is about a parsed file that has an automaton (`IsAdmitted`),
/// and a circuit with the inputs and outputs of its role. If the circuit moves first, its outputs must not depend on
/// its inputs at any latch values that a trace reaches.
pub fn judgement_is_one()
    ensures wins { (order : Order) (role : Role) (file : FileData) (c : CircuitData) → IsSoundFile file →
        IsAdmitted file → IsCircuit c → HasSymbols role file.names file.controllable c →
        IsInTimeWhereReached order role c → ((s : StimulusData) → ¬ IsLosing order role file c s) →
        IsWinning order role file c }
    ensures apart { (order : Order) (role : Role) (file : FileData) (c : CircuitData) (s : StimulusData) →
        IsWinning order role file c → ¬ IsLosing order role file c s }
{
    automaton_is_there();
    circuit_has_one_values();
}

/// If a stimulus shows that a circuit loses, the verdict on it says so: the automaton rejects the circuit's trace to
/// the first recurrence of its latches if the circuit is a controller, and accepts it if it is an environment.
pub fn losing_verdict_is_wrong()
    ensures { (order : Order) (role : Role) (file : FileData) (c : CircuitData) (s : StimulusData)
        (verdict : Verdict) → IsLosing order role file c s → IsVerdictOf file c s.stem s.lap verdict →
        IsTrue verdict.accepted ↔ (role ≡ Environment) }
{}

/// A circuit with the properties of a winner's circuit (`IsWitness`) wins in the role of this player. `IsWitness`
/// states the properties of each circuit that synthesis returns, so such a circuit loses on no stimulus.
pub fn witness_wins()
    ensures { (order : Order) (file : FileData) (player : ℕ) (c : CircuitData) → IsWitness order file player c →
        IsWinning order (role_of player) file c }
{
    in_time_where_reached();
}

/// A judgement on a circuit by the mixed file is a judgement by the file.
pub fn judgement_of_mixed()
    ensures { (file : FileData) (mixing : Mixing) → IsMixingOf file mixing → (order : Order) (role : Role)
        (c : CircuitData) (judgement : Judgement) → IsJudgement order role (mixed_file mixing file) c judgement →
        IsJudgement order role file c judgement }
{}
