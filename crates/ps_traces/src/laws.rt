//! Laws about lasso traces.

ghost use Rattle.std.specs.Prelude.{◌≡◌, ◌≢◌, ℕ, ◌<◌, Bool, List, length};
ghost use Rattle.ps_hoa.specs.Files.{FileData};
ghost use Rattle.ps_hoa.specs.Sound.{AreNames, IsSoundFile};
ghost use Rattle.ps_automaton.specs.Answers.{IsAdmitted};
ghost use Rattle.ps_automaton.specs.Automata.{AutomatonData, IsBuiltFrom};
ghost use Rattle.ps_automaton.specs.Chains.{Chain};
ghost use Rattle.ps_game.specs.Games.{NamedGameData, ParityGame};
ghost use Rattle.ps_certificate.specs.Certificates.{CertificateData, Fits, IsValid};
ghost use Rattle.ps_circuit.specs.Circuits.{CircuitData, IsCircuit};
ghost use Rattle.ps_aiger.specs.Encoded.{Encodes};
ghost use Rattle.ps_circuit.specs.Values.{Moment};
ghost use Rattle.ps_machine.specs.Behaviours.{Behaviour, IsMachine, IsLasso, LassosWon};
ghost use Rattle.ps_machine.specs.Boards.{IsGameOf};
ghost use Rattle.ps_machine.specs.BuiltBoards.{board_of};
ghost use Rattle.ps_machine.specs.Extracting.{HasPropositions, IsMachineOf};
ghost use Rattle.ps_machine.specs.FileGames.{IsGameOfFile, board_of_file};
ghost use Rattle.ps_solver.specs.Solving.{winner_at_start};
ghost use Rattle.ps_machine.specs.Keys.{mover_of};
ghost use Rattle.ps_machine.specs.declared.key.Key.{Key};
ghost use Rattle.ps_machine.specs.declared.key.Order.{Order};
ghost use Rattle.ps_simulate.specs.LassoFaults.{AreWide};
ghost use Rattle.ps_simulate.specs.Lassos.{IsVerdictOf, IsWordOf};
ghost use Rattle.ps_simulate.specs.Symbols.{AreDistinct, HasSymbols};
ghost use Rattle.ps_simulate.specs.Words.{TraceWordData};
ghost use Rattle.ps_simulate.specs.declared.lassos.Verdict.{Verdict};
ghost use Rattle.ps_simulate.specs.declared.role.Role.{Role};
ghost use Rattle.ps_simulate.specs.declared.role.Role.TheVariants.{Environment};
ghost use Rattle.ps_traces.specs.Answers.{IsWitness, role_of};
ghost use Rattle.ps_traces.specs.Traces.{IsLassoWord, AllAccepted, NoneAccepted};
ghost use Rattle.ps_traces.specs.Roles.{IsMachineFor};
ghost use Rattle.ps_traces.specs.Shapes.{HasShape, IsInTime, IsInTimeWhereReached};
ghost use Rattle.ps_traces.specs.Inputs.{EachInputGoesOn, HasLetters};
ghost use Rattle.ps_traces.specs.Meetings.{FiniteController, IsController, IsOneMeeting, IsRejected, MeetsInLasso};

use ps_automaton::automaton_is_there;
use ps_machine::lassos_won;
use ps_simulate::circuit_has_one_values;

/// Each stem and each non-empty lap of letters, with a bit for each input, extend to a lasso trace: it reads the stem
/// and one or more laps, and repeats one or more.
pub fn every_input_goes_on()
    ensures { (c : CircuitData) → IsCircuit c → EachInputGoesOn c }
{
    circuit_has_one_values();
}

/// If inputs and outputs have the names of the propositions, each once, a step of a trace has exactly one letter.
pub fn every_trace_has_letters()
    ensures { (role : Role) (file : FileData) (c : CircuitData) (moments : List Moment) → AreNames file.names →
        HasSymbols role file.names file.controllable c → HasLetters file.names c moments }
{}

/// A circuit with its role's inputs and outputs has a word on each stimulus.
pub fn word_is_there()
    ensures { (role : Role) (names : List (List ℕ)) (controllable : List ℕ) (c : CircuitData)
        (stem lap : List (List Bool)) → AreDistinct names → IsCircuit c → HasSymbols role names controllable c →
        AreWide c stem lap → 0 < length lap → (word : TraceWordData) × IsWordOf names c stem lap word }
{
    circuit_has_one_values();
}

/// An admitted file and a circuit with its role's inputs and outputs have a verdict on each stimulus: a stem, and a
/// non-empty lap.
pub fn verdict_is_there()
    ensures { (role : Role) (file : FileData) (c : CircuitData) (stem lap : List (List Bool)) → IsSoundFile file →
        IsAdmitted file → IsCircuit c →
        HasSymbols role file.names file.controllable c → AreWide c stem lap → 0 < length lap →
        (verdict : Verdict) × IsVerdictOf file c stem lap verdict }
{
    automaton_is_there();
    circuit_has_one_values();
}

/// Outputs that depend on no input at any latch values (`IsInTime`) depend on none where traces lead, as joint traces
/// need.
pub fn in_time_where_reached()
    ensures { (order : Order) (role : Role) (c : CircuitData) → IsInTime order role c →
        IsInTimeWhereReached order role c }
{}

/// An environment's circuit and a finite-state controller have exactly one joint trace of each length.
pub fn meeting_is_one()
    ensures { (order : Order) (c : CircuitData) (k : FiniteController) (count : ℕ) → IsCircuit c →
        IsInTimeWhereReached order Environment c → IsController order c k → IsOneMeeting c k count }
{
    circuit_has_one_values();
}

/// Each joint trace of both extends to a lasso trace, which also returns to the same memory state of the controller.
pub fn every_meeting_goes_on()
    ensures { (order : Order) (c : CircuitData) (k : FiniteController) → IsCircuit c →
        IsInTimeWhereReached order Environment c → IsController order c k → MeetsInLasso c k }
{
    circuit_has_one_values();
}

/// An automaton that accepts no lasso trace of an environment's circuit rejects its joint trace with each finite-state
/// controller.
pub fn every_meeting_is_rejected()
    ensures { (order : Order) (file : FileData) (c : CircuitData) (k : FiniteController) → AreNames file.names →
        IsCircuit c → HasSymbols Environment file.names file.controllable c → IsInTimeWhereReached order Environment c →
        IsController order c k → NoneAccepted file c → IsRejected file c k }
{
    circuit_has_one_values();
}

/// Each word of a lasso trace of a machine's circuit is one of a lasso of the machine.
pub fn circuit_has_machine_words()
    ensures { (m : Behaviour) (c : CircuitData) (stem lap : List ℕ) → IsMachine m → Encodes m c →
        IsLassoWord m.names c stem lap → IsLasso m stem lap }
{}

/// If a machine wins all its lassos, its circuit wins all its lasso traces: all are accepted for player 0, and none for
/// player 1.
pub fn circuit_is_won()
    ensures accepted { (file : FileData) (m : Behaviour) (c : CircuitData) → IsMachine m → m.names ≡ file.names →
        Encodes m c → LassosWon file m → m.player ≡ 0 → AllAccepted file c }
    ensures rejected { (file : FileData) (m : Behaviour) (c : CircuitData) → IsMachine m → m.names ≡ file.names →
        Encodes m c → LassosWon file m → m.player ≢ 0 → NoneAccepted file c }
{}

/// A machine's circuit has its role's inputs, outputs and order of moves (`HasShape`).
pub fn circuit_has_shape()
    ensures { (order : Order) (role : Role) (file : FileData) (m : Behaviour) (c : CircuitData) → IsMachine m →
        IsMachineFor order role file m → Encodes m c → HasShape order role file c }
{}

/// The circuit of a machine that wins all its lassos is a witness (`IsWitness`).
pub fn circuit_answers()
    ensures { (order : Order) (file : FileData) (m : Behaviour) (c : CircuitData) → IsMachine m →
        IsMachineFor order (role_of m.player) file m → Encodes m c → LassosWon file m →
        IsWitness order file m.player c }
{
    circuit_has_one_values();
}

/// The circuit by a valid certificate of an automaton's game is a witness: a controller if player 0 wins vertex 0, and
/// else an environment.
pub fn certified_circuit_answers()
    ensures { (file : FileData) (chain : Chain) (a : AutomatonData) (order : Order) (keys : List Key)
        (game : ParityGame) (certificate : CertificateData) (m : Behaviour) (c : CircuitData) →
        IsBuiltFrom file chain a → IsGameOf (board_of order a) (mover_of order) keys game → Fits game certificate →
        IsValid game certificate →
        IsMachine m → HasPropositions a.names (board_of order a) m →
        IsMachineOf (board_of order a) (mover_of order) keys game certificate m →
        Encodes m c → IsWitness order file (winner_at_start certificate) c }
{
    lassos_won();
    circuit_has_one_values();
}

/// The same for a game of any automaton of the file.
pub fn certified_circuit_of_file_answers()
    ensures { (order : Order) (file : FileData) (game : NamedGameData) (is_game : IsGameOfFile order file game)
        (certificate : CertificateData) (m : Behaviour) (c : CircuitData) → Fits game.game certificate →
        IsValid game.game certificate → IsMachine m →
        HasPropositions file.names (board_of_file order file is_game.auto) m →
        IsMachineOf (board_of_file order file is_game.auto) (mover_of order) is_game.keys game.game certificate m →
        Encodes m c → IsWitness order file (winner_at_start certificate) c }
{
    ps_machine::lassos_of_file_won();
    circuit_has_one_values();
}
