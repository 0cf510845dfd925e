//! The winner and the winner's circuit, without the game; or the problem whose game is to be solved.

ghost use Rattle.std.specs.Prelude.{◌≡◌, ◌≤◌, ◌<◌, ◌↔◌, ◌⊎◌, IsTrue, Ok, Err, IfErr, IfOk, IfSome, IsNone};
ghost use Rattle.ps_aiger.specs.Encoded.{Encodes, IsTidy};
ghost use Rattle.ps_aiger.specs.Wires.{IsOutOfLiterals, IsWired};
ghost use Rattle.ps_automaton.specs.Answers.{IsAdmitted};
ghost use Rattle.ps_automaton.specs.Automata.{IsBuiltFrom};
ghost use Rattle.ps_automaton.specs.Chains.{Chain};
ghost use Rattle.ps_circuit.specs.declared.encode_fault.EncodeFault.TheVariants as encoding;
ghost use Rattle.ps_hoa.specs.Files.{FileData};
ghost use Rattle.ps_hoa.specs.Texts.{ReadsFile};
ghost use Rattle.ps_machine.specs.Behaviours.{IsMachine};
ghost use Rattle.ps_machine.specs.BitMachines.{bit_behaviour};
ghost use Rattle.ps_solver.specs.Solvers.{Answered};
ghost use Rattle.ps_solver.specs.Solving.{AnswersLeast};
ghost use Rattle.ps_synthesis.specs.ShortAnswers.{IsAttempt, IsLeftToGame, first_count};
ghost use Rattle.ps_synthesis.specs.ShortFiles.{HoldsAutomaton, IsBegun, IsFaultOfFile, IsShortOfFile};
ghost use Rattle.ps_synthesis.specs.Stages.{IsTextFault};
ghost use Rattle.ps_synthesis.specs.SynthFaults.{IsSureFault, IsSynthFault};

use crate::fault::SynthFault;
use crate::problem::Problem;
use ps_aiger::{Circuit, EncodeFault, encode_bits};
use ps_automaton::{Automaton, refusal_is_one};
use ps_brief::machine_without_game;
use ps_certificate::{no_strategy_wins_outside, valid_regions_are_held};
use ps_hoa::{HoaFile, one_answer};
use ps_machine::{BitMachine, Order, Solver, game_of_file_is_game};
use ps_mixing::{evenly_mixed, is_worth_mixing, names_many};
use ps_traces::certified_circuit_of_file_answers;
use std::alloc::Global;

/// If the labels of each state name fewer propositions of the player who moves first, a state of the game has at most
/// 2^7 classes of letters, and the game is built: its circuits stay as they are.
const LEAST_PROPOSITIONS: u32 = 8;

/// A state with more edges is better left to the game: for each letter of a basis, the search looks at all targets.
const MOST_EDGES: usize = 1024;

/// Who wins, and the winner's circuit.
#[derive(Drop)]
pub struct Short {
    /// Whether the controller wins.
    pub realizable: bool,
    /// A controller or an environment.
    pub circuit: Circuit,
}

/// An answer without the game, or the problem whose game has to be solved.
#[derive(Drop)]
pub enum Attempt {
    /// Who wins, and the winner's circuit.
    Short(Short),
    /// The problem, with its game.
    Problem(Problem),
}

/// An answer without the game, or the automaton whose game has to be built.
#[derive(Drop)]
enum Begun {
    Short(Short),
    Automaton(Automaton),
}

/// The winner and a circuit for an HOA text, by a certificate that a free solver may give, although neither the game
/// nor the certificate is made; or the problem, if the game has to be built: if the solver is not free, if the labels
/// of each state name fewer than eight propositions of the player who moves first, or if a state has more than 1,024
/// edges or at least `ps_brief::MOST_LETTERS` minimal letters. The text is read once. Fails with the text's first error,
/// with the reason why its file has no automaton, if the circuit needs more than 2147483647 variables, or if out of
/// memory.
pub fn attempted<S: Solver>(
    alloc: Global,
    text: &[u8],
    order: Order,
    solver: &S,
) -> Result<Attempt, SynthFault>
    ensures attempt { IfOk result (IsAttempt (Answered (S.known solver.now) (S.known solver.now)) order text.now) }
    ensures few { (file : FileData) → ReadsFile text.now (Ok file) → first_count order file < 8 →
        IfOk result IsLeftToGame }
    ensures refused { IfErr result (IsSynthFault (Answered (S.known solver.now) (S.known solver.now)) order text.now) }
    ensures sure { IfErr result (λ fault. IsTextFault text.now fault ⊎ IsSureFault fault) }
{
    one_answer();
    refusal_is_one();
    game_of_file_is_game();
    valid_regions_are_held();
    no_strategy_wins_outside();
    certified_circuit_of_file_answers();
    let file = ps_hoa::read(alloc, text)?;
    let begun = begin(alloc, &file, order, solver);
    drop(file);
    match begun? {
        Begun::Short(short) => Ok(Attempt::Short(short)),
        Begun::Automaton(automaton) => {
            let problem = Problem::of_automaton(alloc, automaton, order)?;
            Ok(Attempt::Problem(problem))
        }
    }
}

/// The short answer of a file, or its automaton.
fn begin<S: Solver>(
    alloc: Global,
    file: &HoaFile,
    order: Order,
    solver: &S,
) -> Result<Begun, SynthFault>
    ensures begun { IfOk result (IsBegun (Answered (S.known solver.now) (S.known solver.now)) order file.now) }
    ensures few { first_count order file.now < 8 → IfOk result HoldsAutomaton }
    ensures refused { IfErr result (IsFaultOfFile (Answered (S.known solver.now) (S.known solver.now)) order file.now) }
{
    match answer_of_file(alloc, file, order, solver)? {
        Some(short) => Ok(Begun::Short(short)),
        None => Ok(Begun::Automaton(Automaton::build(alloc, file)?)),
    }
}

fn answer_of_file<S: Solver>(
    alloc: Global,
    file: &HoaFile,
    order: Order,
    solver: &S,
) -> Result<Option<Short>, SynthFault>
    ensures short { IfOk result (λ found. IfSome found
        (IsShortOfFile (Answered (S.known solver.now) (S.known solver.now)) order file.now)) }
    ensures few { first_count order file.now < 8 → IfOk result (λ found. IsNone found) }
    ensures refused { IfErr result (IsFaultOfFile (Answered (S.known solver.now) (S.known solver.now)) order file.now) }
{
    if solver.is_free() && moves_first_with_many(file, order) && is_wide(file, order) {
        answer_without_game(alloc, file, order)
    } else {
        Ok(None)
    }
}

/// Whether a state can have so many classes of letters that the game is better not built, although no state has many
/// edges.
fn is_wide(file: &HoaFile, order: Order) -> bool {
    names_many(file, matches!(order, Order::Moore), LEAST_PROPOSITIONS) && has_few_edges(file)
}

/// Whether no state has more than `MOST_EDGES` edges.
fn has_few_edges(file: &HoaFile) -> bool {
    for row in file.rows() {
        if MOST_EDGES < row.edges.len() {
            return false;
        }
    }
    true
}

/// Whether the player who moves first has so many propositions.
fn moves_first_with_many(file: &HoaFile, order: Order) -> bool
    ensures { IsTrue result ↔ (8 ≤ first_count order file.now) }
{
    let controllable = file.controllable().len();
    let least = LEAST_PROPOSITIONS as usize;
    match order {
        Order::Mealy => controllable + least <= file.names().len(),
        Order::Moore => least <= controllable,
    }
}

/// The winner and a circuit by a valid certificate with the least counts. The file's propositions are mixed before if
/// this can help: an automaton whose propositions stand player by player often has diagrams with a node for each letter.
fn answer_without_game(
    alloc: Global,
    file: &HoaFile,
    order: Order,
) -> Result<Option<Short>, SynthFault>
    ensures short { IfOk result (λ found. IfSome found (IsShortOfFile AnswersLeast order file.now)) }
    ensures refused { IfErr result (IsFaultOfFile AnswersLeast order file.now) }
{
    if !is_worth_mixing(file) {
        return answer_as_it_stands(alloc, file, order);
    }
    let mixed = evenly_mixed(alloc, file)?;
    let found = answer_as_it_stands(alloc, &mixed, order);
    drop(mixed);
    found
}

/// The winner and a circuit, from the automaton of the file with its propositions as they stand.
fn answer_as_it_stands(
    alloc: Global,
    file: &HoaFile,
    order: Order,
) -> Result<Option<Short>, SynthFault>
    ensures short { IfOk result (λ found. IfSome found (IsShortOfFile AnswersLeast order file.now)) }
    ensures refused { IfErr result (IsFaultOfFile AnswersLeast order file.now) }
{
    let automaton = Automaton::build(alloc, file)?;
    let found = answer_of_automaton(alloc, &automaton, order);
    drop(automaton);
    found
}

/// `None` if a state's basis would come to too many letters.
fn answer_of_automaton(
    alloc: Global,
    automaton: &Automaton,
    order: Order,
) -> Result<Option<Short>, SynthFault>
    ensures short { (file : FileData) (chain : Chain) → IsAdmitted file → IsBuiltFrom file chain automaton.now →
        IfOk result (λ found. IfSome found (IsShortOfFile AnswersLeast order file)) }
    ensures refused { (file : FileData) (chain : Chain) → IsAdmitted file → IsBuiltFrom file chain automaton.now →
        IfErr result (IsFaultOfFile AnswersLeast order file) }
{
    let Some(machine) = machine_without_game(alloc, automaton, order)? else {
        return Ok(None);
    };
    let short = encoded(alloc, &machine);
    drop(machine);
    Ok(Some(short?))
}

/// The player and the circuit of a machine.
fn encoded(alloc: Global, machine: &BitMachine) -> Result<Short, EncodeFault>
    ensures realizable { IfOk result (λ short. IsTrue short.realizable ↔ (machine.now.player ≡ 0)) }
    ensures encodes { IfOk result (λ short. Encodes (bit_behaviour machine.now) short.circuit) }
    ensures tidy { IfOk result (λ short. IsTidy short.circuit) }
    ensures wired { IfOk result (λ short. IsWired (bit_behaviour machine.now) short.circuit) }
    ensures too_large { result ≡ Err encoding.CircuitTooLarge → IsOutOfLiterals (bit_behaviour machine.now) }
    ensures machine { IsMachine (bit_behaviour machine.now) }
{
    let realizable = machine.player().number() == 0;
    let circuit = encode_bits(alloc, machine)?;
    Ok(Short {
        realizable,
        circuit,
    })
}
