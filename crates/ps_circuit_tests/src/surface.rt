//! The types, fields, variants and calls that users of the libraries for machines and circuits name, each with its
//! type. It compiles only as long as they stay as they are: a value is taken apart by a pattern that names all its
//! parts. More calls are named in `builders`, `machines` and `lanes`.

use ps_aiger::{
    AigCause, AigFault, Circuit, EncodeFault, Gate, Latch, Literal, encode, read, write,
};
use ps_automaton::{Automaton, AutomatonFault};
use ps_certificate::{CertCause, Certificate};
use ps_game::NamedGame;
use ps_machine::{BuiltIn, Machine, Order, Replay, Row, SolveFault, Solver, game_of};
use ps_simulate::{
    LassoFault, Role, Simulator, Stimulus, StimulusCause, StimulusFault, Verdict, lasso,
    parse_stimulus,
};
use ps_synthesis::{Report, SynthFault, synthesise_by};
use std::alloc::{AllocError, Global};

fn game(alloc: Global, automaton: &Automaton, order: Order) -> Result<NamedGame, AllocError> {
    match order {
        Order::Mealy | Order::Moore => game_of(alloc, automaton, order),
    }
}

/// A step's next memory state and letter.
fn step(machine: &Machine, memory: usize, letter: u64) -> Option<(usize, u64)> {
    if memory >= machine.memories() {
        return None;
    }
    let Row { memory, letter } = machine.step(memory, letter);
    Some((memory, letter))
}

fn asked<S: Solver>(
    solver: &mut S,
    text: &[u8],
    game: &NamedGame,
) -> Result<Result<Certificate, SolveFault>, AllocError> {
    solver.feed(text)?;
    Ok(solver.solve(game))
}

fn solvers(alloc: Global) -> (BuiltIn, Replay) {
    (BuiltIn::new(alloc), Replay::new(alloc))
}

/// Why there is no certificate.
fn unsolved(fault: SolveFault) -> Option<Result<Vec<usize>, (CertCause, usize)>> {
    match fault {
        SolveFault::BadCycle(cycle) => Some(Ok(cycle)),
        SolveFault::Text { cause, offset } => Some(Err((cause, offset))),
        SolveFault::OutOfMemory => None,
    }
}

fn encoded(alloc: Global, machine: &Machine) -> Result<Circuit, EncodeFault> {
    encode(alloc, machine)
}

/// Why there is no circuit.
fn is_too_large(fault: EncodeFault) -> bool {
    match fault {
        EncodeFault::CircuitTooLarge => true,
        EncodeFault::OutOfMemory => false,
    }
}

fn lines(circuit: &Circuit) -> (u32, &[Literal], &[Latch], &[Literal], &[Gate]) {
    (
        circuit.most(),
        circuit.inputs(),
        circuit.latches(),
        circuit.outputs(),
        circuit.gates(),
    )
}

/// A latch's literal, that of its next value, and its first value.
fn latch(latch: Latch) -> (Literal, Literal, bool) {
    let Latch {
        literal,
        next,
        reset,
    } = latch;
    (literal, next, reset)
}

/// A gate's literal and its inputs'.
fn gate(gate: Gate) -> [Literal; 3] {
    let Gate {
        literal,
        first,
        second,
    } = gate;
    [literal, first, second]
}

fn input_symbol(circuit: &Circuit) -> Option<&[u8]> {
    if circuit.inputs().len() == 0 {
        return None;
    }
    circuit.input_name(0)
}

fn latch_symbol(circuit: &Circuit) -> Option<&[u8]> {
    if circuit.latches().len() == 0 {
        return None;
    }
    circuit.latch_name(0)
}

fn output_symbol(circuit: &Circuit) -> Option<&[u8]> {
    if circuit.outputs().len() == 0 {
        return None;
    }
    circuit.output_name(0)
}

fn circuit(alloc: Global, text: &[u8]) -> Result<Circuit, AigFault> {
    read(alloc, text)
}

fn text_of(alloc: Global, circuit: &Circuit) -> Result<Vec<u8>, AllocError> {
    write(alloc, circuit)
}

fn circuit_cause(fault: AigFault) -> Option<AigCause> {
    match fault {
        AigFault::Text { cause, offset: _ } => match cause {
            AigCause::Syntax
            | AigCause::Literal
            | AigCause::DefinedTwice
            | AigCause::Undefined
            | AigCause::Cyclic
            | AigCause::UnsetLatch
            | AigCause::Sections => Some(cause),
        },
        AigFault::OutOfMemory => None,
    }
}

fn simulator<'a>(alloc: Global, circuit: &'a Circuit) -> Result<Simulator<'a>, AllocError> {
    Simulator::new(alloc, circuit)
}

/// A stem and a lap of letters.
fn stimulus(
    alloc: Global,
    text: &[u8],
    width: usize,
) -> Result<(Vec<Vec<bool>>, Vec<Vec<bool>>), StimulusFault> {
    let Stimulus { stem, lap } = parse_stimulus(alloc, text, width, true)?;
    Ok((stem, lap))
}

fn stimulus_cause(fault: StimulusFault) -> Option<StimulusCause> {
    match fault {
        StimulusFault::Text { cause, offset: _ } => match cause {
            StimulusCause::Width | StimulusCause::Stimulus => Some(cause),
        },
        StimulusFault::OutOfMemory => None,
    }
}

/// The verdict on a lasso, and the lengths of the trace.
fn verdict(
    alloc: Global,
    (circuit, automaton): (&Circuit, &Automaton),
    role: Role,
    stem: &[Vec<bool>],
    lap: &[Vec<bool>],
) -> Result<(bool, usize, usize), LassoFault> {
    let Verdict {
        accepted,
        stem,
        lap,
    } = match role {
        Role::Controller | Role::Environment => lasso(alloc, circuit, automaton, role, stem, lap)?,
    };
    Ok((accepted, stem, lap))
}

/// Why there is no verdict.
fn has_no_verdict(fault: LassoFault) -> bool {
    match fault {
        LassoFault::Width | LassoFault::EmptyLap | LassoFault::Symbols => true,
        LassoFault::OutOfMemory => false,
    }
}

/// The winner, with the texts of circuit, game and certificate.
fn report<S: Solver>(
    alloc: Global,
    text: &[u8],
    solver: &mut S,
) -> Result<(bool, Vec<u8>, Vec<u8>, Vec<u8>), SynthFault> {
    let Report {
        realizable,
        circuit_text,
        game_text,
        certificate_text,
    } = synthesise_by(alloc, text, Order::Mealy, false, solver)?;
    Ok((realizable, circuit_text, game_text, certificate_text))
}

/// Why a text has no report. The first two kinds name a byte.
fn refusal(fault: SynthFault) -> (Option<usize>, Option<AutomatonFault>, Option<Vec<u64>>) {
    match fault {
        SynthFault::Text { cause: _, offset } => (Some(offset), None, None),
        SynthFault::Certificate { cause: _, offset } => (Some(offset), None, None),
        SynthFault::Automaton(fault) => (None, Some(fault), None),
        SynthFault::BadCycle(cycle) => (None, None, Some(cycle)),
        SynthFault::NotCertified | SynthFault::CircuitTooLarge | SynthFault::OutOfMemory => {
            (None, None, None)
        }
    }
}
