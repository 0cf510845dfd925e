//! The types, fields, variants and calls that users of the libraries for automata name, each with its type. It compiles
//! only as long as they stay as they are: a value is taken apart by a pattern that names all its parts, and put
//! together again.

use ps_automaton::{Automaton, AutomatonFault, Step};
use ps_diagram::{Class, Classes, Node, OverlayError, Store};
use ps_hoa::{
    Cond, Edge, Guard, HoaCause, HoaFault, HoaFile, Kind, Marks, Row, Token, Tokens, read,
};
use ps_label::{Label, Labels, Literals};
use std::alloc::{AllocError, Global};

/// The same value, whose type the caller states.
fn typed<T>(value: T) -> T {
    value
}

/// The forms of labels.
fn label(label: Label) -> Label {
    match label {
        Label::Truth(value) => Label::Truth(typed::<bool>(value)),
        Label::Atom(proposition) => Label::Atom(typed::<u32>(proposition)),
        Label::Negated(proposition) => Label::Negated(typed::<u32>(proposition)),
        Label::Named(alias) => Label::Named(typed::<usize>(alias)),
        Label::Literals(literals) => Label::Literals(typed::<Literals>(literals)),
        Label::Neg(operand) => Label::Neg(typed::<Box<Label>>(operand)),
        Label::Both(operands) => Label::Both(typed::<Vec<Label>>(operands)),
        Label::Either(operands) => Label::Either(typed::<Vec<Label>>(operands)),
    }
}

/// A constant, whatever the aliases are.
fn constant(labels: &Labels, letter: u64, scratch: &mut [bool]) -> Option<bool> {
    if scratch.len() == labels.as_slice().len() {
        Some(labels.eval(&Label::Truth(true), letter, scratch))
    } else {
        None
    }
}

/// A token's kind, its bytes, and where it begins and ends.
fn token<'a>(tokens: &mut Tokens<'a>) -> (Kind, &'a [u8], usize, usize) {
    let Token {
        kind,
        text,
        start,
        stop,
    } = tokens.advance();
    (kind, text, start, stop)
}

fn file(alloc: Global, text: &[u8]) -> Result<HoaFile, HoaFault> {
    read(alloc, text)
}

/// What a header states.
fn header(file: &HoaFile) -> (u32, u32, &[Vec<u8>], &[u32], &Labels, u32, &Cond) {
    (
        file.states(),
        file.start(),
        file.names(),
        file.controllable(),
        file.aliases(),
        file.sets(),
        file.condition(),
    )
}

/// What a body states.
fn body(file: &HoaFile, state: u32) -> (&[Row], Option<&Row>) {
    (file.rows(), file.row(state))
}

/// A row's state, label, marks and edges.
fn row(row: Row) -> (u32, Option<Label>, Marks, Vec<Edge>) {
    let Row {
        state,
        label,
        marks,
        edges,
    } = row;
    (state, label, marks, edges)
}

/// An edge's guard, target and marks.
fn edge(edge: Edge) -> (Guard, u32, Marks) {
    let Edge {
        guard,
        target,
        marks,
    } = edge;
    (guard, target, marks)
}

/// The forms of guards.
fn guard(guard: Guard) -> Guard {
    match guard {
        Guard::Stated(label) => Guard::Stated(typed::<Label>(label)),
        Guard::OfState => Guard::OfState,
        Guard::Letter(letter) => Guard::Letter(typed::<u64>(letter)),
    }
}

/// The numbers of acceptance sets.
fn sets(marks: &Marks) -> &[u32] {
    marks.as_slice()
}

/// The forms of acceptance conditions.
fn condition(condition: Cond) -> Cond {
    match condition {
        Cond::Always => Cond::Always,
        Cond::Never => Cond::Never,
        Cond::Inf(set, complemented) => Cond::Inf(typed::<u32>(set), typed::<bool>(complemented)),
        Cond::Fin(set, complemented) => Cond::Fin(typed::<u32>(set), typed::<bool>(complemented)),
        Cond::All(operands) => Cond::All(typed::<Vec<Cond>>(operands)),
        Cond::Any(operands) => Cond::Any(typed::<Vec<Cond>>(operands)),
    }
}

/// The causes of a text's fault.
fn cause(fault: HoaFault) -> Option<HoaCause> {
    match fault {
        HoaFault::Text { cause, offset: _ } => match cause {
            HoaCause::NotHoa
            | HoaCause::Version
            | HoaCause::Token
            | HoaCause::Syntax
            | HoaCause::Number
            | HoaCause::HeaderTwice
            | HoaCause::MissingAcceptance
            | HoaCause::UnknownHeader
            | HoaCause::Limit
            | HoaCause::Aborted
            | HoaCause::Alternating
            | HoaCause::Start
            | HoaCause::Range
            | HoaCause::Alias
            | HoaCause::Labels
            | HoaCause::StateTwice
            | HoaCause::Controllable
            | HoaCause::Name
            | HoaCause::SeveralAutomata => Some(cause),
        },
        HoaFault::OutOfMemory => None,
    }
}

/// The diagram of a label, and its leaf at a letter.
fn truth(alloc: Global, store: &mut Store, letter: u64) -> Result<Option<u64>, AllocError> {
    let node: Node = store.of_label(&Labels::new(alloc), &Label::Truth(true))?;
    Ok(store.eval(node, letter))
}

/// The least letter that leads to a leaf, and the classes of letters.
fn divided(store: &mut Store, leaf: u64, split: u64) -> Result<(Option<u64>, Classes), AllocError> {
    let node: Node = store.leaf(leaf)?;
    let least = store.path_to(node, leaf)?;
    Ok((least, store.classes(node, split)?))
}

/// The least letter of a class.
fn least_letters(classes: &Classes) -> Option<(u64, Node)> {
    let list: &Vec<Class> = &classes.list;
    let Class { letter, rest } = list.first()?;
    Some((*letter, *rest))
}

/// Two diagrams, joined.
fn joined(store: &mut Store, first: u64, second: u64) -> Result<Node, OverlayError> {
    let one = store.leaf(first)?;
    let other = store.leaf(second)?;
    store.overlay(one, other)
}

/// Two leaves that clash.
fn clash(error: OverlayError) -> Option<(u64, u64)> {
    match error {
        OverlayError::Clash { first, second } => Some((first, second)),
        OverlayError::OutOfMemory => None,
    }
}

fn built(alloc: Global, file: &HoaFile) -> Result<Automaton, AutomatonFault> {
    Automaton::build(alloc, file)
}

/// Why a file has no automaton.
fn refusal(fault: AutomatonFault) -> Option<(u32, usize, usize)> {
    match fault {
        AutomatonFault::Nondeterministic {
            state,
            first,
            second,
        } => Some((state, first, second)),
        AutomatonFault::ComplementedSet | AutomatonFault::NonParity | AutomatonFault::OutOfMemory =>
            None,
    }
}

/// The state and the priority of a step.
fn step(automaton: &Automaton, letter: u64) -> (u32, u64) {
    let Step { state, priority } = automaton.step(automaton.start(), letter);
    (state, priority)
}

/// Whether an automaton over two propositions accepts a lasso.
fn accepted(automaton: &Automaton) -> Option<Result<bool, AllocError>> {
    if automaton.names().len() == 2 {
        Some(automaton.accepts(&[1], &[2, 0]))
    } else {
        None
    }
}
