//! The gates of a circuit builder, with each kind of multiplexer (constant, equal or other inputs).

use ps_aiger::{Builder, EncodeFault, Literal};
use std::alloc::Global;

/// What `mux` returns, or `None` if it fails or an argument's variable does not exist.
fn mux(builder: &mut Builder, s: u32, high: u32, low: u32) -> Option<u32> {
    let (s, high, low) = (Literal::new(s), Literal::new(high), Literal::new(low));
    let most = builder.variables();
    if s.variable() > most || high.variable() > most || low.variable() > most {
        return None;
    }
    let literal = builder.mux(s, high, low).ok()?;
    Some(literal.number())
}

/// Whether each multiplexer gives the expected literal, and the builder then has the expected number of variables.
fn choices_are_right(alloc: Global) -> bool {
    let mut builder = Builder::new(alloc, 3);
    for (high, low, literal, variables) in [
        (4, 4, 4, 3),
        (1, 0, 2, 3),
        (0, 1, 3, 3),
        (1, 4, 9, 4),
        (0, 4, 10, 5),
        (4, 0, 12, 6),
        (4, 1, 15, 7),
        (4, 6, 19, 9),
    ] {
        if mux(&mut builder, 2, high, low) != Some(literal) || builder.variables() != variables {
            return false;
        }
    }
    true
}

#[test]
fn each_row_of_the_table_of_choices(rt: HostRuntime) {
    assert!(rt; choices_are_right(rt.alloc()));
}

/// What `and` returns, or `or`; `None` if an argument's variable does not exist.
fn and(builder: &mut Builder, x: u32, y: u32) -> Option<Result<u32, EncodeFault>> {
    let (x, y) = (Literal::new(x), Literal::new(y));
    let most = builder.variables();
    if x.variable() > most || y.variable() > most {
        return None;
    }
    Some(builder.and(x, y).map(Literal::number))
}

fn or(builder: &mut Builder, x: u32, y: u32) -> Option<Result<u32, EncodeFault>> {
    let (x, y) = (Literal::new(x), Literal::new(y));
    let most = builder.variables();
    if x.variable() > most || y.variable() > most {
        return None;
    }
    Some(builder.or(x, y).map(Literal::number))
}

/// Whether conjunctions and a disjunction over two variables are as expected, with one gate for all.
fn gates_are_right(builder: &mut Builder) -> bool {
    for (x, y, literal) in [(2, 4, 6), (4, 2, 6), (2, 3, 0), (2, 2, 2), (1, 4, 4)] {
        if and(builder, x, y) != Some(Ok(literal)) {
            return false;
        }
    }
    or(builder, 3, 5) == Some(Ok(7)) && builder.gates().len() == 1
}

/// The same for a new builder, and again if it fails, as an allocation may with `rt try --test --fail-alloc N`.
fn new_gates_are_right(alloc: Global) -> bool {
    let mut builder = Builder::new(alloc, 2);
    gates_are_right(&mut builder) || gates_are_right(&mut builder)
}

#[test]
fn a_gate_is_made_once(rt: HostRuntime) {
    assert!(rt; new_gates_are_right(rt.alloc()));
}

/// Whether a builder with one variable left makes just one more gate.
fn last_gates_are_right(alloc: Global) -> bool {
    let mut builder = Builder::new(alloc, 2147483646);
    and(&mut builder, 2, 4) == Some(Ok(4294967294))
        && and(&mut builder, 4, 2) == Some(Ok(4294967294))
        && and(&mut builder, 2, 5) == Some(Err(EncodeFault::CircuitTooLarge))
        && and(&mut builder, 2, 3) == Some(Ok(0))
}

#[test]
fn no_variable_is_left(rt: HostRuntime) {
    assert!(rt; last_gates_are_right(rt.alloc()));
}
