//! The header of an automaton's text.

use crate::parity::Parity;
use crate::text::output::Output;
use ps_parts::stop::Stop;
use ps_tlsf::{Proposition, Side};

/// The most acceptance sets.
const SETS: u32 = 64;

/// Adds the header of an automaton.
pub(crate) fn add_header(
    output: &mut Output,
    parity: &Parity,
    propositions: &[Proposition],
    title: Option<&[u8]>,
) -> Result<(), Stop> {
    add_heading(output, parity, title)?;
    add_names(output, propositions)?;
    add_outputs(output, propositions)?;
    add_acceptance(output, parity.most)
}

/// Adds the first items of the header.
fn add_heading(output: &mut Output, parity: &Parity, title: Option<&[u8]>) -> Result<(), Stop> {
    output.add(b"HOA: v1\n")?;
    if let Some(title) = title {
        add_title(output, title)?;
    }
    output.add_number_between(b"States: ", parity.machine.rows.len(), b"\nStart: 0\n")
}

/// Adds the name of the automaton, the bytes of a string with its quotes.
fn add_title(output: &mut Output, title: &[u8]) -> Result<(), Stop> {
    output.add(b"name: ")?;
    for byte in title {
        if *byte == b'\\' {
            output.add(b"\\")?;
        }
        output.add(&[*byte])?;
    }
    output.add(b"\n")
}

/// Adds the names of the propositions.
fn add_names(output: &mut Output, propositions: &[Proposition]) -> Result<(), Stop> {
    output.add_number_between(b"AP: ", propositions.len(), b"")?;
    for proposition in propositions {
        output.add_between(b" \"", &proposition.name, b"\"")?;
    }
    Ok(())
}

/// Adds the numbers of the outputs.
fn add_outputs(output: &mut Output, propositions: &[Proposition]) -> Result<(), Stop> {
    output.add(b"\ncontrollable-AP:")?;
    for (number, proposition) in propositions.iter().enumerate() {
        if matches!(proposition.side, Side::Outputs) {
            output.add_number_between(b" ", number, b"")?;
        }
    }
    output.add(b"\n")
}

/// Adds the condition on the least priority, for this greatest one, which has no acceptance set.
fn add_acceptance(output: &mut Output, most: u32) -> Result<(), Stop> {
    if most > SETS {
        return Err(Stop::Limit);
    }
    output.add_number_between(b"acc-name: parity min even ", most as usize, b"")?;
    output.add_number_between(b"\nAcceptance: ", most as usize, b" ")?;
    if most == 0 {
        output.add(b"t")?;
    }
    add_priorities(output, most)?;
    output.add(b"\n")
}

/// Adds what the condition says of the priorities.
fn add_priorities(output: &mut Output, most: u32) -> Result<(), Stop> {
    for priority in 0..most {
        add_priority(output, priority, most)?;
    }
    for _ in 2..most {
        output.add(b")")?;
    }
    Ok(())
}

/// Adds what the condition says of a priority.
fn add_priority(output: &mut Output, priority: u32, most: u32) -> Result<(), Stop> {
    let is_even = priority % 2 == 0;
    let set = if is_even { b"Inf(" } else { b"Fin(" };
    output.add_number_between(set, priority as usize, b")")?;
    let left = most.saturating_sub(priority);
    if left < 2 {
        return Ok(());
    }
    output.add(if is_even { b" | " } else { b" & " })?;
    output.add(if left > 2 { b"(" } else { b"" })
}
