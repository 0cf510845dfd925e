//! Which propositions the labels of a file name.

use ps_hoa::{Guard, HoaFile, Row};
use ps_label::{Label, Literal};

/// Whether the labels of a state name at least so many propositions of one player: of the one whose propositions are
/// controllable, or of the other. An alias, and an edge without a label, count as all propositions.
pub fn names_many(file: &HoaFile, is_controllable: bool, count: u32) -> bool {
    let own = bits_of(file.controllable());
    let bits = if is_controllable { own } else { !own };
    file.rows()
        .iter()
        .any(|row| count <= (named_by(row) & bits).count_ones())
}

/// The set of propositions, as bits.
pub(crate) fn bits_of(propositions: &[u32]) -> u64 {
    let mut bits = 0;
    for proposition in propositions {
        bits |= bit(*proposition);
    }
    bits
}

/// The bit of a proposition. There are at most 64.
fn bit(proposition: u32) -> u64 {
    if proposition < 64 {
        1 << proposition
    } else {
        0
    }
}

/// The propositions that the labels of a state's edges name, as bits.
fn named_by(row: &Row) -> u64 {
    let mut bits = match &row.label {
        Some(label) => named_in(label),
        None => 0,
    };
    for edge in &row.edges {
        bits |= named_by_guard(&edge.guard);
    }
    bits
}

fn named_by_guard(guard: &Guard) -> u64 {
    match guard {
        Guard::Stated(label) => named_in(label),
        Guard::OfState => 0,
        Guard::Letter(_) => u64::MAX,
    }
}

/// The propositions that a label names, as bits. An alias, which is not looked up, may name them all.
pub(crate) fn named_in(label: &Label) -> u64 {
    match label {
        Label::Truth(_) => 0,
        Label::Atom(proposition) | Label::Negated(proposition) => bit(*proposition),
        Label::Named(_) => u64::MAX,
        Label::Literals(literals) => named_in_literals(literals.as_slice()),
        Label::Neg(operand) => named_in(operand),
        Label::Both(operands) | Label::Either(operands) => {
            let mut bits = 0;
            for operand in operands {
                bits |= named_in(operand);
            }
            bits
        }
    }
}

fn named_in_literals(literals: &[Literal]) -> u64 {
    let mut bits = 0;
    for literal in literals {
        bits |= bit(literal.proposition());
    }
    bits
}
