//! The names of states: the formulas that are owed, and behind `given` those that are assumed.

use crate::owing::{Owing, owing_in, standing};
use crate::product::Product;
use ps_formula::NormalNode;
use ps_parts::forms::{FALSE, Form, Forms, Sides, TRUE};
use ps_parts::progression::Progression;
use ps_parts::stop::Stop;
use ps_tlsf::Proposition;
use std::alloc::Global;

/// The number of bytes at which a name is cut off, before the next word.
const BYTES: usize = 100;

/// A piece of a formula that is written.
#[derive(Clone, Copy)]
enum Piece {
    Word(&'static [u8]),
    /// A formula that needs no parentheses.
    Whole(Form),
    Formula(Form),
}

/// A name that is written.
#[derive(Drop)]
struct Writer {
    text: Vec<u8>,
    /// What is still to be written, the last piece first.
    pending: Vec<Piece>,
}

/// From now on, names leave out the formulas that are owed in each state of a product.
pub(crate) fn leave_out_standing(
    alloc: Global,
    world: &mut Progression,
    product: &mut Product,
) -> Result<(), Stop> {
    let standing = standing(alloc, world, product)?;
    world.leave_out(standing);
    Ok(())
}

/// The name of a state of a product.
pub(crate) fn name_of(
    alloc: Global,
    world: &mut Progression,
    product: &mut Product,
    propositions: &[Proposition],
    state: u32,
) -> Result<Vec<u8>, Stop> {
    let owing = owing_in(alloc, world, product, state)?;
    written(alloc, &world.forms, propositions, &owing)
}

/// The name of a state in which so much is owed; a long one ends with `..`.
fn written(
    alloc: Global,
    forms: &Forms,
    propositions: &[Proposition],
    owing: &Owing,
) -> Result<Vec<u8>, Stop> {
    let mut writer = Writer {
        text: Vec::new(alloc),
        pending: Vec::new(alloc),
    };
    writer.lists(forms, propositions, owing)?;
    Ok(writer.into_text())
}

impl Writer {
    /// The text.
    fn into_text(self) -> Vec<u8> {
        let Writer { text, .. } = self;
        text
    }

    /// Writes what is owed, and what is given.
    fn lists(
        &mut self,
        forms: &Forms,
        propositions: &[Proposition],
        owing: &Owing,
    ) -> Result<(), Stop> {
        self.list(forms, propositions, &owing.owed)?;
        self.word(if owing.owed.is_empty() {
            b"nothing"
        } else {
            b""
        })?;
        self.word(if owing.given.is_empty() {
            b""
        } else {
            b"; given "
        })?;
        self.list(forms, propositions, &owing.given)
    }

    /// Writes formulas, with commas between them.
    fn list(
        &mut self,
        forms: &Forms,
        propositions: &[Proposition],
        list: &[Form],
    ) -> Result<(), Stop> {
        for (number, form) in list.iter().enumerate() {
            if number > 0 {
                self.text.extend_from_slice(b", ")?;
            }
            self.pending.push(Piece::Whole(*form))?;
            if !self.run(forms, propositions)? {
                break;
            }
        }
        Ok(())
    }

    /// Writes what is pending, and returns whether there was room for all of it.
    fn run(&mut self, forms: &Forms, propositions: &[Proposition]) -> Result<bool, Stop> {
        for _ in 0..8 * BYTES {
            let Some(piece) = self.pending.pop() else {
                return Ok(true);
            };
            if self.text.len() >= BYTES {
                break;
            }
            match piece {
                Piece::Word(word) => self.text.extend_from_slice(word)?,
                Piece::Whole(form) => self.formula(forms, propositions, form, false)?,
                Piece::Formula(form) => self.formula(forms, propositions, form, true)?,
            }
        }
        self.text.extend_from_slice(b"..")?;
        self.pending.clear();
        Ok(false)
    }

    /// Writes a literal, or makes the pieces of another formula pending.
    fn formula(
        &mut self,
        forms: &Forms,
        propositions: &[Proposition],
        form: Form,
        is_inner: bool,
    ) -> Result<(), Stop> {
        let Sides { left, right } = forms.sides(form);
        match forms.node(form) {
            NormalNode::Constant(value) => self.word(if value { b"true" } else { b"false" }),
            NormalNode::Proposition(p) => self.proposition(propositions, p),
            NormalNode::Negated(p) => {
                self.word(b"!")?;
                self.proposition(propositions, p)
            }
            NormalNode::And(..) => self.infix(left, b" && ", right, is_inner),
            NormalNode::Or(..) => self.infix(left, b" || ", right, is_inner),
            NormalNode::Next(_) => self.prefix(b"X ", right),
            NormalNode::Until(TRUE, _) => self.prefix(b"F ", right),
            NormalNode::Until(..) => self.infix(left, b" U ", right, is_inner),
            NormalNode::Release(FALSE, _) => self.prefix(b"G ", right),
            NormalNode::Release(..) => self.infix(left, b" R ", right, is_inner),
        }
    }

    /// Writes a word.
    fn word(&mut self, word: &[u8]) -> Result<(), Stop> {
        self.text.extend_from_slice(word)?;
        Ok(())
    }

    /// Writes the name of a proposition.
    fn proposition(&mut self, propositions: &[Proposition], p: u32) -> Result<(), Stop> {
        let proposition = propositions.get(p as usize).ok_or(Stop::Limit)?;
        self.word(&proposition.name)
    }

    /// Makes an operator with its operand pending.
    fn prefix(&mut self, operator: &'static [u8], operand: Form) -> Result<(), Stop> {
        let pieces = [Piece::Formula(operand), Piece::Word(operator)];
        self.pending.extend_from_slice(&pieces)?;
        Ok(())
    }

    /// Makes an operator with its operands pending, in parentheses if it is inside a formula.
    fn infix(
        &mut self,
        left: Form,
        operator: &'static [u8],
        right: Form,
        is_inner: bool,
    ) -> Result<(), Stop> {
        let (begin, end): (&'static [u8], &'static [u8]) = if is_inner {
            (b"(", b")")
        } else {
            (b"", b"")
        };
        self.pending.extend_from_slice(&[
            Piece::Word(end),
            Piece::Formula(right),
            Piece::Word(operator),
            Piece::Formula(left),
            Piece::Word(begin),
        ])?;
        Ok(())
    }
}
