//! The declared names.

ghost use Rattle.std.specs.Prelude.{◌≡◌, ◌<◌, ◌≤◌, length, map, position, IfOk, IfSome};
ghost use Rattle.std.specs.Str.{bytes_eq};
ghost use Rattle.ps_tlsf.specs.Names.{is_output, is_reserved, names_in, outputs_in};
ghost use Rattle.ps_tlsf.specs.NameViews.{name_data};

use crate::fault::TlsfCause;
use crate::words::{Side, Sign, is_same};
use std::alloc::{AllocError, Global};
use std::marker::Model;

pub(crate) const NAME_LIMIT: usize = 64;

/// A declared name.
#[derive(Debug, Drop)]
pub struct Proposition {
    /// Its bytes.
    pub name: Vec<u8>,
    /// Who sets it.
    pub side: Side,
}

/// The declared names, in their order.
#[derive(Debug, Drop)]
pub(crate) struct Names {
    list: Vec<Proposition>,
}

impl Model for Names {
    ghost use Rattle.std.specs.Prelude.{List, map, length, ◌≤◌};
    ghost use Rattle.ps_tlsf.specs.Names.{Name};
    ghost use Rattle.ps_tlsf.specs.NameViews.{name_data};

    ghost Value = { List Name };

    ghost view = { λ n. map name_data n.list.items };

    ghost invariant = { λ n. length n.list.items ≤ 64 };
}

impl Names {
    ghost use Rattle.std.specs.Prelude.{◌≡◌, ◌<◌, ◌≤◌, ◌++◌, ◌∷◌, [], length, map, IfSome, OnOk};
    ghost use Rattle.ps_tlsf.specs.Names.{name_cause, number_of};
    ghost use Rattle.ps_tlsf.specs.NameViews.{name_data};

    pub(crate) fn new(alloc: Global) -> Self
        ensures { result ≡ [] }
    {
        Names {
            list: Vec::new(alloc),
        }
    }

    pub(crate) fn number(&self, text: &[u8]) -> Option<usize>
        ensures value { result ≡ number_of self.now text.now }
        ensures within { IfSome result (λ number. number < 64) }
    {
        number_among(self.list.as_slice(), text)
    }

    /// Why the word cannot be declared, if it cannot.
    pub(crate) fn cause(&self, sign: Sign, text: &[u8]) -> Option<TlsfCause>
        ensures { result ≡ name_cause self.now sign text.now }
    {
        if is_reserved(sign) || self.number(text).is_some() {
            return Some(TlsfCause::Name);
        }
        if self.list.len() >= NAME_LIMIT {
            return Some(TlsfCause::Limit);
        }
        None
    }

    pub(crate) fn declare(&mut self, proposition: Proposition) -> Result<(), AllocError>
        requires { length self.old < 64 }
        ensures { OnOk result (self.new ≡ self.old ++ name_data proposition ∷ []) }
    {
        self.list.push(proposition)?;
        Ok(())
    }

    /// The names as a list.
    pub(crate) fn into_list(self) -> Vec<Proposition>
        ensures names { map name_data result.items ≡ self }
        ensures few { length result.items ≤ 64 }
    {
        let Names { list } = self;
        list
    }
}

/// Whether the token has a meaning in formulas, and so is no name.
fn is_reserved(sign: Sign) -> bool
    ensures { result ≡ is_reserved sign }
{
    matches!(sign, Sign::Prefix(_) | Sign::Infix(_) | Sign::Constant(_))
}

fn number_among(list: &[Proposition], text: &[u8]) -> Option<usize>
    ensures value { result ≡ position (λ p. bytes_eq p.name.items text.now) list.now }
    ensures within { IfSome result (λ number. number < length list.now) }
{
    list.iter()
        .position(|proposition| is_same(proposition.name.as_slice(), text))
}

/// The names, in the order of their numbers. Fails if out of memory.
pub fn names_of(alloc: Global, propositions: &[Proposition]) -> Result<Vec<Vec<u8>>, AllocError>
    ensures { IfOk result (λ names. map (λ name. name.items) names.items ≡ names_in (map name_data propositions.now)) }
{
    let mut names = Vec::new(alloc);
    for proposition in propositions {
        names.push(Vec::from_slice(alloc, &proposition.name)?)?;
    }
    Ok(names)
}

/// The numbers of the outputs. Fails if out of memory.
pub fn outputs_of(alloc: Global, propositions: &[Proposition]) -> Result<Vec<u32>, AllocError>
    requires { length propositions.now ≤ 64 }
    ensures { IfOk result (λ outputs. outputs.items ≡ outputs_in (map name_data propositions.now)) }
{
    let mut outputs = Vec::new(alloc);
    for (number, proposition) in propositions.iter().enumerate() {
        if is_output(proposition.side) {
            outputs.push(number as u32)?;
        }
    }
    Ok(outputs)
}

fn is_output(side: Side) -> bool
    ensures { result ≡ is_output side }
{
    matches!(side, Side::Outputs)
}
