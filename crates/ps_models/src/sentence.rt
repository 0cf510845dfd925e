//! A formula with the names of its propositions.

ghost use Rattle.std.specs.Prelude.{◌<◌, ◌≤◌, length, map};
ghost use Rattle.ps_hoa.specs.Memory.{bytes_of};
ghost use Rattle.ps_simulate.specs.Symbols.{AreDistinct};

use ps_formula::Formulas;

/// A formula about at most 64 named propositions, some of which the controller sets.
#[derive(Clone, Copy)]
pub struct Sentence<'a> {
    /// The names of the propositions, in the order of their numbers. No two are equal.
    pub names: &'a [Vec<u8>],
    /// The numbers of the propositions that the controller sets.
    pub controllable: &'a [u32],
    /// A table of formulas.
    pub formulas: &'a Formulas,
    /// The index of the formula in the table.
    pub root: u32,
    ghost few: { length names.now ≤ 64 },
    ghost distinct: { AreDistinct (map bytes_of names.now) },
    ghost within: { root < length formulas.now },
}
