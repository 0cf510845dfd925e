//! A circuit that is tried by one formula after another.

ghost use Rattle.std.specs.Prelude.{◌≤◌, ◌<◌, IfOk, length, map};
ghost use Rattle.ps_formula.specs.Formulas.{formula_at};
ghost use Rattle.ps_hoa.specs.Memory.{bytes_of};
ghost use Rattle.ps_simulate.specs.LassoFaults.{AreWide};
ghost use Rattle.ps_simulate.specs.Lassos.{IsWordOf};
ghost use Rattle.ps_simulate.specs.Symbols.{AreDistinct};

use crate::sentence::Sentence;
use crate::verdict::verdict;
use ps_circuit::Circuit;
use ps_formula::Formulas;
use ps_product::Roles;
use ps_simulate::{LassoFault, Role, Stimulus, TraceWord, trace_word};
use ps_verify::Judgement;
use std::alloc::{AllocError, Global};

/// A circuit, and the propositions that formulas about it speak of.
#[derive(Clone, Copy)]
pub(crate) struct Trial<'a> {
    pub alloc: Global,
    pub circuit: &'a Circuit,
    /// The names of the propositions.
    pub names: &'a [Vec<u8>],
    /// The numbers of those that the controller sets.
    pub controllable: &'a [u32],
    /// What the circuit's inputs and outputs are.
    pub roles: &'a Roles,
    pub role: Role,
    ghost few: { length names.now ≤ 64 },
    ghost distinct: { AreDistinct (map bytes_of names.now) },
}

impl<'a> Trial<'a> {
    ghost use Rattle.ps_models.specs.Inner.Trying.{IsTrial, IsTrialOf, names_in};

    /// The verdict by a formula of a table. Fails if out of memory.
    pub(crate) fn verdict(self, formulas: &Formulas, root: u32) -> Result<Judgement, AllocError>
        requires symbols { IsTrial self }
        requires root { root < length formulas.now }
        ensures { IfOk result (IsTrialOf self.entry (formula_at formulas.now root)) }
    {
        let sentence = Sentence {
            names: self.names,
            controllable: self.controllable,
            formulas,
            root,
        };
        verdict(self.alloc, self.circuit, sentence, self.roles, self.role)
    }

    /// The word of the circuit on a stimulus. Fails if out of memory.
    pub(crate) fn word(self, stimulus: &Stimulus) -> Result<TraceWord, AllocError>
        requires symbols { IsTrial self }
        requires wide { AreWide self.circuit.now stimulus.now.stem stimulus.now.lap }
        requires some { 0 < length stimulus.now.lap }
        ensures { IfOk result (IsWordOf (names_in self.entry) self.entry.circuit.now stimulus.now.stem
            stimulus.now.lap) }
    {
        let word = trace_word(
            self.alloc,
            self.circuit,
            self.names,
            self.controllable,
            self.role,
            &stimulus.stem,
            &stimulus.lap,
        );
        match word {
            Ok(word) => Ok(word),
            Err(LassoFault::OutOfMemory) => Err(AllocError),
            Err(LassoFault::Width) => unreachable!(),
            Err(LassoFault::EmptyLap) => unreachable!(),
            Err(LassoFault::Symbols) => unreachable!(),
        }
    }
}
