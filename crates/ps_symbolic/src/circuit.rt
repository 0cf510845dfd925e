//! The circuit of functions.
//!
//! Its inputs are the propositions of the other player, its outputs those of its own, in the order of the
//! specification. A bit of the turn or the state is a latch if the outputs depend on it, now or later.

use crate::arena::{MEMORY, turn_now};
use crate::functions::Functions;
use crate::gates::Gates;
use ps_circuit::{Latch, Literal, Parts};
use ps_keys::KeyList;
use ps_parts::column::Column;
use ps_parts::diagrams::Diagrams;
use ps_parts::stop::{Stop, index};
use ps_tlsf::{Proposition, Specification};
use std::alloc::Global;

/// No variable, and no diagram.
const NONE: u32 = u32::MAX;

/// The circuit of functions.
pub(crate) fn circuit(
    alloc: Global,
    functions: &mut Functions,
    specification: &Specification,
) -> Result<Parts, Stop> {
    let mut making = Making::new(alloc);
    making.make(alloc, functions, specification)?;
    Ok(making.into_parts())
}

/// The circuit that is made.
#[derive(Drop)]
struct Making {
    gates: Gates,
    /// The function of each variable: of outputs that of the present, of latches that of the next truth.
    functions: Column,
    /// The variables that are needed.
    needed: KeyList<u64>,
    parts: Parts,
}

/// The parts of a circuit, without any.
fn no_parts(alloc: Global) -> Parts {
    Parts {
        most: 0,
        inputs: Vec::new(alloc),
        latches: Vec::new(alloc),
        outputs: Vec::new(alloc),
        gates: Vec::new(alloc),
        input_names: Vec::new(alloc),
        latch_names: Vec::new(alloc),
        output_names: Vec::new(alloc),
    }
}

impl Making {
    /// Without anything.
    fn new(alloc: Global) -> Self {
        Making {
            gates: Gates::new(alloc),
            functions: Column::new(alloc, NONE),
            needed: KeyList::new(alloc),
            parts: no_parts(alloc),
        }
    }

    /// The parts.
    fn into_parts(self) -> Parts {
        self.parts
    }

    /// Makes the circuit of functions.
    fn make(
        &mut self,
        alloc: Global,
        functions: &mut Functions,
        specification: &Specification,
    ) -> Result<(), Stop> {
        self.note(functions)?;
        self.add_inputs(functions, &specification.propositions)?;
        self.need_outputs(functions, &specification.propositions)?;
        self.need(&mut functions.diagrams)?;
        self.give_latches(functions)?;
        self.set_outputs(functions)?;
        self.add_outputs(functions, &specification.propositions)?;
        self.add_latches(functions)?;
        self.parts.most = self.gates.most();
        self.parts.gates = self.gates.list(alloc)?;
        Ok(())
    }

    /// Notes the functions by their variables.
    fn note(&mut self, functions: &Functions) -> Result<(), Stop> {
        for unknown in &functions.unknowns {
            let variable = match unknown.variable {
                turn if turn < 2 * MEMORY => turn.saturating_sub(1),
                variable => variable,
            };
            self.functions.set(variable, unknown.function)?;
        }
        for bit in &functions.bits {
            self.functions.set(bit.variable, bit.next)?;
        }
        Ok(())
    }

    /// Adds the inputs.
    fn add_inputs(
        &mut self,
        functions: &Functions,
        propositions: &[Proposition],
    ) -> Result<(), Stop> {
        for (place, proposition) in propositions.iter().enumerate() {
            if proposition.side != functions.turn.side() {
                let literal = self.gates.give();
                let variable = functions.variables.get(index(place)?);
                self.gates.set(variable, literal)?;
                self.parts.inputs.push(Literal::new(literal))?;
                let name = proposition.name.clone()?;
                self.parts.input_names.push(Some(name))?;
            }
        }
        Ok(())
    }

    /// Notes that the outputs are needed.
    fn need_outputs(
        &mut self,
        functions: &Functions,
        propositions: &[Proposition],
    ) -> Result<(), Stop> {
        for (place, proposition) in propositions.iter().enumerate() {
            if proposition.side == functions.turn.side() {
                let variable = functions.variables.get(index(place)?);
                self.needed.place_of(variable as u64)?;
            }
        }
        Ok(())
    }

    /// Finds what the outputs depend on, now or later.
    fn need(&mut self, diagrams: &mut Diagrams) -> Result<(), Stop> {
        for place in 0..NONE as usize {
            let Some(variable) = self.needed.as_slice().get(place).copied() else {
                break;
            };
            self.need_below(diagrams, index(variable as usize)?)?;
        }
        Ok(())
    }

    /// Adds what the function of a variable depends on.
    fn need_below(&mut self, diagrams: &mut Diagrams, variable: u32) -> Result<(), Stop> {
        let function = self.functions.get(variable);
        if function == NONE {
            return Ok(());
        }
        for each in &diagrams.variables(function)? {
            self.needed.place_of(*each as u64)?;
        }
        Ok(())
    }

    /// Whether something depends on a variable.
    fn is_needed(&self, variable: u32) -> bool {
        self.needed.find(variable as u64).is_some()
    }

    /// Gives the latches their literals: those of the turn, then those of the state.
    fn give_latches(&mut self, functions: &Functions) -> Result<(), Stop> {
        for bit in 0..functions.memory {
            self.give_latch(turn_now(bit))?;
        }
        for bit in &functions.bits {
            self.give_latch(bit.variable)?;
        }
        Ok(())
    }

    /// Gives a latch its literal, if it is needed.
    fn give_latch(&mut self, variable: u32) -> Result<(), Stop> {
        if self.is_needed(variable) {
            let literal = self.gates.give();
            self.gates.set(variable, literal)?;
        }
        Ok(())
    }

    /// Makes the gates of the outputs, in the order in which their functions were chosen.
    fn set_outputs(&mut self, functions: &Functions) -> Result<(), Stop> {
        for unknown in &functions.unknowns {
            if unknown.variable >= 2 * MEMORY {
                let literal = self.gates.literal(&functions.diagrams, unknown.function)?;
                self.gates.set(unknown.variable, literal)?;
            }
        }
        Ok(())
    }

    /// Adds the outputs.
    fn add_outputs(
        &mut self,
        functions: &Functions,
        propositions: &[Proposition],
    ) -> Result<(), Stop> {
        for (place, proposition) in propositions.iter().enumerate() {
            if proposition.side == functions.turn.side() {
                let variable = functions.variables.get(index(place)?);
                let literal = self.gates.literal_of(variable).unwrap_or(0);
                self.parts.outputs.push(Literal::new(literal))?;
                let name = proposition.name.clone()?;
                self.parts.output_names.push(Some(name))?;
            }
        }
        Ok(())
    }

    /// Adds the latches.
    fn add_latches(&mut self, functions: &Functions) -> Result<(), Stop> {
        for bit in 0..functions.memory {
            self.add_latch(functions, turn_now(bit))?;
        }
        for bit in &functions.bits {
            self.add_latch(functions, bit.variable)?;
        }
        Ok(())
    }

    /// Adds a latch, if it is needed.
    fn add_latch(&mut self, functions: &Functions, variable: u32) -> Result<(), Stop> {
        if !self.is_needed(variable) {
            return Ok(());
        }
        let literal = self.gates.literal_of(variable).ok_or(Stop::Limit)?;
        let next = self
            .gates
            .literal(&functions.diagrams, self.functions.get(variable))?;
        self.parts.latches.push(Latch {
            literal: Literal::new(literal),
            next: Literal::new(next),
            reset: false,
        })?;
        self.parts.latch_names.push(None)?;
        Ok(())
    }
}
