//! What is owed in a state of a product, as formulas.

use crate::product::Product;
use ps_formula::NormalNode;
use ps_keys::KeyList;
use ps_parts::diagrams::{self, Diagram};
use ps_parts::forms::{FALSE, Form, Forms, TRUE};
use ps_parts::progression::Progression;
use ps_parts::stop::Stop;
use std::alloc::Global;

/// What is owed in a state.
#[derive(Drop)]
pub(crate) struct Owing {
    /// The formulas that have to hold.
    pub(crate) owed: Vec<Form>,
    /// The formulas of assumptions: if one of them does not hold, nothing is owed.
    pub(crate) given: Vec<Form>,
}

/// The formulas `G f` that are owed at the first index, and so in each state.
pub(crate) fn standing(
    alloc: Global,
    world: &mut Progression,
    product: &mut Product,
) -> Result<KeyList<u64>, Stop> {
    let first = owing_in(alloc, world, product, 0)?;
    always_owed(alloc, &world.forms, &first)
}

/// The formulas `G f` of what is owed.
fn always_owed(alloc: Global, forms: &Forms, owing: &Owing) -> Result<KeyList<u64>, Stop> {
    let mut standing = KeyList::new(alloc);
    for form in owing.owed.iter().chain(&owing.given) {
        if let NormalNode::Release(FALSE, _) = forms.node(*form) {
            standing.place_of(*form as u64)?;
        }
    }
    Ok(standing)
}

/// What is owed in a state.
pub(crate) fn owing_in(
    alloc: Global,
    world: &mut Progression,
    product: &mut Product,
    state: u32,
) -> Result<Owing, Stop> {
    let mut owing = Owing {
        owed: Vec::new(alloc),
        given: Vec::new(alloc),
    };
    owing.add_state(world, product, state)?;
    Ok(owing)
}

impl Owing {
    /// Adds what is owed in a state.
    fn add_state(
        &mut self,
        world: &mut Progression,
        product: &mut Product,
        state: u32,
    ) -> Result<(), Stop> {
        let (condition, list) = product.state(state)?;
        let states = product.states_of(list)?;
        self.add_states(world, product, condition, &states)
    }

    /// Adds what the parts owe on which a condition depends.
    fn add_states(
        &mut self,
        world: &mut Progression,
        product: &mut Product,
        condition: Diagram,
        states: &[u32],
    ) -> Result<(), Stop> {
        let support = world.diagrams.support(condition)?;
        for (number, state) in states.iter().enumerate() {
            if number < 64 && support >> number & 1 == 1 {
                let (form, is_given) = of_part(world, product, condition, number, *state)?;
                self.add(&world.forms, form, is_given)?;
            }
        }
        Ok(())
    }

    /// Adds the operands of a conjunction.
    fn add(&mut self, forms: &Forms, form: Form, is_given: bool) -> Result<(), Stop> {
        let list = if is_given {
            &mut self.given
        } else {
            &mut self.owed
        };
        for operand in &forms.operands(form)? {
            if *operand > TRUE {
                list.push(*operand)?;
            }
        }
        Ok(())
    }
}

/// What a part owes in a state, and whether that is an assumption.
fn of_part(
    world: &mut Progression,
    product: &mut Product,
    condition: Diagram,
    number: usize,
    state: u32,
) -> Result<(Form, bool), Stop> {
    let part = product.parts.get(number).ok_or(Stop::Limit)?;
    let is_negative = part.is_negative;
    let owed = part.owed(state)?;
    let form = world.formula(owed)?;
    if !is_negative {
        return Ok((form, false));
    }
    let is_given = product.met(world, condition, number)? != diagrams::FALSE;
    Ok((if is_given { form } else { form ^ 1 }, is_given))
}
