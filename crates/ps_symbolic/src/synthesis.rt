//! The winner of a specification, with a circuit.

use crate::arena::Arena;
use crate::automata::Automata;
use crate::circuit::circuit;
use crate::closed::win;
use crate::colours::Colours;
use crate::functions::Functions;
use crate::game::{Game, Turn};
use crate::relation::moves_of;
use crate::strengthening::Strengthening;
use crate::tree::Tree;
use ps_circuit::Parts;
use ps_parts::diagrams::{self, Diagram};
use ps_parts::stop::{Stop, index};
use ps_simulate::Role;
use ps_tlsf::{Order, Side, Specification};
use std::alloc::{AllocError, Global};

/// A circuit that should win for a specification.
#[derive(Drop)]
pub struct Solution {
    /// Whether it is a controller or an environment.
    pub role: Role,
    /// The circuit. Its inputs are the other side's propositions, its outputs those of its own, in their order.
    pub parts: Parts,
}

/// A circuit for the winner of a specification; or None, if none is found within a budget of steps. That it wins is
/// promised by no clause: whoever needs it has to judge the circuit. Fails if out of memory.
pub fn solved(
    alloc: Global,
    specification: &Specification,
    steps: u32,
) -> Result<Option<Solution>, AllocError> {
    match found(alloc, specification, steps) {
        Ok(made) => Ok(Some(made)),
        Err(Stop::Limit) => Ok(None),
        Err(Stop::Memory) => Err(AllocError),
    }
}

/// Like `solved`.
fn found(alloc: Global, specification: &Specification, steps: u32) -> Result<Solution, Stop> {
    let automata = Automata::new(alloc, specification, steps)?;
    let mut strengthening = Strengthening::new(alloc, automata, steps);
    let made = found_by(alloc, specification, &mut strengthening);
    drop(strengthening);
    made
}

/// Like `solved`, by a search for a condition.
fn found_by(
    alloc: Global,
    specification: &Specification,
    strengthening: &mut Strengthening,
) -> Result<Solution, Stop> {
    let role = strengthening.run(specification)?;
    let mut functions = Functions::new(alloc, strengthening.steps)?;
    let made = circuit_of(alloc, specification, strengthening, role, &mut functions);
    drop(functions);
    Ok(Solution { role, parts: made? })
}

/// The winner's circuit, by functions that are not yet made.
fn circuit_of(
    alloc: Global,
    specification: &Specification,
    strengthening: &mut Strengthening,
    role: Role,
    functions: &mut Functions,
) -> Result<Parts, Stop> {
    let automata = &mut strengthening.automata;
    let steps = strengthening.steps;
    let mut game = game_of(alloc, specification, automata, Player::from(role), steps)?;
    let planned = plan(alloc, specification, &mut game, functions);
    drop(game);
    planned?;
    let reached = win(alloc, functions)?;
    functions.shrink(reached)?;
    circuit(alloc, functions, specification)
}

/// Plans the functions of a game.
fn plan(
    alloc: Global,
    specification: &Specification,
    game: &mut Game,
    functions: &mut Functions,
) -> Result<(), Stop> {
    if !game.is_won_from_start()? {
        return Err(Stop::Limit);
    }
    let states = game.won_states()?;
    let moves = moves_of(alloc, game, states)?;
    functions.take_over(game, states, moves)?;
    let outputs = own_variables(alloc, specification, functions)?;
    functions.plan(&outputs)
}

/// The variables of the winner's propositions, in their order.
fn own_variables(
    alloc: Global,
    specification: &Specification,
    functions: &Functions,
) -> Result<Vec<u32>, Stop> {
    let own = functions.turn.side();
    let mut list = Vec::new(alloc);
    for (place, proposition) in specification.propositions.iter().enumerate() {
        if proposition.side == own {
            list.push(functions.variables.get(index(place)?))?;
        }
    }
    Ok(list)
}

/// The game of the automata of a specification, for a player.
pub(crate) fn game_of(
    alloc: Global,
    specification: &Specification,
    automata: &mut Automata,
    player: Player,
    steps: u32,
) -> Result<Game, Stop> {
    let mut colours = Colours::new(alloc, automata)?;
    let mut tree = Tree::new(alloc)?;
    tree.condition = colours.condition(automata, &mut tree.diagrams)?;
    tree.grow(colours.count)?;
    let count = index(specification.propositions.len())?;
    let mut arena = Arena::new(alloc, automata, &colours, count, steps)?;
    let turn = turn_of(specification, &mut arena, player)?;
    Ok(Game::new(alloc, arena, tree, turn))
}

/// Who plays a game.
#[derive(Clone, Copy)]
pub(crate) enum Player {
    Controller,
    Environment,
    /// Both players together, for the controller.
    Both,
}

impl From<Role> for Player {
    fn from(role: Role) -> Self {
        match role {
            Role::Controller => Player::Controller,
            Role::Environment => Player::Environment,
        }
    }
}

/// How a player moves.
fn turn_of(specification: &Specification, arena: &mut Arena, player: Player) -> Result<Turn, Stop> {
    let outputs = cube_of(specification, arena, Side::Outputs)?;
    let inputs = cube_of(specification, arena, Side::Inputs)?;
    let outputs_first = specification.order == Order::Moore;
    Ok(match player {
        Player::Controller => Turn {
            is_controller: true,
            is_first: outputs_first,
            own: outputs,
            other: inputs,
        },
        Player::Environment => Turn {
            is_controller: false,
            is_first: !outputs_first,
            own: inputs,
            other: outputs,
        },
        Player::Both => Turn {
            is_controller: true,
            is_first: false,
            own: arena.diagrams.both(inputs, outputs)?,
            other: diagrams::TRUE,
        },
    })
}

/// The variables that a side sets.
fn cube_of(specification: &Specification, arena: &mut Arena, side: Side) -> Result<Diagram, Stop> {
    let mut cube = diagrams::TRUE;
    for (place, proposition) in specification.propositions.iter().enumerate() {
        let variable = arena.proposition(index(place)?);
        if proposition.side == side {
            let one = arena.diagrams.variable(variable)?;
            cube = arena.diagrams.both(one, cube)?;
        }
    }
    Ok(cube)
}
