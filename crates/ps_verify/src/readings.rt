//! The inputs that a circuit reads along paths of its product with an automaton.

ghost use Rattle.std.specs.Prelude.{◌≡◌, ◌<◌, Some, slice_get, IfOk, slice_index, ℕ};
ghost use Rattle.ps_game.specs.Games.{HasEdge, successors_of, vertex_count};
ghost use Rattle.ps_game.specs.Plays.{IsPath};
ghost use Rattle.ps_product.specs.Products.{IsLedTo};
ghost use Rattle.ps_simulate.specs.Stimuli.{letters_of};
ghost use Rattle.ps_verify.specs.Inner.Readings.{ReadsEdge, ReadsPath, ReadsRound};
ghost use Rattle.ps_verify.specs.Inner.Rounds.{IsLostRound};
ghost use Rattle.ps_verify.specs.Inner.Ways.{IsWayTo};

use crate::ways::{firsts, way_to};
use ps_game::{Arena, Game, Player};
use ps_product::Product;
use ps_simulate::Stimulus;
use std::alloc::{AllocError, Global};

/// The index of the vertex `next` among the successors of a vertex.
fn number_of(game: &Game, vertex: usize, next: usize) -> usize
    requires { HasEdge game.now vertex next }
    ensures { slice_get (successors_of game.now vertex) result ≡ Some next }
{
    for number in 0..game.degree(vertex) {
        if game.successor(vertex, number) == next {
            return number;
        }
    }
    unreachable!()
}

/// The inputs that the circuit reads in a step along an edge of the product.
fn inputs_of(
    alloc: Global,
    product: &Product,
    vertex: usize,
    next: usize,
) -> Result<Vec<bool>, AllocError>
    requires { HasEdge product.now.game vertex next }
    ensures { IfOk result (λ inputs. ReadsEdge product.now vertex next inputs.items) }
{
    let number = number_of(product.game(), vertex, next);
    product.inputs(alloc, vertex, number)
}

/// The inputs that the circuit reads in each step along a path of the product.
fn letters_along(
    alloc: Global,
    product: &Product,
    path: &[usize],
) -> Result<Vec<Vec<bool>>, AllocError>
    requires { IsPath product.now.game path.now }
    ensures { IfOk result (λ letters. ReadsPath product.now path.now (letters_of letters.items)) }
{
    let mut letters = Vec::new(alloc);
    for place in 1..path.len() {
        letters.push(inputs_of(alloc, product, path[place - 1], path[place])?)?;
    }
    Ok(letters)
}

/// The path from the first vertex to the given vertex.
fn way_in(alloc: Global, game: &Game, vertex: usize) -> Result<Vec<usize>, AllocError>
    requires vertex { vertex < vertex_count game.now }
    requires reached { (w : ℕ) → 0 < w → w < vertex_count game.now → IsLedTo game.now w }
    ensures { IfOk result (λ way. IsWayTo game.now way.items vertex) }
{
    let firsts = firsts(alloc, game)?;
    let way = way_to(alloc, &firsts, vertex)?;
    Ok(way)
}

/// The stimulus for a cycle of the product that the player loses. The stem has the inputs that the circuit reads on a
/// path to the cycle, and the lap has the inputs that it reads along the cycle.
pub(crate) fn stimulus_of(
    alloc: Global,
    product: &Product,
    mut cycle: Vec<usize>,
    player: Player,
) -> Result<Stimulus, AllocError>
    requires lost { IsLostRound product.now.game player cycle.items }
    requires reached { (w : ℕ) → 0 < w → w < vertex_count product.now.game → IsLedTo product.now.game w }
    ensures { IfOk result (ReadsRound player product.now) }
{
    let way = way_in(alloc, product.game(), cycle[0])?;
    let stem = letters_along(alloc, product, &way)?;
    cycle.push(cycle[0])?;
    let lap = letters_along(alloc, product, &cycle)?;
    Ok(Stimulus { stem, lap })
}
