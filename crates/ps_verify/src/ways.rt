//! Paths in a game from vertex 0 to any other vertex. Each vertex except 0 must be a successor of a smaller
//! vertex.

ghost use Rattle.std.specs.Prelude.{◌≡◌, ◌<◌, length, IfOk};
ghost use Rattle.std.specs.List.{range_with_len};
ghost use Rattle.ps_game.specs.Games.{IsGame, successors_of, vertex_count};
ghost use Rattle.ps_verify.specs.Inner.Ways.{AreFirsts, Fall, HasLowered, IsWayBy};

use ps_game::{Arena, Game};
use std::alloc::{AllocError, Global};

/// For each vertex the first vertex that has an edge to it, if this is an earlier vertex; otherwise the vertex itself.
pub(crate) fn firsts(alloc: Global, game: &Game) -> Result<Vec<usize>, AllocError>
    ensures { IfOk result (λ firsts. AreFirsts game.now (vertex_count game.now) firsts.items) }
{
    let mut firsts = numbers(alloc, game.count())?;
    for vertex in 0..game.count() {
        lower_successors(game, vertex, &mut firsts);
    }
    Ok(firsts)
}

/// The numbers from 0 up to, but not including, `count`.
fn numbers(alloc: Global, count: usize) -> Result<Vec<usize>, AllocError>
    ensures { IfOk result (λ numbers. numbers.items ≡ range_with_len 0 count) }
{
    (0..count).collect(alloc)
}

/// For each successor of the vertex: if the entry that `firsts` has for the successor is larger than the vertex,
/// replaces the entry by the vertex.
fn lower_successors(game: &Game, vertex: usize, firsts: &mut [usize])
    requires is_game { IsGame game.now }
    requires vertex { vertex < vertex_count game.now }
    requires each { length firsts.old ≡ vertex_count game.now }
    ensures { HasLowered game.now vertex (length (successors_of game.now vertex)) firsts.old firsts.new }
{
    for number in 0..game.degree(vertex) {
        let next = game.successor(vertex, number);
        if vertex < firsts[next] {
            firsts[next] = vertex;
        }
    }
}

/// The path from vertex 0 to the given vertex. The vertex before each vertex on the path is the entry of that vertex in
/// `firsts`.
pub(crate) fn way_to(
    alloc: Global,
    firsts: &[usize],
    vertex: usize,
) -> Result<Vec<usize>, AllocError>
    requires fall { Fall firsts.now }
    requires vertex { vertex < length firsts.now }
    ensures { IfOk result (λ way. IsWayBy firsts.now way.items vertex) }
{
    let mut way = vec![in alloc; vertex; 1]?;
    let mut first = vertex;
    while first > 0 {
        first = firsts[first];
        way.push(first)?;
    }
    way.reverse();
    Ok(way)
}
