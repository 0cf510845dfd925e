//! Games made by a builder, and the same games in flat arrays.

ghost use Rattle.std.specs.Prelude.{◌≡◌, ◌<◌, [], OnOk};
ghost use Rattle.ps_game.specs.Drafts.{with_edge, with_vertex};
ghost use Rattle.ps_game.specs.Games.{vertex_count};

use ps_game::{Arena, FlatGame, Game, GameBuilder, Width, fits_narrow};
use std::alloc::{AllocError, Global};
use std::test::Fail;

/// A vertex: its owner, its priority and its successors.
type Row<'a> = (u8, u64, &'a [usize]);

fn leads_to<A: Arena>(arena: &A, vertex: usize, successors: &[usize]) -> bool {
    if vertex >= arena.count() || arena.degree(vertex) != successors.len() {
        return false;
    }
    for (number, &successor) in successors.iter().enumerate() {
        if arena.successor(vertex, number) != successor {
            return false;
        }
    }
    true
}

/// Whether an arena has these vertices.
fn reads_as<A: Arena>(arena: &A, rows: &[Row]) -> bool {
    if arena.count() != rows.len() {
        return false;
    }
    for (vertex, &(owner, priority, successors)) in rows.iter().enumerate() {
        if arena.owner(vertex) != owner || arena.priority(vertex) != priority {
            return false;
        }
        if !leads_to(arena, vertex, successors) {
            return false;
        }
    }
    true
}

/// Whether flat arrays were made, and have these vertices.
fn flat_reads_as<W: Width>(flat: Result<FlatGame<W>, AllocError>, rows: &[Row]) -> bool {
    match flat {
        Ok(flat) => reads_as(&flat, rows),
        Err(_) => false,
    }
}

/// Whether a game, and its flat arrays of 4-byte and of 8-byte numbers, have these vertices.
fn all_read_as(alloc: Global, game: &Game, rows: &[Row]) -> bool {
    fits_narrow(game)
        && reads_as(game, rows)
        && flat_reads_as(FlatGame::<u32>::of(alloc, game), rows)
        && flat_reads_as(FlatGame::<usize>::of(alloc, game), rows)
}

/// Adds a vertex. If an allocation fails, as with `rt try --test --fail-alloc N`, the call is repeated once.
#[tactic(auto, unfolding(ps_game::specs::Games::vertex_count))]
fn vertex(builder: &mut GameBuilder, owner: u8, priority: u64) -> Result<usize, AllocError>
    requires { owner < 2 }
    ensures { OnOk result (builder.new ≡ with_vertex builder.old owner priority) }
{
    match builder.vertex(owner, priority) {
        Ok(number) => Ok(number),
        Err(_) => builder.vertex(owner, priority),
    }
}

/// Adds an edge in the same way.
fn edge(builder: &mut GameBuilder, from: usize, successor: usize) -> Result<(), AllocError>
    requires { from < vertex_count builder.old }
    ensures { OnOk result (builder.new ≡ with_edge builder.old from successor) }
{
    match builder.edge(from, successor) {
        Ok(()) => Ok(()),
        Err(_) => builder.edge(from, successor),
    }
}

/// Makes a draft of two vertices, with two edges from vertex 0 to vertex 1.
#[tactic(auto, unfolding(ps_game::specs::Games::vertex_count))]
fn draw(builder: &mut GameBuilder) -> Result<(), AllocError>
    requires { builder.old ≡ [] }
{
    vertex(builder, 0, 5)?;
    vertex(builder, 1, 3)?;
    edge(builder, 0, 1)?;
    edge(builder, 0, 0)?;
    edge(builder, 0, 1)?;
    edge(builder, 1, 1)
}

#[test]
fn built_games_are_read(rt: HostRuntime) -> Result<(), Fail> {
    let mut builder = GameBuilder::new(rt.alloc());
    draw(&mut builder)?;
    let game = builder.finish()?;
    let rows: [Row; 2] = [(0, 5, &[1, 0]), (1, 3, &[1])];
    assert!(rt; all_read_as(rt.alloc(), &game, &rows));
    Ok(())
}

#[test]
fn no_vertex_is_a_game(rt: HostRuntime) -> Result<(), Fail> {
    let game = GameBuilder::new(rt.alloc()).finish()?;
    assert!(rt; all_read_as(rt.alloc(), &game, &[]));
    Ok(())
}
