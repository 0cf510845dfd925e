//! The tables of an attractor computation.

ghost use Rattle.std.specs.Prelude.{◌≡◌, ◌<◌, ◌≤◌, [], IfOk, OnOk, OnErr, length, replicate, take, slice_index};
ghost use Rattle.std.specs.Prelude.{slice_set};
ghost use Rattle.ps_attractor.specs.Levels.{IsLevel};
ghost use Rattle.ps_attractor.specs.Steps.{with_placed, with_move};

use crate::levels::Levels;
use ps_game::{Numbers, Width};
use std::alloc::{AllocError, Global};
use std::marker::Model;

/// A level and a move for each vertex, and the trail of attracted vertices in order, as integers of the type `W`; also,
/// for the other player's vertices, the successor that was last found not attracted. Contracts leave it out, since no
/// result depends on it.
#[derive(Drop)]
pub struct Tables<W: Width> {
    level: Levels<W>,
    moves: Numbers<W>,
    watch: Vec<u32>,
    trail: Numbers<W>,
}

impl<W: Width> Model for Tables<W> {
    ghost use Rattle.std.specs.Prelude.{◌≡◌, ◌≤◌, length};
    ghost use Rattle.ps_attractor.specs.Tables.{TablesData};

    ghost Value = { TablesData };

    ghost view = { λ t. record { level = t.level; moves = t.moves; trail = t.trail } };

    ghost invariant = { λ t. (length t.watch.items ≡ length t.level) × (length t.level ≤ W.LIMIT) };
}

impl<W: Width> Tables<W> {
    /// One level for all vertices, and an empty trail with room for all. Fails if out of memory.
    pub fn new(alloc: Global, count: usize, level: usize) -> Result<Tables<W>, AllocError>
        requires room { count ≤ W.LIMIT }
        requires fits { IsLevel W.LIMIT level }
        ensures levels { IfOk result (λ tables. tables.level ≡ replicate count level) }
        ensures moves { IfOk result (λ tables. tables.moves ≡ replicate count 0) }
        ensures trail { IfOk result (λ tables. tables.trail ≡ []) }
    {
        let level = Levels::filled(alloc, level, count)?;
        let moves = Numbers::filled(alloc, 0, count)?;
        let watch = vec![in alloc; 0; count]?;
        let trail = Numbers::with_capacity(alloc, count)?;
        Ok(Tables {
            level,
            moves,
            watch,
            trail,
        })
    }

    /// The level of a vertex.
    pub fn level(&self, vertex: usize) -> usize
        requires { vertex < length self.now.level }
        ensures { result ≡ slice_index self.now.level vertex }
    {
        self.level.at(vertex)
    }

    /// The move at a vertex.
    pub fn chosen(&self, vertex: usize) -> usize
        requires { vertex < length self.now.moves }
        ensures { result ≡ slice_index self.now.moves vertex }
    {
        self.moves.at(vertex)
    }

    /// The number of vertices in the trail.
    pub fn placed(&self) -> usize
        ensures { result ≡ length self.now.trail }
    {
        self.trail.len()
    }

    /// The vertex at an index of the trail.
    pub fn vertex_at(&self, place: usize) -> usize
        requires { place < length self.now.trail }
        ensures { result ≡ slice_index self.now.trail place }
    {
        self.trail.at(place)
    }

    /// Sets the level of a vertex.
    pub fn set_level(&mut self, vertex: usize, level: usize)
        requires vertex { vertex < length self.old.level }
        requires fits { IsLevel W.LIMIT level }
        ensures level { self.new.level ≡ slice_set self.old.level vertex level }
        ensures moves { self.new.moves ≡ self.old.moves }
        ensures trail { self.new.trail ≡ self.old.trail }
    {
        self.level.set(vertex, level);
    }

    /// Sets the move at a vertex.
    pub fn choose(&mut self, vertex: usize, successor: usize)
        requires vertex { vertex < length self.old.moves }
        requires successor { successor < length self.old.level }
        ensures { self.new ≡ with_move self.old vertex successor }
    {
        self.moves.set(vertex, successor);
    }

    /// Appends a vertex to the trail and sets its level. Fails if out of memory; then nothing changes.
    pub fn place(&mut self, vertex: usize, level: usize) -> Result<(), AllocError>
        requires vertex { vertex < length self.old.level }
        requires fits { IsLevel W.LIMIT level }
        ensures ok { OnOk result (self.new ≡ with_placed self.old vertex level) }
        ensures err { OnErr result (self.new ≡ self.old) }
    {
        self.trail.push(vertex)?;
        self.level.set(vertex, level);
        Ok(())
    }

    /// Cuts the trail to its first `placed` vertices.
    pub fn cut(&mut self, placed: usize)
        ensures trail { self.new.trail ≡ take placed self.old.trail }
        ensures level { self.new.level ≡ self.old.level }
        ensures moves { self.new.moves ≡ self.old.moves }
    {
        self.trail.truncate(placed);
    }

    /// The index of the successor at which the last search ended, capped at 32 bits.
    pub(crate) fn watched(&self, vertex: usize) -> usize
        requires { vertex < length self.now.level }
    {
        self.watch[vertex] as usize
    }

    /// Remembers where a search at a vertex ended.
    pub(crate) fn watch(&mut self, vertex: usize, number: usize)
        requires { vertex < length self.old.level }
        ensures { self.new ≡ self.old }
    {
        self.watch[vertex] = u32::try_from(number).unwrap_or(u32::MAX);
    }
}
