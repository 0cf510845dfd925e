//! Builds a game from vertices and edges in any order, in time proportional to their number.

ghost use Rattle.std.specs.Prelude.{◌≡◌, ◌<◌, ◌≤◌, ◌+◌, ◌↔◌, ℕ, [], IfOk, OnOk, OnErr, Err, IfSome, IfNone, Some, None};
ghost use Rattle.std.specs.Prelude.{length, find, nat_le, take, map};
ghost use Rattle.std.specs.List.{All};
ghost use Rattle.ps_game.specs.Games.{ParityGame, VertexData, IsGame, vertex_count};
ghost use Rattle.ps_game.specs.Drafts.{with_vertex, with_edge, distinct, without_repeats};
ghost use Rattle.ps_game.specs.Drafts.{NoneBare, IsFirstBare, IsFirstUnknown, NoneUnknown};

use crate::faults::GameFault;
use crate::games::Game;
use crate::player::Player;
use crate::vertices::Vertices;
use smallvec::SmallVec;
use std::alloc::{AllocError, Global};
use std::marker::Model;

/// A vertex of an unfinished game. Up to four successors, which most vertices have, take no memory of their own.
#[derive(Drop)]
pub(crate) struct Vertex {
    owner: Player,
    priority: u64,
    successors: SmallVec<usize, 4>,
}

impl Model for Vertex {
    ghost Value = { VertexData };

    ghost view = { λ v. record { owner = v.owner; priority = v.priority; successors = v.successors.items } };
}

/// Builds a game from vertices and edges in any order. A call fails if out of memory; then nothing changes.
#[derive(Drop)]
pub struct GameBuilder {
    alloc: Global,
    vertices: Vec<Vertex>,
}

impl Model for GameBuilder {
    ghost Value = { ParityGame };

    ghost view = { λ b. b.vertices.items };

    ghost invariant = { λ b. All (λ v. v.owner < 2) b.vertices.items };
}

#[tactic(auto, unfolding(crate::specs::Games::vertex_count, crate::specs::Games::owner_of, crate::specs::Games::priority_of, crate::specs::Games::successors_of))]
impl GameBuilder {
    /// No vertices.
    pub fn new(alloc: Global) -> Self
        ensures { result ≡ [] }
    {
        GameBuilder {
            alloc,
            vertices: Vec::new(alloc),
        }
    }

    /// Adds a vertex with an owner, 0 or 1, and returns its number.
    pub fn vertex(&mut self, owner: u8, priority: u64) -> Result<usize, AllocError>
        requires { owner < 2 }
        ensures number { IfOk result (λ vertex. vertex ≡ vertex_count self.old) }
        ensures ok { OnOk result (self.new ≡ with_vertex self.old owner priority) }
        ensures err { OnErr result (self.new ≡ self.old) }
    {
        let number = self.vertices.len();
        let successors = SmallVec::new(self.alloc);
        self.vertices.push(Vertex {
            owner: Player::of_number(owner),
            priority,
            successors,
        })?;
        Ok(number)
    }

    /// Adds an edge from a vertex to one that may be added later.
    pub fn edge(&mut self, vertex: usize, successor: usize) -> Result<(), AllocError>
        requires { vertex < vertex_count self.old }
        ensures ok { OnOk result (self.new ≡ with_edge self.old vertex successor) }
        ensures err { OnErr result (self.new ≡ self.old) }
    {
        let vertex = &mut self.vertices[vertex];
        vertex.successors.push(successor)?;
        Ok(())
    }

    /// Finishes the game. A repeated successor counts once, at its first occurrence.
    ///
    /// # Errors
    ///
    /// [`GameFault::NoSuccessor`] with the smallest vertex that no edge leaves; if there is none,
    /// [`GameFault::UnknownSuccessor`] with the smallest vertex that has an edge to a vertex that was not added, and
    /// the target of its first such edge; else [`GameFault::OutOfMemory`].
    pub fn finish(self) -> Result<Game, GameFault>
        ensures game { IfOk result (λ game. game ≡ without_repeats self) }
        ensures no_successor { (v : ℕ) → (result ≡ Err (GameFault.NoSuccessor v)) ↔ IsFirstBare self v }
        ensures unknown_successor { (v w : ℕ) → (result ≡ Err (GameFault.UnknownSuccessor v w)) ↔
            IsFirstUnknown self v w }
    {
        let GameBuilder { alloc, vertices } = self;
        if let Some(vertex) = first_bare(&vertices) {
            return Err(GameFault::NoSuccessor { vertex });
        }
        if let Some((vertex, successor)) = first_unknown(&vertices) {
            return Err(GameFault::UnknownSuccessor { vertex, successor });
        }
        match distinct_game(alloc, vertices) {
            Ok(game) => Ok(game),
            Err(_) => Err(GameFault::OutOfMemory),
        }
    }
}

/// The game with these vertices, without repeated successors.
pub(crate) fn distinct_game(alloc: Global, mut vertices: Vec<Vertex>) -> Result<Game, AllocError>
    requires owners { All (λ v. v.owner < 2) vertices.items }
    requires bare { NoneBare vertices.items }
    requires known { NoneUnknown vertices.items }
    ensures { IfOk result (λ game. game ≡ without_repeats vertices.items) }
{
    let mut seen = vec![in alloc; 0usize; vertices.len()]?;
    drop_repeats(&mut vertices, &mut seen);
    game_of(alloc, &vertices)
}

fn game_of(alloc: Global, vertices: &[Vertex]) -> Result<Game, AllocError>
    requires { IsGame vertices.now }
    ensures { IfOk result (λ game. game ≡ vertices.now) }
{
    let mut arrays = Vertices::new(alloc)?;
    for vertex in vertices {
        arrays.push(vertex.owner, vertex.priority, &vertex.successors)?;
    }
    Ok(arrays.as_game())
}

/// A vertex with a copy of these successors.
pub(crate) fn listed_vertex(
    alloc: Global,
    owner: Player,
    priority: u64,
    successors: &[usize],
) -> Result<Vertex, AllocError>
    ensures { IfOk result (λ vertex. vertex ≡ record {
      owner = owner;
      priority = priority;
      successors = successors.now;
    }) }
{
    let mut list = SmallVec::new(alloc);
    for successor in successors {
        list.push(*successor)?;
    }
    Ok(Vertex {
        owner,
        priority,
        successors: list,
    })
}

#[tactic(auto, unfolding(crate::specs::Games::vertex_count, crate::specs::Games::successors_of))]
fn first_bare(vertices: &[Vertex]) -> Option<usize>
    ensures some { IfSome result (IsFirstBare vertices.now) }
    ensures none { IfNone result (NoneBare vertices.now) }
{
    for (number, vertex) in vertices.iter().enumerate() {
        if vertex.successors.is_empty() {
            return Some(number);
        }
    }
    None
}

/// The smallest vertex with a successor that is no vertex, and the first of these.
#[tactic(auto, unfolding(crate::specs::Games::vertex_count, crate::specs::Games::successors_of))]
fn first_unknown(vertices: &[Vertex]) -> Option<(usize, usize)>
    requires { NoneBare vertices.now }
    ensures some { IfSome result (λ at. IsFirstUnknown vertices.now at.0 at.1) }
    ensures none { IfNone result (NoneUnknown vertices.now) }
{
    for (number, vertex) in vertices.iter().enumerate() {
        if let Some(successor) = unknown_successor(vertex, vertices.len()) {
            return Some((number, successor));
        }
    }
    None
}

fn unknown_successor(vertex: &Vertex, count: usize) -> Option<usize>
    ensures { result ≡ find (λ successor. nat_le count successor) vertex.now.successors }
{
    vertex
        .successors
        .iter()
        .copied()
        .find(|successor| count <= *successor)
}

/// Drops repeated successors. For each vertex w, `seen` has v + 1 (a stamp) if v is the last processed vertex with an
/// edge to w, and 0 without one.
#[tactic(auto, unfolding(crate::specs::Games::vertex_count, crate::specs::Games::successors_of))]
fn drop_repeats(vertices: &mut [Vertex], seen: &mut [usize])
    requires known { NoneUnknown vertices.old }
    requires places { length seen.old ≡ length vertices.old }
    requires fresh { All (λ stamp. stamp < 1) seen.old }
    ensures { vertices.new ≡ without_repeats vertices.old }
{
    for number in 0..vertices.len() {
        let vertex = &mut vertices[number];
        let kept = keep_first_places(&mut vertex.successors, seen, number + 1);
        vertex.successors.truncate(kept);
    }
}

/// Moves the first occurrence of each number to the front, in order, and returns how many there are. A number whose
/// entry in `seen` is the stamp has occurred before.
fn keep_first_places(numbers: &mut [usize], seen: &mut [usize], stamp: usize) -> usize
    requires known { All (λ number. number < length seen.old) numbers.old }
    requires fresh { All (λ earlier. earlier < stamp) seen.old }
    ensures kept { take result numbers.new ≡ distinct numbers.old }
    ensures within { result ≤ length numbers.old }
    ensures stamped { All (λ earlier. earlier ≤ stamp) seen.new }
{
    let mut kept = 0;
    for place in 0..numbers.len() {
        let number = numbers[place];
        if seen[number] != stamp {
            seen[number] = stamp;
            numbers[kept] = number;
            kept += 1;
        }
    }
    kept
}
