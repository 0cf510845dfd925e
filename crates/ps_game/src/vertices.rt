//! A list of vertices, which a parser of game texts builds.

ghost use Rattle.std.specs.Prelude.{◌≡◌, ◌≢◌, ◌==◌, ◌<◌, ◌≤◌, ◌+◌, ◌++◌, ◌∷◌, [], IfOk, OnOk, OnErr, Contains, length};
ghost use Rattle.std.specs.Prelude.{◌↔◌, IsTrue, map, nat_lt, take, vec_len, vec_capacity};
ghost use Rattle.std.specs.Bool.{OnTrue};
ghost use Rattle.std.specs.List.{All, AllPairs, list_all, list_any};
ghost use Rattle.ps_ids.specs.Ids.{place_of};
ghost use Rattle.ps_game.specs.Games.{ParityGame, IsGame, vertex_count, successors_of};
ghost use Rattle.ps_game.specs.Drafts.{without_repeats, with_places, AreOwn, NoneBare, NoneUnknown, HaveNoRepeats};
ghost use Rattle.ps_game.specs.Flat.{game_in, AreVertices};

use crate::builder::{Vertex, distinct_game, listed_vertex};
use crate::flat::FlatGame;
use crate::games::Game;
use crate::numbers::Numbers;
use crate::player::Player;
use ps_ids::Ids;
use std::alloc::{AllocError, Global};
use std::marker::Model;

/// A list of vertices whose successors may be any numbers, in four arrays, which take 17 bytes a vertex and 8 a
/// successor.
#[derive(Drop)]
pub struct Vertices {
    offsets: Vec<usize>,
    successors: Vec<usize>,
    owners: Vec<u8>,
    priorities: Vec<u64>,
}

impl Model for Vertices {
    ghost Value = { ParityGame };

    ghost view = { λ v. game_in v.offsets.items v.successors.items v.owners.items v.priorities.items };

    ghost invariant = { λ v. AreVertices v.offsets.items v.successors.items v.owners.items v.priorities.items };
}

#[tactic(auto, unfolding(crate::specs::Games::vertex_count, crate::specs::Games::successors_of))]
impl Vertices {
    /// No vertices. Fails if out of memory.
    pub fn new(alloc: Global) -> Result<Self, AllocError>
        ensures { IfOk result (λ vertices. vertices ≡ []) }
    {
        let mut offsets = Vec::new(alloc);
        offsets.push(0)?;
        Ok(Vertices {
            offsets,
            successors: Vec::new(alloc),
            owners: Vec::new(alloc),
            priorities: Vec::new(alloc),
        })
    }

    /// The number of vertices.
    pub fn len(&self) -> usize
        ensures { result ≡ length self.now }
    {
        self.owners.len()
    }

    /// Appends a vertex. Fails if out of memory; then nothing changes.
    #[inline(always)]
    pub fn push(
        &mut self,
        owner: Player,
        priority: u64,
        successors: &[usize],
    ) -> Result<(), AllocError>
        ensures ok { OnOk result (self.new ≡ self.old ++ record {
          owner = owner;
          priority = priority;
          successors = successors.now;
        } ∷ []) }
        ensures err { OnErr result (self.new ≡ self.old) }
    {
        make_room(&mut self.offsets, &mut self.owners, &mut self.priorities)?;
        append(&mut self.successors, successors)?;
        let end = self.successors.len();
        self.offsets.push_reserved(end);
        self.owners.push_reserved(owner.number());
        self.priorities.push_reserved(priority);
        Ok(())
    }

    /// Keeps the first `count` vertices.
    pub fn truncate(&mut self, count: usize)
        ensures { self.new ≡ take count self.old }
    {
        if count >= self.owners.len() {
            return;
        }
        let end = self.offsets[count];
        self.offsets.truncate(count + 1);
        self.successors.truncate(end);
        self.owners.truncate(count);
        self.priorities.truncate(count);
    }

    /// Whether each successor is one of the ids.
    pub fn know_successors(&self, ids: &Ids) -> bool
        ensures { result ≡ list_all (λ v. list_all (λ w. list_any (λ id. w == id) ids.now) v.successors) self.now }
    {
        // If each id is its own index, the ids are the numbers less than their count.
        if are_places(ids.list()) {
            return are_below(&self.successors, ids.list().len());
        }
        are_ids(ids, &self.successors)
    }

    /// Replaces each successor, which must be an id, by its index.
    pub fn resolve(&mut self, ids: &Ids)
        requires { All (λ v. All (λ w. Contains ids.now w) v.successors) self.old }
        ensures { self.new ≡ map (with_places ids.now) self.old }
    {
        if are_places(ids.list()) {
            return;
        }
        places_in(&mut self.successors, ids);
    }

    /// The game with these vertices. A repeated successor counts once, at its first occurrence. Fails if out of memory.
    pub fn into_game(self, alloc: Global) -> Result<Game, AllocError>
        requires bare { NoneBare self }
        requires known { NoneUnknown self }
        ensures { IfOk result (λ game. game ≡ without_repeats self) }
    {
        if self.are_distinct() {
            return Ok(self.as_game());
        }
        let listed = self.listed(alloc)?;
        distinct_game(alloc, listed)
    }

    pub(crate) fn as_game(self) -> Game
        requires { IsGame self }
        ensures { result ≡ self }
    {
        let Vertices {
            offsets,
            successors,
            owners,
            priorities,
        } = self;
        Game {
            flat: FlatGame {
                offsets: Numbers::of(offsets),
                successors: Numbers::of(successors),
                owners,
                priorities,
            },
        }
    }

    fn successors(&self, vertex: usize) -> &[usize]
        requires { vertex < vertex_count self.now }
        ensures { result.now ≡ successors_of self.now vertex }
    {
        let start = self.offsets[vertex];
        let end = self.offsets[vertex + 1];
        let (_, behind) = self.successors.split_at(start);
        let (own, _) = behind.split_at(end - start);
        own
    }

    /// A quick test: if true, no vertex has a successor twice; if false, nothing is known.
    fn are_distinct(&self) -> bool
        ensures { OnTrue result (HaveNoRepeats self.now) }
    {
        for vertex in 0..self.len() {
            if !are_different(self.successors(vertex)) {
                return false;
            }
        }
        true
    }

    /// The vertices, each with a list of its own.
    fn listed(&self, alloc: Global) -> Result<Vec<Vertex>, AllocError>
        ensures { IfOk result (λ vertices. vertices.items ≡ self.now) }
    {
        let mut vertices = Vec::new(alloc);
        for vertex in 0..self.len() {
            let listed = listed_vertex(
                alloc,
                Player::of_number(self.owners[vertex]),
                self.priorities[vertex],
                self.successors(vertex),
            )?;
            vertices.push(listed)?;
        }
        Ok(vertices)
    }
}

/// Reserves memory for one more vertex without its successors.
#[inline(always)]
fn make_room(
    offsets: &mut Vec<usize>,
    owners: &mut Vec<u8>,
    priorities: &mut Vec<u64>,
) -> Result<(), AllocError>
    ensures offsets { offsets.new.items ≡ offsets.old.items }
    ensures owners { owners.new.items ≡ owners.old.items }
    ensures priorities { priorities.new.items ≡ priorities.old.items }
    ensures offset { OnOk result (vec_len offsets.new < vec_capacity offsets.new) }
    ensures owner { OnOk result (vec_len owners.new < vec_capacity owners.new) }
    ensures priority { OnOk result (vec_len priorities.new < vec_capacity priorities.new) }
{
    offsets.reserve(1)?;
    owners.reserve(1)?;
    priorities.reserve(1)
}

const SHORT: usize = 8;

/// Appends numbers. Up to `SHORT` of them are copied one by one, since a call that copies memory takes longer. Fails if
/// out of memory; then nothing changes.
#[inline(always)]
fn append(list: &mut Vec<usize>, numbers: &[usize]) -> Result<(), AllocError>
    ensures ok { OnOk result (list.new.items ≡ list.old.items ++ numbers.now) }
    ensures err { OnErr result (list.new.items ≡ list.old.items) }
{
    if numbers.len() > SHORT {
        return list.extend_from_slice(numbers);
    }
    list.reserve(numbers.len())?;
    for number in numbers {
        list.push_reserved(*number);
    }
    Ok(())
}

fn are_ids(ids: &Ids, list: &[usize]) -> bool
    ensures { result ≡ list_all (λ w. list_any (λ id. w == id) ids.now) list.now }
{
    list.iter().all(|id| ids.has(*id as u64))
}

fn are_below(numbers: &[usize], bound: usize) -> bool
    ensures { result ≡ list_all (λ number. nat_lt number bound) numbers.now }
{
    numbers.iter().all(|number| *number < bound)
}

/// Whether the ids are 0, 1, 2 and so on.
fn are_places(ids: &[u64]) -> bool
    ensures { IsTrue result ↔ AreOwn ids.now }
{
    for (place, id) in ids.iter().enumerate() {
        if *id != place as u64 {
            return false;
        }
    }
    true
}

/// Replaces each id by its index.
fn places_in(numbers: &mut [usize], ids: &Ids)
    requires { All (λ id. Contains ids.now id) numbers.old }
    ensures { numbers.new ≡ map (place_of ids.now) numbers.old }
{
    for at in 0..numbers.len() {
        let place = ids.place(numbers[at] as u64).unwrap();
        numbers[at] = place;
    }
}

const FEW: usize = 8;

/// A quick test: if true, no number occurs twice. Up to `FEW` numbers are compared pairwise; a longer list passes only
/// if it ascends.
fn are_different(numbers: &[usize]) -> bool
    ensures { OnTrue result (AllPairs (λ x y. x ≢ y) numbers.now) }
{
    if numbers.len() > FEW {
        for next in 1..numbers.len() {
            if numbers[next] <= numbers[next - 1] {
                return false;
            }
        }
        return true;
    }
    for place in 0..numbers.len() {
        if numbers[..place].contains(&numbers[place]) {
            return false;
        }
    }
    true
}
