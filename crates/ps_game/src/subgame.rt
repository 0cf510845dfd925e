//! Subgames: regions in which every play can continue.

ghost use Rattle.std.specs.Prelude.{◌≡◌, ◌<◌, ◌↔◌, ℕ, IfOk, IfSome, IsSome, IsTrue, true, length, replicate};
ghost use Rattle.std.specs.Prelude.{slice_index, slice_index_or};
ghost use Rattle.std.specs.List.{Contains};
ghost use Rattle.ps_game.specs.Games.{IsGame, vertex_count};
ghost use Rattle.ps_game.specs.Subgames.{IsSubgame, LeadsInto};
ghost use Rattle.ps_game.specs.Regions.{has};

use crate::arenas::Arena;
use crate::regions::Region;
use std::alloc::{AllocError, Global};
use std::marker::Model;

/// A region of an arena in which each vertex has a successor in the region.
#[derive(Drop)]
pub struct Subgame {
    region: Region,
}

impl Model for Subgame {
    ghost use Rattle.std.specs.Prelude.{List, Bool};

    ghost Value = { List Bool };

    ghost view = { λ s. s.region };
}

impl Subgame {
    /// The subgame of all vertices. Fails if out of memory.
    pub fn whole<A: Arena>(alloc: Global, arena: &A) -> Result<Subgame, AllocError>
        ensures all { IfOk result (λ subgame. subgame ≡ replicate (vertex_count (A.game arena.now)) true) }
        ensures subgame { IfOk result (λ subgame. IsSubgame (A.game arena.now) (has subgame)) }
    {
        let region = Region::full(alloc, arena.count())?;
        Ok(Subgame { region })
    }

    /// The region as a subgame, if it is one.
    pub fn find<A: Arena>(arena: &A, region: Region) -> Option<Subgame>
        requires { length region ≡ vertex_count (A.game arena.now) }
        ensures subgame { IsSome result ↔ IsSubgame (A.game arena.now) (has region) }
        ensures same { IfSome result (λ subgame. subgame ≡ region) }
    {
        for vertex in 0..arena.count() {
            if region.contains(vertex) && !goes_on(arena, &region, vertex) {
                return None;
            }
        }
        Some(Subgame { region })
    }

    /// The region as a subgame, as the caller guarantees.
    pub fn known<A: Arena>(arena: &A, region: Region) -> Subgame
        requires places { length region ≡ vertex_count (A.game arena.now) }
        requires subgame { IsSubgame (A.game arena.now) (has region) }
        ensures { result ≡ region }
    {
        Subgame { region }
    }

    /// The vertices of the subgame.
    pub fn region(&self) -> &Region
        ensures { result.now ≡ self.now }
    {
        &self.region
    }
}

fn goes_on<A: Arena>(arena: &A, region: &Region, vertex: usize) -> bool
    requires game { IsGame (A.game arena.now) }
    requires vertex { vertex < vertex_count (A.game arena.now) }
    requires places { length region.now ≡ vertex_count (A.game arena.now) }
    ensures { IsTrue result ↔ ((w : ℕ) × LeadsInto (A.game arena.now) (has region.now) vertex w) }
{
    for number in 0..arena.degree(vertex) {
        if region.contains(arena.successor(vertex, number)) {
            return true;
        }
    }
    false
}
