//! Regions are sets. Their sizes here are just below, at and just above multiples of the 64 bits of a word, and of the
//! 512 bits of a group of eight.

use ps_game::Region;
use std::alloc::{AllocError, Global};

/// The sizes: how many vertices each game has.
const PLACES: [usize; 8] = [0, 1, 63, 64, 65, 511, 512, 513];

/// Sets to compare with. Vertices from `places` on are ignored.
#[derive(Clone, Copy)]
enum Set {
    None,
    AllButTheLast,
    All,
    Thirds,
    Fifths,
    ThirdsAndFifths,
    ThirdsWithoutFifths,
}

impl Set {
    fn has(self, vertex: usize, places: usize) -> bool {
        let is_third = vertex % 3 == 0;
        let is_fifth = vertex % 5 == 0;
        match self {
            Set::None => false,
            Set::AllButTheLast => vertex < places.saturating_sub(1),
            Set::All => true,
            Set::Thirds => is_third,
            Set::Fifths => is_fifth,
            Set::ThirdsAndFifths => is_third || is_fifth,
            Set::ThirdsWithoutFifths => is_third && !is_fifth,
        }
    }

    /// Whether a region has just these vertices, and `count` is their number.
    fn is(self, region: &Region, places: usize) -> bool {
        let mut count: usize = 0;
        for vertex in 0..region.places() {
            if region.contains(vertex) != self.has(vertex, places) {
                return false;
            }
            count = count.saturating_add(usize::from(region.contains(vertex)));
        }
        region.places() == places && region.count() == count && region.is_empty() == (count == 0)
    }

    /// Whether such a region was made.
    fn is_made(self, region: Result<Region, AllocError>, places: usize) -> bool {
        match region {
            Ok(region) => self.is(&region, places),
            Err(_) => false,
        }
    }
}

fn filled(alloc: Global, places: usize, set: Set) -> Result<Region, AllocError> {
    let mut region = Region::empty(alloc, places)?;
    for vertex in 0..places {
        if vertex < region.places() && set.has(vertex, places) {
            region.insert(vertex);
        }
    }
    Ok(region)
}

/// The multiples of 3 or 5, as a union.
fn united(alloc: Global, places: usize) -> Result<Region, AllocError> {
    let mut united = filled(alloc, places, Set::Thirds)?;
    let fifths = filled(alloc, places, Set::Fifths)?;
    if united.places() == fifths.places() {
        united.union_with(&fifths);
    }
    Ok(united)
}

/// The multiples of 3 that are not of 5, as a difference.
fn subtracted(alloc: Global, places: usize) -> Result<Region, AllocError> {
    let mut rest = filled(alloc, places, Set::Thirds)?.copy()?;
    let fifths = filled(alloc, places, Set::Fifths)?;
    if rest.places() == fifths.places() {
        rest.difference_with(&fifths);
    }
    Ok(rest)
}

/// All vertices but the last, which is removed.
fn without_the_last(alloc: Global, places: usize) -> Result<Region, AllocError> {
    let mut region = Region::full(alloc, places)?;
    if places > 0 {
        region.remove(places - 1);
    }
    Ok(region)
}

#[test]
fn regions_are_sets(rt: HostRuntime) {
    let alloc = rt.alloc();
    for &places in PLACES.iter() {
        assert!(rt; Set::None.is_made(Region::empty(alloc, places), places));
        assert!(rt; Set::All.is_made(Region::full(alloc, places), places));
        assert!(rt; Set::AllButTheLast.is_made(without_the_last(alloc, places), places));
        assert!(rt; Set::ThirdsAndFifths.is_made(united(alloc, places), places));
        assert!(rt; Set::ThirdsWithoutFifths.is_made(subtracted(alloc, places), places));
    }
}
