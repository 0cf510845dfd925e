//! An order in which bits and propositions that belong together stand near one another.
//!
//! Each automaton draws its propositions and bits to their common centre of gravity; each of them goes to the mean of
//! the centres that draw it, again and again (FORCE: Aloul, Markov, Sakallah, "FORCE: A Fast and Easy-To-Implement
//! Variable-Ordering Heuristic", 2003). The number of rounds is fixed.

use ps_parts::stop::Stop;
use std::alloc::Global;

/// The number of rounds.
const ROUNDS: u32 = 50;

/// The distance of neighbours.
const UNIT: u64 = 1 << 20;

/// Items that belong together, as a part of a list of items.
#[derive(Clone, Copy)]
struct Group {
    start: usize,
    stop: usize,
}

/// Items, and where each stands.
#[derive(Drop)]
pub(crate) struct Gravity {
    alloc: Global,
    groups: Vec<Group>,
    members: Vec<u32>,
    /// For each item, where it stands.
    places: Vec<u64>,
    /// For each item, the sum of the centres that draw it.
    sums: Vec<u64>,
    /// For each item, the number of these.
    counts: Vec<u64>,
    /// The items, each behind its place, as one number.
    sorted: Vec<u64>,
}

impl Gravity {
    /// No items.
    pub(crate) fn new(alloc: Global) -> Self {
        Gravity {
            alloc,
            groups: Vec::new(alloc),
            members: Vec::new(alloc),
            places: Vec::new(alloc),
            sums: Vec::new(alloc),
            counts: Vec::new(alloc),
            sorted: Vec::new(alloc),
        }
    }

    /// Adds an item to the group that is made.
    pub(crate) fn add(&mut self, item: u32) -> Result<(), Stop> {
        self.members.push(item)?;
        Ok(())
    }

    /// Ends the group that is made.
    pub(crate) fn end_group(&mut self) -> Result<(), Stop> {
        let start = match self.groups.last() {
            Some(group) => group.stop,
            None => 0,
        };
        let stop = self.members.len();
        self.groups.push(Group { start, stop })?;
        Ok(())
    }

    /// The items below a number, in their order.
    pub(crate) fn ordered(&mut self, count: u32) -> Result<Vec<u32>, Stop> {
        self.begin(count)?;
        for _ in 0..ROUNDS {
            self.draw();
            self.move_all();
            self.number(count)?;
        }
        let mut items = Vec::new(self.alloc);
        for key in &self.sorted {
            items.push((*key & 0xFFFF) as u32)?;
        }
        Ok(items)
    }

    /// Places each item where it is first met.
    fn begin(&mut self, count: u32) -> Result<(), Stop> {
        self.places.resize(count as usize, u64::MAX)?;
        self.sums.resize(count as usize, 0)?;
        self.counts.resize(count as usize, 0)?;
        let mut next = 0u64;
        for member in &self.members {
            if let Some(place) = self.places.get_mut(*member as usize)
                && *place == u64::MAX
            {
                *place = next;
                next = next.saturating_add(UNIT);
            }
        }
        self.number(count)
    }

    /// Sums up the centres that draw each item.
    fn draw(&mut self) {
        for sum in self.sums.iter_mut() {
            *sum = 0;
        }
        for count in self.counts.iter_mut() {
            *count = 0;
        }
        for group in &self.groups {
            let members = self.members.get(group.start..group.stop).unwrap_or(&[]);
            let centre = centre_of(&self.places, members);
            for member in members {
                if let Some(sum) = self.sums.get_mut(*member as usize) {
                    *sum = sum.saturating_add(centre);
                }
                if let Some(count) = self.counts.get_mut(*member as usize) {
                    *count = count.saturating_add(1);
                }
            }
        }
    }

    /// Moves each item to the mean of the centres that draw it.
    fn move_all(&mut self) {
        let drawn = self.sums.iter().zip(self.counts.iter());
        for (place, (sum, count)) in self.places.iter_mut().zip(drawn) {
            if *count > 0 {
                *place = *sum / *count;
            }
        }
    }

    /// Puts the items at whole distances again, in the order of their places.
    fn number(&mut self, count: u32) -> Result<(), Stop> {
        self.sorted.clear();
        for item in 0..count {
            let place = self.places.get(item as usize).copied().unwrap_or(0);
            let key = (place >> 8).min(u64::MAX >> 16);
            self.sorted.push(key << 16 | (item as u64 & 0xFFFF))?;
        }
        self.sorted.sort_unstable();
        let mut next = 0u64;
        for key in &self.sorted {
            if let Some(place) = self.places.get_mut((*key & 0xFFFF) as usize) {
                *place = next;
            }
            next = next.saturating_add(UNIT);
        }
        Ok(())
    }
}

/// The mean of the places of some items.
fn centre_of(places: &[u64], members: &[u32]) -> u64 {
    let mut sum = 0u64;
    for member in members {
        let place = places.get(*member as usize).copied().unwrap_or(0);
        sum = sum.saturating_add(place);
    }
    match members.len() {
        0 => 0,
        count => sum / count as u64,
    }
}
