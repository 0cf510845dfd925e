//! The order of changes.

use crate::change::{Change, Site};
use crate::sketch::{Signal, Sketch};

/// Which signals replace a site.
#[derive(Clone, Copy, PartialEq, Eq)]
enum Stage {
    /// The constants and, at a gate, what it reads.
    Constants,
    /// Besides, the inputs.
    Inputs,
    /// Besides, the latches and the gates.
    Variables,
    /// Random signals, and gates over two of them, by a fixed rule.
    Drawn,
}

/// A site, and two signals that are tried there besides the constants.
#[derive(Clone, Copy)]
struct Spot {
    site: Site,
    first: Signal,
    second: Signal,
}

impl Spot {
    /// A site where no other signals come first.
    fn plain(site: Site) -> Self {
        Spot {
            site,
            first: Signal::constant(false),
            second: Signal::constant(true),
        }
    }
}

/// A position in the order of changes. In each round, every signal of a stage is tried at every site. After a round
/// that makes the circuit smaller, the first stage comes again, and else the next one.
#[derive(Drop)]
pub(crate) struct Walk {
    stage: Stage,
    site: usize,
    choice: usize,
    has_gained: bool,
    drawn: u64,
}

impl Walk {
    /// The position of the first change.
    pub fn new() -> Self {
        Walk {
            stage: Stage::Constants,
            site: 0,
            choice: 0,
            has_gained: false,
            drawn: 1,
        }
    }

    /// The most that a circuit may cost which takes the place of another: less, unless the change is random.
    pub fn most(&self, old: usize) -> usize {
        if self.stage == Stage::Drawn {
            old
        } else {
            old.saturating_sub(1)
        }
    }

    /// The next change, or `None` where a site or a round ends.
    pub fn next(&mut self, sketch: &Sketch) -> Option<Change> {
        if self.stage == Stage::Drawn {
            return self.draw(sketch);
        }
        let Some(spot) = spot_at(sketch, self.site) else {
            self.end_round();
            return None;
        };
        let Some(signal) = self.signal(sketch, spot) else {
            self.site = self.site.saturating_add(1);
            self.choice = 0;
            return None;
        };
        self.choice = self.choice.saturating_add(1);
        Some(Change {
            site: spot.site,
            first: signal,
            second: Signal::constant(true),
            is_negated: false,
        })
    }

    /// Goes on after a circuit took another's place.
    pub fn took(&mut self, old: usize, new: usize) {
        if self.stage != Stage::Drawn {
            self.has_gained = true;
        } else if new < old {
            self.stage = Stage::Constants;
        }
    }

    /// Begins the next round.
    fn end_round(&mut self) {
        self.stage = match self.stage {
            _ if self.has_gained => Stage::Constants,
            Stage::Constants => Stage::Inputs,
            Stage::Inputs => Stage::Variables,
            Stage::Variables | Stage::Drawn => Stage::Drawn,
        };
        self.site = 0;
        self.choice = 0;
        self.has_gained = false;
    }

    /// What is tried next at a site.
    fn signal(&self, sketch: &Sketch, spot: Spot) -> Option<Signal> {
        match self.choice {
            0 => Some(Signal::constant(false)),
            1 => Some(Signal::constant(true)),
            2 => Some(spot.first),
            3 => Some(spot.second),
            choice => {
                let place = (choice - 4) / 2 + 1;
                (place < self.end(sketch)).then_some(Signal {
                    place,
                    is_negated: choice % 2 == 1,
                })
            }
        }
    }

    /// The end of the places that are tried at each site.
    fn end(&self, sketch: &Sketch) -> usize {
        match self.stage {
            Stage::Constants => 0,
            Stage::Inputs => sketch.inputs.saturating_add(1),
            Stage::Variables | Stage::Drawn => sketch.end,
        }
    }

    /// A random change.
    fn draw(&mut self, sketch: &Sketch) -> Option<Change> {
        let site = self.below(sketch.sites());
        let spot = spot_at(sketch, site)?;
        let first = self.draw_signal(sketch);
        let second = self.draw_signal(sketch);
        let is_gate = self.below(2) == 0;
        let is_negated = self.below(2) == 0;
        Some(Change {
            site: spot.site,
            first,
            second: if is_gate {
                second
            } else {
                Signal::constant(true)
            },
            is_negated,
        })
    }

    /// A random signal.
    fn draw_signal(&mut self, sketch: &Sketch) -> Signal {
        Signal {
            place: self.below(sketch.end),
            is_negated: self.below(2) == 0,
        }
    }

    /// A random number below the limit, or 0 if that is 0.
    fn below(&mut self, limit: usize) -> usize {
        self.drawn = self
            .drawn
            .wrapping_mul(6364136223846793005)
            .wrapping_add(1442695040888963407);
        let number = (self.drawn >> 33) as usize;
        if limit == 0 { 0 } else { number % limit }
    }
}

/// The site with this index: outputs, next values, latches, and gates from the last to the first.
fn spot_at(sketch: &Sketch, index: usize) -> Option<Spot> {
    let outputs = sketch.outputs.len();
    let latches = sketch.latches.len();
    if index < outputs {
        return Some(Spot::plain(Site::Output(index)));
    }
    let index = index - outputs;
    if index < latches {
        return Some(Spot::plain(Site::Next(index)));
    }
    let index = index - latches;
    if index < latches {
        return Some(Spot::plain(Site::Variable(sketch.latches[index].place)));
    }
    gate_at(sketch, index - latches)
}

/// The gate with this index, from the last.
fn gate_at(sketch: &Sketch, index: usize) -> Option<Spot> {
    if index >= sketch.gates.len() {
        return None;
    }
    let gate = sketch.gates[sketch.gates.len() - 1 - index];
    Some(Spot {
        site: Site::Variable(gate.place),
        first: gate.first,
        second: gate.second,
    })
}
