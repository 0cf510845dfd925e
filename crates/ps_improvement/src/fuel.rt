//! The limits of an attempt.

/// How many more cells (entries of rows) may be used.
#[derive(Drop)]
pub struct Fuel {
    /// How many may be read or written.
    pub left: u64,
    /// How many may be stored.
    pub room: u64,
    /// Whether some row was too large to be stored.
    pub is_full: bool,
}

impl Fuel {
    /// Spends fuel for `cells` cells, and for one more.
    pub fn burn(&mut self, cells: usize) {
        self.left = self.left.saturating_sub(cells as u64).saturating_sub(1);
    }

    /// A row of `cells` cells replaces one of `instead`. If it is too large, the fuel is set to 0.
    pub fn hold(&mut self, cells: usize, instead: usize) {
        let room = self.room.saturating_add(instead as u64);
        if room < cells as u64 {
            self.left = 0;
            self.is_full = true;
        }
        self.room = room.saturating_sub(cells as u64);
    }

    /// Whether no fuel is left.
    pub fn is_spent(&self) -> bool {
        self.left == 0
    }
}
