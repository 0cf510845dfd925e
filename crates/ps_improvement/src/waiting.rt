//! A queue of vertices.

ghost use Rattle.std.specs.Prelude.{◌≡◌, ◌<◌, All, IfOk, IfSome, length};

use ps_game::Region;
use std::alloc::{AllocError, Global};
use std::collections::VecDeque;

/// A queue of vertices in which each occurs at most once.
#[derive(Drop)]
pub struct Waiting {
    queue: VecDeque<usize>,
    /// The vertices in the queue.
    pub waits: Region,
    ghost within: { All (λ v. v < length waits) queue.items },
}

impl Waiting {
    /// An empty queue for `count` vertices.
    pub fn none(alloc: Global, count: usize) -> Result<Waiting, AllocError>
        ensures { IfOk result (λ waiting. length waiting.waits ≡ count) }
    {
        Ok(Waiting {
            queue: VecDeque::new(alloc),
            waits: Region::empty(alloc, count)?,
        })
    }

    /// Appends a vertex, unless the queue has it already.
    pub fn put(&mut self, vertex: usize) -> Result<(), AllocError>
        requires { vertex < length self.old.waits }
        ensures { length self.new.waits ≡ length self.old.waits }
    {
        if !self.waits.contains(vertex) {
            self.queue.push_back(vertex)?;
            self.waits.insert(vertex);
        }
        Ok(())
    }

    /// Removes the first vertex.
    pub fn take(&mut self) -> Option<usize>
        ensures places { length self.new.waits ≡ length self.old.waits }
        ensures within { IfSome result (λ vertex. vertex < length self.old.waits) }
    {
        let vertex = self.queue.pop_front()?;
        self.waits.remove(vertex);
        Some(vertex)
    }
}
