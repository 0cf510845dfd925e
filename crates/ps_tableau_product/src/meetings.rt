//! What was found of guards and states of an automaton, kept.

ghost use Rattle.std.specs.Prelude.{◌≡◌, ℕ, [], IfOk, IfSome, List, OnOk};
ghost use Rattle.ps_automaton.specs.Automata.{AutomatonData};
ghost use Rattle.ps_diagram.specs.Table.{IsNode, Table};
ghost use Rattle.ps_tableau_product.specs.Inner.Alphabets.{AreMeetings, AreMet, HasFound};

use ps_diagram::Node;
use ps_keys::KeyList;
use std::alloc::{AllocError, Global};

/// For pairs of a guard and a state of an automaton, the leaves of the state's steps at letters for which the guard
/// serves, each with such a letter.
#[derive(Drop)]
pub(crate) struct Meetings {
    pub pairs: KeyList<(Node, u32)>,
    /// What was found for each pair.
    pub found: Vec<Vec<(u64, u64)>>,
}

impl Meetings {
    /// No pairs.
    pub(crate) fn new(alloc: Global) -> Self
        ensures pairs { result.pairs ≡ [] }
        ensures found { result.found.items ≡ [] }
    {
        Meetings {
            pairs: KeyList::new(alloc),
            found: Vec::new(alloc),
        }
    }

    /// What was found for a pair, if it was added. Fails if out of memory.
    pub(crate) fn get(
        &self,
        alloc: Global,
        guard: Node,
        own: u32,
    ) -> Result<Option<Vec<(u64, u64)>>, AllocError>
        ensures { IfOk result (λ kept. IfSome kept (λ found. HasFound self.now guard own found.items)) }
    {
        let Some(place) = self.pairs.find((guard, own)) else {
            return Ok(None);
        };
        if place >= self.found.len() {
            return Ok(None);
        }
        let copy = copy_of(alloc, &self.found[place])?;
        Ok(Some(copy))
    }

    /// Adds what was found for a pair, if it is new. Fails if out of memory.
    pub(crate) fn add(
        &mut self,
        guard: Node,
        own: u32,
        found: Vec<(u64, u64)>,
    ) -> Result<(), AllocError>
        ensures { (few : ℕ) (places : List ℕ) (a : AutomatonData) (guards : Table) →
            AreMeetings few places a guards self.old → IsNode guards guard →
            AreMet few places a own guards guard found.items →
            OnOk result (AreMeetings few places a guards self.new) }
    {
        let place = self.pairs.place_of((guard, own))?;
        if place == self.found.len() {
            self.found.push(found)?;
        }
        Ok(())
    }
}

pub(crate) fn copy_of(alloc: Global, list: &[(u64, u64)]) -> Result<Vec<(u64, u64)>, AllocError>
    ensures { IfOk result (λ copy. copy.items ≡ list.now) }
{
    let mut copy = Vec::new(alloc);
    copy.extend_from_slice(list)?;
    Ok(copy)
}
