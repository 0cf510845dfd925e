//! Joins the edges of a state into one decision diagram.

ghost use Rattle.std.specs.Prelude.{◌≡◌, ◌+◌, ◌<◌, IfErr, IfOk, OnOk, length};
ghost use Rattle.ps_diagram.specs.Table.{IsNode, Keeps};
ghost use Rattle.ps_hoa.specs.Views.{row_data};
ghost use Rattle.ps_automaton.specs.Inner.Drafts.{IsJoining, IsReady, IsRowFault, IsUnion, Joins};

use crate::fault::AutomatonFault;
use crate::guards::Guards;
use crate::places::Places;
use crate::taken::{first_clash, marked};
use crate::targets::target_of;
use ps_diagram::{Node, OverlayError, Store};
use std::alloc::Global;

/// The joined edges of a state: the leaf at a letter is the index of the target of its edge.
#[derive(Drop)]
pub(crate) struct Union {
    pub node: Node,
    /// The targets, whose indices are the leaves.
    pub targets: Places,
}

pub(crate) fn joined(
    alloc: Global,
    store: &mut Store,
    guards: &Guards,
) -> Result<Union, AutomatonFault>
    requires ready { IsReady store.old guards.now }
    ensures keeps { OnOk result (Keeps store.old store.new) }
    ensures union { IfOk result (λ union. IsUnion guards.now.file.now (row_data guards.now.row.now)
        (length guards.now.row.now.edges.items) union.targets store.new union.node) }
    ensures refused { IfErr result (IsRowFault guards.now.file.now (row_data guards.now.row.now)) }
{
    let mut union = Union {
        node: store.none()?,
        targets: Places::new(alloc),
    };
    add_all(store, guards, &mut union)?;
    Ok(union)
}

fn add_all(store: &mut Store, guards: &Guards, union: &mut Union) -> Result<(), AutomatonFault>
    requires { IsJoining guards.now 0 store.old union.old }
    ensures { Joins guards.now (length guards.now.row.now.edges.items) store.old store.new union.new result }
{
    for place in 0..guards.row.edges.len() {
        add(store, guards, place, union)?;
    }
    Ok(())
}

/// Joins the edge at the index `place` to the diagram of those before it.
fn add(
    store: &mut Store,
    guards: &Guards,
    place: usize,
    union: &mut Union,
) -> Result<(), AutomatonFault>
    requires within { place < length guards.now.row.now.edges.items }
    requires joining { IsJoining guards.now place store.old union.old }
    ensures { Joins guards.now (place + 1) store.old store.new union.new result }
{
    let edge = &guards.row.edges[place];
    let target = union.targets.place_of(target_of(guards.row, edge))?;
    let letters = marked(store, guards, edge, target as u64)?;
    match store.overlay(union.node, letters) {
        Ok(node) => {
            union.node = node;
            Ok(())
        }
        Err(OverlayError::Clash { .. }) => Err(AutomatonFault::Nondeterministic {
            state: guards.row.state,
            first: first_clash(store, guards, place)?,
            second: place,
        }),
        Err(OverlayError::OutOfMemory) => Err(AutomatonFault::OutOfMemory),
    }
}
