//! Operations on decision diagrams that allocate memory, with ample memory.

use ps_diagram::{OverlayError, Store};
use ps_label::{Label, Labels};
use std::alloc::{AllocError, Global};
use std::test::Fail;

/// The leaves at the letter 0 of three diagrams: `relabel` and `guard` make theirs from the leaf 2, and `fill` from the
/// diagram without leaves.
fn changed(store: &mut Store) -> Result<[Option<u64>; 3], AllocError> {
    let two = store.leaf(2)?;
    let relabelled = store.relabel(two, &[4, 5, 6])?;
    let guarded = store.guard(two, 7)?;
    let none = store.none()?;
    let filled = store.fill(none, 9)?;
    Ok([
        store.eval(relabelled, 0),
        store.eval(guarded, 0),
        store.eval(filled, 0),
    ])
}

/// Whether `overlay` reports a clash of the leaves 4 and 1.
fn clashes(store: &mut Store) -> Result<bool, AllocError> {
    let first = store.leaf(4)?;
    let second = store.leaf(1)?;
    Ok(matches!(
        store.overlay(first, second),
        Err(OverlayError::Clash {
            first: 4,
            second: 1
        })
    ))
}

/// The least letter at which the diagram of a label has the leaf 1.
fn least_letter(alloc: Global, store: &mut Store) -> Result<Option<u64>, AllocError> {
    if store.propositions() != 2 {
        return Ok(None);
    }
    let node = store.of_label(&Labels::new(alloc), &Label::Atom(1))?;
    store.path_to(node, 1)
}

/// What the operations give.
#[derive(Debug, Drop, PartialEq, Eq)]
struct Answered {
    changed: [Option<u64>; 3],
    clashes: bool,
    least_letter: Option<u64>,
}

fn answers_of(alloc: Global, store: &mut Store) -> Result<Answered, AllocError> {
    Ok(Answered {
        changed: changed(store)?,
        clashes: clashes(store)?,
        least_letter: least_letter(alloc, store)?,
    })
}

/// What they give on a new store. If an allocation failed, as with `rt try --test --fail-alloc N`, they are repeated on
/// it.
fn answers(alloc: Global) -> Result<Answered, AllocError> {
    let mut store = Store::new(alloc, 2);
    match answers_of(alloc, &mut store) {
        Ok(answered) => Ok(answered),
        Err(_) => answers_of(alloc, &mut store),
    }
}

#[test]
fn each_call_answers(rt: HostRuntime) -> Result<(), Fail> {
    let wanted = Answered {
        changed: [Some(6), Some(7), Some(9)],
        clashes: true,
        least_letter: Some(2),
    };
    assert_eq!(rt; answers(rt.alloc())?, wanted);
    Ok(())
}
