//! The steps of all states of an automaton, stored as decision diagrams.

ghost use Rattle.std.specs.Prelude.{◌≡◌, ℕ, ◌+◌, ◌^◌, ◌<◌, ◌≤◌, List, IfErr, IfOk, IfSome, IsTrue, OnOk, Some, length};
ghost use Rattle.std.specs.Prelude.{◌%◌, All, IfNone, option_map, slice_get, slice_index, unwrap_or};
ghost use Rattle.ps_diagram.specs.Labels.{AreNodesOf};
ghost use Rattle.ps_diagram.specs.Table.{IsNode, Keeps, leaf_of};
ghost use Rattle.ps_hoa.specs.Files.{EdgeData, FileData};
ghost use Rattle.ps_hoa.specs.Sound.{IsSoundFile, IsSoundRow};
ghost use Rattle.ps_hoa.specs.Edges.{row_of};
ghost use Rattle.ps_hoa.specs.Views.{row_data};
ghost use Rattle.ps_automaton.specs.Inner.Cases.{AreProducts};
ghost use Rattle.ps_automaton.specs.Inner.Drafts.{ArePlaces, AreSteps, AreTargets, Extends, Grows};
ghost use Rattle.ps_automaton.specs.Inner.Drafts.{IsByLetters};
ghost use Rattle.ps_automaton.specs.Inner.Drafts.{IsDraft, IsDraftFault, IsLabelNode, IsRowFault, IsRowReady};
ghost use Rattle.ps_automaton.specs.Inner.Drafts.{IsSource, MakesSteps, MayMakeSteps};
ghost use Rattle.ps_automaton.specs.Inner.Drafts.{IsStateFault};
ghost use Rattle.ps_automaton.specs.Inner.Drafts.{IsStepsOf};
ghost use Rattle.ps_automaton.specs.Inner.LetterSets.{AreLetterSets, edge_at, entry_for};
ghost use Rattle.ps_automaton.specs.Inner.Views.{chain_data};
ghost use Rattle.ps_automaton.specs.declared.targets.Target.{Target};

use crate::cases::{cases_of, products_of};
use crate::edge_labels::are_labels_long;
use crate::fault::AutomatonFault;
use crate::guards::Guards;
use crate::letter_rows::{edges_by_letter, leaves_of};
use crate::letter_sets::LetterSets;
use crate::levels::Levels;
use crate::pairs::{Pairs, Source};
use crate::step::Step;
use crate::step_list::StepList;
use crate::targets::{Target, target_of};
use crate::union::{Union, joined};
use ps_diagram::{Node, Product, Store};
use ps_hoa::{Guard, HoaFile, Row};
use std::alloc::{AllocError, Global};

/// The decision diagrams of the states, followed by the diagram of the sink.
#[derive(Drop)]
pub(crate) struct Draft {
    /// The store of the diagrams, and the steps whose indices are the leaves.
    pub pairs: Pairs,
    pub nodes: Vec<Node>,
}

pub(crate) fn drafted(
    alloc: Global,
    file: &HoaFile,
    levels: &Levels,
) -> Result<Draft, AutomatonFault>
    ensures draft { IfOk result (λ draft. IsDraft file.now (chain_data levels.now.chain) draft.pairs.steps
        draft.pairs.store draft.nodes.items) }
    ensures refused { IfErr result (IsDraftFault file.now) }
{
    let mut pairs = opened(alloc, file)?;
    let nodes = nodes_of(&mut pairs, file, levels)?;
    Ok(Draft { pairs, nodes })
}

/// A store without diagrams, and a list of steps that has only the step to the sink.
fn opened(alloc: Global, file: &HoaFile) -> Result<Pairs, AllocError>
    ensures letters { IfOk result (λ pairs. pairs.store.propositions ≡ length file.now.names) }
    ensures steps { IfOk result (λ pairs. AreSteps file.now.states pairs.steps) }
{
    let mut steps = StepList::new(alloc);
    let _ = steps.place_of(Step {
        state: file.states(),
        priority: 1,
    })?;
    Ok(Pairs {
        alloc,
        store: Store::new(alloc, file.names().len() as u32),
        steps,
    })
}

/// The diagrams of all states, and of the sink.
fn nodes_of(pairs: &mut Pairs, file: &HoaFile, levels: &Levels) -> Result<Vec<Node>, AutomatonFault>
    requires letters { pairs.old.store.propositions ≡ length file.now.names }
    requires steps { AreSteps file.now.states pairs.old.steps }
    ensures draft { IfOk result (λ nodes. IsDraft file.now (chain_data levels.now.chain) pairs.new.steps
        pairs.new.store nodes.items) }
    ensures refused { IfErr result (IsDraftFault file.now) }
{
    let aliases = pairs.store.of_aliases(file.aliases())?;
    let sets = LetterSets::of(pairs.alloc, file)?;
    let source = Source {
        file,
        levels,
        aliases: &aliases,
        sets: &sets,
    };
    let mut nodes = nodes_of_states(pairs, &source)?;
    nodes.push(pairs.store.leaf(0)?)?;
    Ok(nodes)
}

fn nodes_of_states(pairs: &mut Pairs, source: &Source) -> Result<Vec<Node>, AutomatonFault>
    requires { IsSource source.now pairs.old }
    ensures letters { OnOk result (pairs.new.store.propositions ≡ length source.now.file.now.names) }
    ensures steps { OnOk result (AreSteps source.now.file.now.states pairs.new.steps) }
    ensures one_each { IfOk result (λ nodes. length nodes.items ≡ source.now.file.now.states) }
    ensures states { IfOk result (λ nodes. (q : ℕ) → q < source.now.file.now.states
        → IsStepsOf source.now.file.now (chain_data source.now.levels.now.chain) q pairs.new.steps pairs.new.store
        (slice_index nodes.items q)) }
    ensures refused { IfErr result (IsDraftFault source.now.file.now) }
{
    let mut nodes = Vec::new(pairs.alloc);
    for state in 0..source.file.states() {
        nodes.push(state_node(pairs, source, state)?)?;
    }
    Ok(nodes)
}

fn state_node(pairs: &mut Pairs, source: &Source, state: u32) -> Result<Node, AutomatonFault>
    requires { IsSource source.now pairs.old }
    ensures grows { OnOk result (Grows source.now.file.now.states pairs.old pairs.new) }
    ensures node { IfOk result (IsStepsOf source.now.file.now (chain_data source.now.levels.now.chain) state
        pairs.new.steps pairs.new.store) }
    ensures refused { IfErr result (IsStateFault source.now.file.now state) }
{
    let Some(row) = source.file.row(state) else {
        return Ok(pairs.store.leaf(0)?);
    };
    row_node(pairs, source, row)
}

/// The diagram of a row's label, if it has one.
fn label_node(store: &mut Store, source: &Source, row: &Row) -> Result<Option<Node>, AllocError>
    requires row { IsSoundRow source.now.file.now (row_data row.now) }
    requires letters { store.old.propositions ≡ length source.now.file.now.names }
    requires aliases { AreNodesOf store.old source.now.file.now.aliases source.now.aliases.now }
    ensures keeps { OnOk result (Keeps store.old store.new) }
    ensures label { IfOk result (IsLabelNode store.new source.now.file.now (row_data row.now).label) }
{
    let Some(label) = &row.label else {
        return Ok(None);
    };
    let node = store.of_label_by(source.aliases, label)?;
    Ok(Some(node))
}

/// The diagram of the steps of the row's state.
fn row_node(pairs: &mut Pairs, source: &Source, row: &Row) -> Result<Node, AutomatonFault>
    requires { IsRowReady source.now (row_data row.now) pairs.old }
    ensures steps { MakesSteps source.now (row_data row.now) pairs.old pairs.new result }
    ensures refused { IfErr result (IsRowFault source.now.file.now (row_data row.now)) }
{
    if is_by_letters(row) {
        return Ok(node_by_letters(pairs, source, row)?);
    }
    if let Some(node) = node_by_cases(pairs, source, row)? {
        return Ok(node);
    }
    if let Some(node) = node_by_sets(pairs, source, row)? {
        return Ok(node);
    }
    node_by_labels(pairs, source, row)
}

/// Whether each edge of a row is taken at a single letter, whose number is the index of the edge.
fn is_by_letters(row: &Row) -> bool
    ensures { IsTrue result → (file : FileData) → IsSoundRow file (row_data row.now) →
        IsByLetters file (row_data row.now) }
{
    match row.edges.first() {
        Some(edge) => matches!(&edge.guard, Guard::Letter(_)),
        None => false,
    }
}

/// The diagram of a row for which `is_by_letters` is true.
fn node_by_letters(pairs: &mut Pairs, source: &Source, row: &Row) -> Result<Node, AllocError>
    requires ready { IsRowReady source.now (row_data row.now) pairs.old }
    requires by_letters { IsByLetters source.now.file.now (row_data row.now) }
    ensures { MakesSteps source.now (row_data row.now) pairs.old pairs.new result }
{
    let places = places_of_edges(pairs.alloc, &mut pairs.steps, source.levels, row)?;
    let node = pairs.store.of_leaves(&places)?;
    Ok(node)
}

/// The diagram of a row whose labels are conjunctions of literals; None for others, or if `Store::of_cases` returns
/// None.
fn node_by_cases(pairs: &mut Pairs, source: &Source, row: &Row) -> Result<Option<Node>, AllocError>
    requires { IsRowReady source.now (row_data row.now) pairs.old }
    ensures { MayMakeSteps source.now (row_data row.now) pairs.old pairs.new result }
{
    let Some(products) = products_of(pairs.alloc, &pairs.store, source.file, row)? else {
        return Ok(None);
    };
    node_of_products(pairs, source, row, &products)
}

/// The diagram of a row, given its labels as products; None if `Store::of_cases` returns None.
fn node_of_products(
    pairs: &mut Pairs,
    source: &Source,
    row: &Row,
    products: &[Product],
) -> Result<Option<Node>, AllocError>
    requires ready { IsRowReady source.now (row_data row.now) pairs.old }
    requires products { AreProducts source.now.file.now (row_data row.now) products.now }
    ensures { MayMakeSteps source.now (row_data row.now) pairs.old pairs.new result }
{
    let targets = targets_of(pairs.alloc, row)?;
    let places = places_of(pairs.alloc, &mut pairs.steps, source.levels, &targets)?;
    let mut cases = cases_of(pairs.alloc, products, &places, &targets)?;
    pairs.store.of_cases(&mut cases, 0)
}

/// The diagram of a row, made letter by letter; None without sets of letters, if the labels are too short for this, or
/// if `edges_by_letter` returns None.
fn node_by_sets(pairs: &mut Pairs, source: &Source, row: &Row) -> Result<Option<Node>, AllocError>
    requires { IsRowReady source.now (row_data row.now) pairs.old }
    ensures { MayMakeSteps source.now (row_data row.now) pairs.old pairs.new result }
{
    let Some(sets) = source.sets else {
        return Ok(None);
    };
    if !is_worth_letters(row, source.file.names().len()) {
        return Ok(None);
    }
    let targets = targets_of(pairs.alloc, row)?;
    let Some(edges) = edges_by_letter(pairs.alloc, sets, source.file, row, &targets)? else {
        return Ok(None);
    };
    let node = node_of_edges(pairs, source.levels, &targets, &edges)?;
    Ok(Some(node))
}

/// Whether joining edges letter by letter takes less time than joining diagrams: there are at most 64 letters, or the
/// labels have at least one literal or operator for each 8 letters.
fn is_worth_letters(row: &Row, propositions: usize) -> bool {
    propositions <= 6 || propositions < 64 && are_labels_long(row, 1 << (propositions - 3))
}

/// The diagram whose leaf at a letter is the index of the step of its edge in `edges`, or 0, the step to the sink.
fn node_of_edges(
    pairs: &mut Pairs,
    levels: &Levels,
    targets: &[Target],
    edges: &[Option<usize>],
) -> Result<Node, AllocError>
    requires firsts { All (λ edge. IfSome edge (λ first. first < length targets.now)) edges.now }
    requires letters { length edges.now ≡ 2 ^ pairs.old.store.propositions }
    ensures keeps { OnOk result (Keeps pairs.old.store pairs.new.store) }
    ensures extends { OnOk result (Extends pairs.old.steps pairs.new.steps) }
    ensures within { OnOk result ((states : ℕ) → ((k : ℕ) (target : Target) →
        slice_get targets.now k ≡ Some target → target.state ≤ states)
        → AreSteps states pairs.old.steps → AreSteps states pairs.new.steps) }
    ensures held { IfOk result (λ node. IsNode pairs.new.store node) }
    ensures leaf { IfOk result (λ node. (places : List ℕ) × ArePlaces (chain_data levels.now.chain) targets.now
        pairs.new.steps places
        × ((letter : ℕ) → leaf_of pairs.new.store node letter ≡ Some
        (entry_for places (edge_at edges.now (letter % 2 ^ pairs.old.store.propositions))))) }
{
    let places = places_of(pairs.alloc, &mut pairs.steps, levels, targets)?;
    let leaves = leaves_of(pairs.alloc, edges, &places)?;
    let node = pairs.store.of_leaves(&leaves)?;
    Ok(node)
}

fn targets_of(alloc: Global, row: &Row) -> Result<Vec<Target>, AllocError>
    requires { (file : FileData) × IsSoundFile file × IsSoundRow file (row_data row.now) }
    ensures { IfOk result (λ targets. AreTargets (row_data row.now) targets.items) }
{
    let mut targets = Vec::with_capacity(alloc, row.edges.len())?;
    for edge in &row.edges {
        targets.push(target_of(row, edge))?;
    }
    Ok(targets)
}

/// The diagram of a row, made by joining the diagrams of its labels.
fn node_by_labels(pairs: &mut Pairs, source: &Source, row: &Row) -> Result<Node, AutomatonFault>
    requires { IsRowReady source.now (row_data row.now) pairs.old }
    ensures steps { MakesSteps source.now (row_data row.now) pairs.old pairs.new result }
    ensures refused { IfErr result (IsRowFault source.now.file.now (row_data row.now)) }
{
    let label = label_node(&mut pairs.store, source, row)?;
    let guards = Guards {
        file: source.file,
        row,
        aliases: source.aliases,
        label,
    };
    let union = joined(pairs.alloc, &mut pairs.store, &guards)?;
    Ok(node_of_union(pairs, source.levels, &union)?)
}

/// The diagram of steps, made from the joined diagram of a state's edges, whose leaves are indices of targets.
fn node_of_union(pairs: &mut Pairs, levels: &Levels, union: &Union) -> Result<Node, AllocError>
    requires held { IsNode pairs.old.store union.now.node }
    requires within { (letter : ℕ) → letter < 2 ^ pairs.old.store.propositions →
        IfSome (leaf_of pairs.old.store union.now.node letter) (λ k. k < length union.now.targets) }
    ensures keeps { OnOk result (Keeps pairs.old.store pairs.new.store) }
    ensures extends { OnOk result (Extends pairs.old.steps pairs.new.steps) }
    ensures within { OnOk result ((states : ℕ) → ((k : ℕ) (target : Target) →
        slice_get union.now.targets k ≡ Some target → target.state ≤ states)
        → AreSteps states pairs.old.steps → AreSteps states pairs.new.steps) }
    ensures held { IfOk result (λ node. IsNode pairs.new.store node) }
    ensures leaf { IfOk result (λ node. (places : List ℕ) × ArePlaces (chain_data levels.now.chain) union.now.targets
        pairs.new.steps places
        × ((letter : ℕ) → leaf_of pairs.new.store node letter ≡ Some
        (unwrap_or (option_map (λ k. slice_index places k) (leaf_of pairs.old.store union.now.node letter)) 0))) }
{
    let places = places_of(pairs.alloc, &mut pairs.steps, levels, union.targets.list())?;
    let named = pairs.store.relabel_or(union.node, &places, 0)?;
    Ok(named)
}

fn places_of(
    alloc: Global,
    steps: &mut StepList,
    levels: &Levels,
    targets: &[Target],
) -> Result<Vec<u64>, AllocError>
    ensures extends { OnOk result (Extends steps.old steps.new) }
    ensures within { OnOk result ((states : ℕ) → ((k : ℕ) (target : Target) → slice_get targets.now k ≡ Some target →
        target.state ≤ states)
        → AreSteps states steps.old → AreSteps states steps.new) }
    ensures places { IfOk result (λ places. ArePlaces (chain_data levels.now.chain) targets.now steps.new
        places.items) }
{
    let mut places = Vec::with_capacity(alloc, targets.len())?;
    for target in targets {
        let place = steps.place_of(levels.step_to(*target))?;
        places.push(place as u64)?;
    }
    Ok(places)
}

/// The indices of the steps of a row's edges. No list of targets is made, since there may be many edges.
fn places_of_edges(
    alloc: Global,
    steps: &mut StepList,
    levels: &Levels,
    row: &Row,
) -> Result<Vec<u64>, AllocError>
    requires { (file : FileData) × IsSoundFile file × IsSoundRow file (row_data row.now) }
    ensures extends { OnOk result (Extends steps.old steps.new) }
    ensures within { OnOk result ((states : ℕ) → ((k : ℕ) (edge : EdgeData) →
        slice_get (row_data row.now).edges k ≡ Some edge → edge.target ≤ states)
        → AreSteps states steps.old → AreSteps states steps.new) }
    ensures places { IfOk result (λ places. (targets : List Target) × AreTargets (row_data row.now) targets
        × ArePlaces (chain_data levels.now.chain) targets steps.new places.items) }
{
    let mut places = Vec::with_capacity(alloc, row.edges.len())?;
    for edge in &row.edges {
        let target = target_of(row, edge);
        let place = steps.place_of(levels.step_to(target))?;
        places.push(place as u64)?;
    }
    Ok(places)
}
