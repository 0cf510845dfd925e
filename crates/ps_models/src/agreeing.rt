//! Compares an automaton with a formula.

ghost use Rattle.std.specs.Prelude.{◌^◌, IfErr, IfNone, IfOk, IfSome, MatchOption, cond, true};
ghost use Rattle.ps_automaton.specs.Automata.{IsBuiltFrom, auto_of};
ghost use Rattle.ps_automaton.specs.Chains.{Chain};
ghost use Rattle.ps_fairness.specs.Marks.{IsFairCycle};
ghost use Rattle.ps_formula.specs.Formulas.{formula_at, not_of};
ghost use Rattle.ps_hoa.specs.Files.{FileData};
ghost use Rattle.ps_tableau_product.specs.JointGraphs.{IsJointOf, capped_graph, marks_at};
ghost use Rattle.ps_tableau_product.specs.Joints.{read_by};
ghost use Rattle.ps_models.specs.Agreements.{ArePropositionsOf, IsAgreementOf, IsAgreementRefusal};
ghost use Rattle.ps_models.specs.Inner.Comparing.{IsComparison, ArePlaces, HasNoCycle, IsHalfTold, IsLassoAt};
ghost use Rattle.ps_models.specs.Inner.Comparing.{IsLassoIf, IsLassoTold};
ghost use Rattle.ps_models.specs.Sentences.{named_formula};

use crate::agreement::{Agreement, AgreementFault, Lasso};
use crate::sentence::Sentence;
use ps_automaton::Automaton;
use ps_fairness::{Edge, fair_cycle, walk_to};
use ps_simulate::{is_in_list, proposition_of};
use ps_tableau::Tableau;
use ps_tableau_product::{Capped, JointGraph, JointPlan};
use std::alloc::{AllocError, Global};

/// Decides whether the automaton accepts exactly the lassos that satisfy the formula. If not, the result is a lasso on
/// which they differ, and says in which way. The automaton reads each letter by names: its propositions are some of the
/// formula's, in any order, and it passes over the bits of the others.
///
/// # Errors
///
/// Fails with [`AgreementFault::Symbols`] if some proposition of the automaton is none of the formula's, or is
/// controllable there alone or here alone. Fails also if memory runs out.
pub fn agreed(
    alloc: Global,
    automaton: &Automaton,
    sentence: Sentence,
) -> Result<Agreement, AgreementFault>
    ensures agreed { IfOk result (λ agreement. (file : FileData) (chain : Chain) →
        IsBuiltFrom file chain automaton.now → IsAgreementOf file (named_formula sentence.entry) agreement) }
    ensures refused { IfErr result (IsAgreementRefusal automaton.now.names automaton.now.controllable
        (named_formula sentence.entry)) }
{
    let Some(places) = places_of(alloc, automaton, sentence)? else {
        return Err(AgreementFault::Symbols);
    };
    let plan = JointPlan {
        alloc,
        automaton,
        count: sentence.names.len() as u32,
        places: &places,
    };
    let agreement = compared(plan, sentence)?;
    Ok(agreement)
}

/// The number that each proposition of the automaton has in the formula; `None` if some proposition is none of the
/// formula's, or not of the same player. Fails if out of memory.
fn places_of(
    alloc: Global,
    automaton: &Automaton,
    sentence: Sentence,
) -> Result<Option<Vec<u32>>, AllocError>
    ensures some { IfOk result (λ found. IfSome found (λ places. ArePlaces automaton.now.names
        automaton.now.controllable (named_formula sentence.entry) places.items)) }
    ensures none { IfOk result (λ found. IfNone found (¬ ArePropositionsOf automaton.now.names
        automaton.now.controllable (named_formula sentence.entry))) }
{
    let own = automaton.controllable();
    let mut places = Vec::new(alloc);
    for (k, name) in automaton.names().iter().enumerate() {
        let wanted = is_in_list(own, k);
        let Some(place) = proposition_of(sentence.names, sentence.controllable, wanted, name) else {
            return Ok(None);
        };
        places.push(place as u32)?;
    }
    Ok(Some(places))
}

/// Whether the automaton and the formula agree, or a lasso on which they differ. Fails if out of memory.
fn compared(plan: JointPlan, sentence: Sentence) -> Result<Agreement, AllocError>
    requires { IsComparison plan sentence }
    ensures { IfOk result (λ agreement. (file : FileData) (chain : Chain) →
        IsBuiltFrom file chain plan.entry.automaton.now →
        IsAgreementOf file (named_formula sentence.entry) agreement) }
{
    match difference(plan, sentence, true)? {
        Some(lasso) => Ok(Agreement::Accepts(lasso)),
        None => rest_compared(plan, sentence),
    }
}

/// The result of `compared`, if each lasso that the automaton accepts satisfies the formula.
fn rest_compared(plan: JointPlan, sentence: Sentence) -> Result<Agreement, AllocError>
    requires { IsComparison plan sentence }
    ensures { IfOk result (λ agreement. (file : FileData) (chain : Chain) →
        IsBuiltFrom file chain plan.entry.automaton.now →
        IsHalfTold file (named_formula sentence.entry) true None →
        IsAgreementOf file (named_formula sentence.entry) agreement) }
{
    match difference(plan, sentence, false)? {
        Some(lasso) => Ok(Agreement::Rejects(lasso)),
        None => Ok(Agreement::Agrees),
    }
}

/// If `accepts` is true, a lasso that the automaton accepts although it violates the formula; otherwise one that it
/// rejects although it satisfies the formula. Fails if out of memory.
fn difference(
    plan: JointPlan,
    sentence: Sentence,
    accepts: bool,
) -> Result<Option<Lasso>, AllocError>
    requires { IsComparison plan sentence }
    ensures { IfOk result (λ told. (file : FileData) (chain : Chain) →
        IsBuiltFrom file chain plan.entry.automaton.now →
        IsHalfTold file (named_formula sentence.entry) accepts told) }
{
    let graph = product(plan, sentence, accepts)?;
    lasso_of(plan.alloc, &graph, accepts)
}

/// The product of the automaton and the tableau of the formula, or of its negation. Fails if out of memory.
fn product(plan: JointPlan, sentence: Sentence, negated: bool) -> Result<JointGraph, AllocError>
    ensures { IfOk result (IsJointOf (auto_of plan.entry.automaton.now) (read_by plan.entry.places.now)
        (2 ^ plan.entry.count) (cond negated
        (not_of (formula_at sentence.entry.formulas.now sentence.entry.root))
        (formula_at sentence.entry.formulas.now sentence.entry.root))) }
{
    let tableau = Tableau::new(plan.alloc, sentence.formulas, sentence.root, negated)?;
    plan.product(tableau)
}

/// A lasso of the product on which each until is fulfilled, and whose greatest repeated priority is even, or odd. Fails
/// if out of memory.
fn lasso_of(alloc: Global, graph: &JointGraph, even: bool) -> Result<Option<Lasso>, AllocError>
    ensures { IfOk result (IsLassoTold graph.now even) }
{
    let priorities = graph.priorities(alloc)?;
    for priority in priorities.as_slice() {
        let found = lasso_if(alloc, graph, *priority, even)?;
        if found.is_some() {
            return Ok(found);
        }
    }
    Ok(None)
}

/// The result of `lasso_at`, or none if the priority is odd and an even one is wanted, or the other way round. Fails if
/// out of memory.
fn lasso_if(
    alloc: Global,
    graph: &JointGraph,
    priority: u64,
    even: bool,
) -> Result<Option<Lasso>, AllocError>
    ensures { IfOk result (IsLassoIf graph.now even priority) }
{
    let is_even = priority % 2 == 0;
    if is_even != even {
        return Ok(None);
    }
    lasso_at(alloc, graph, priority)
}

/// A lasso of the product on which each until is fulfilled, and whose greatest repeated priority is the given one.
/// Fails if out of memory.
fn lasso_at(alloc: Global, graph: &JointGraph, priority: u64) -> Result<Option<Lasso>, AllocError>
    ensures { IfOk result (λ found. MatchOption found (HasNoCycle graph.now priority)
        (IsLassoAt graph.now priority)) }
{
    let capped = Capped { graph, priority };
    let Some(cycle) = fair_cycle(alloc, &capped)? else {
        return Ok(None);
    };
    let lasso = lasso_along(alloc, capped, &cycle)?;
    Ok(Some(lasso))
}

/// The letters on a way from the first vertex to a cycle, and along the cycle. Fails if out of memory.
fn lasso_along(alloc: Global, capped: Capped, cycle: &[Edge]) -> Result<Lasso, AllocError>
    requires { IsFairCycle (capped_graph capped.graph.now capped.priority) (marks_at capped.graph.now capped.priority)
        cycle.now }
    ensures { IfOk result (IsLassoAt capped.entry.graph.now capped.entry.priority) }
{
    let graph = capped.graph;
    graph.parts_fit();
    let Some(walk) = walk_to(alloc, graph, 0, cycle[0].vertex)? else {
        unreachable!()
    };
    let stem = graph.letters(alloc, &walk)?;
    let lap = graph.letters(alloc, cycle)?;
    Ok(Lasso { stem, lap })
}
