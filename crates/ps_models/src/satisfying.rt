//! Judges a circuit by a formula.

ghost use Rattle.std.specs.Prelude.{◌≡◌, IfErr, IfOk, cond, map};
ghost use Rattle.ps_fairness.specs.Marks.{IsFairCycle};
ghost use Rattle.ps_formula.specs.Formulas.{Formula, formula_at, not_of};
ghost use Rattle.ps_hoa.specs.Memory.{bytes_of};
ghost use Rattle.ps_product.specs.ProductFaults.{IsRefusalFor};
ghost use Rattle.ps_product.specs.Roles.{AreRoles};
ghost use Rattle.ps_simulate.specs.Symbols.{HasSymbols};
ghost use Rattle.ps_traces.specs.Shapes.{IsInTimeWhereReached};
ghost use Rattle.ps_machine.specs.declared.key.Order.{Order};
ghost use Rattle.ps_tableau_product.specs.Graphs.{IsModelGraph, graph_of, marks_of};
ghost use Rattle.ps_tableau_product.specs.Plans.{scene_of};
ghost use Rattle.ps_tableau_product.specs.Products.{opposed};
ghost use Rattle.ps_models.specs.Inner.Judging.{IsRefutation, IsTold};
ghost use Rattle.ps_models.specs.Judgements.{IsJudgementFor};
ghost use Rattle.ps_models.specs.Sentences.{named_formula};

use crate::by_sentences::verdict_by_sentences;
use crate::laws::fair_cycle_decides;
use crate::sentence::Sentence;
use crate::trial::Trial;
use ps_circuit::Circuit;
use ps_cone::reduced;
use ps_fairness::{Edge, fair_cycle, walk_to};
use ps_machine::Order;
use ps_product::{ProductFault, Roles, roles_for};
use ps_simulate::{Role, Stimulus, circuit_has_one_values};
use ps_tableau::Tableau;
use ps_tableau_product::{ModelGraph, Plan, stimulus_along};
use ps_timing::in_time;
use ps_verify::Judgement;
use std::alloc::{AllocError, Global};

/// Decides whether the circuit wins: each lasso trace of a controller satisfies the formula, or no lasso trace of an
/// environment does. If the circuit loses, the result is a counterexample: a stimulus on which the controller's trace
/// violates the formula, or the environment's trace satisfies it. Latches and gates on which no output depends are left
/// out first. A controller is judged by one sentence of the formula after another.
///
/// # Errors
///
/// Fails with [`ProductFault::Symbols`] if the names of the circuit's inputs and outputs are not those of its role's
/// propositions. Fails with [`ProductFault::Timing`] if these names are right and the circuit's player moves first, but
/// some output depends on an input, at some latch values that a trace reaches. Fails also if memory runs out.
pub fn satisfied(
    alloc: Global,
    circuit: &Circuit,
    sentence: Sentence,
    order: Order,
    role: Role,
) -> Result<Judgement, ProductFault>
    ensures judged { IfOk result (IsJudgementFor order role (named_formula sentence.entry) circuit.now) }
    ensures refused { IfErr result (IsRefusalFor order role (map bytes_of sentence.entry.names.now)
        sentence.entry.controllable.now circuit.now) }
{
    satisfied_by_core(alloc, circuit, sentence, order, role, &[])
}

/// Decides whether the circuit wins, as [`satisfied`] does, but judges an environment first by a *core*, of sentences
/// that together none of its lasso traces may satisfy. The core names them by their places in the list that
/// [`parted`](ps_sentences::parted) makes of the formula; places past its end are passed over. If some trace satisfies
/// the core, the sentences that it violates join one by one. The result is right by the whole formula whatever the core
/// is. If the core names no sentence, an environment is judged by the whole formula at once; for a controller, the core
/// is not looked at.
///
/// # Errors
///
/// Fails as [`satisfied`] does.
pub fn satisfied_by_core(
    alloc: Global,
    circuit: &Circuit,
    sentence: Sentence,
    order: Order,
    role: Role,
    core: &[u32],
) -> Result<Judgement, ProductFault>
    ensures judged { IfOk result (IsJudgementFor order role (named_formula sentence.entry) circuit.now) }
    ensures refused { IfErr result (IsRefusalFor order role (map bytes_of sentence.entry.names.now)
        sentence.entry.controllable.now circuit.now) }
{
    circuit_has_one_values();
    circuit.parts_fit();
    let part = reduced(alloc, circuit)?;
    satisfied_by_all(alloc, &part, sentence, order, role, core)
}

/// The judgement on a circuit, all of whose latches an output depends on.
fn satisfied_by_all(
    alloc: Global,
    circuit: &Circuit,
    sentence: Sentence,
    order: Order,
    role: Role,
    core: &[u32],
) -> Result<Judgement, ProductFault>
    ensures judged { IfOk result (IsJudgementFor order role (named_formula sentence.entry) circuit.now) }
    ensures refused { IfErr result (IsRefusalFor order role (map bytes_of sentence.entry.names.now)
        sentence.entry.controllable.now circuit.now) }
{
    circuit_has_one_values();
    circuit.parts_fit();
    let names = sentence.names;
    let Some(roles) = roles_for(alloc, circuit, names, sentence.controllable, role)? else {
        return Err(ProductFault::Symbols);
    };
    if !in_time(alloc, circuit, order, role)? {
        return Err(ProductFault::Timing);
    }
    let trial = Trial {
        alloc,
        circuit,
        names,
        controllable: sentence.controllable,
        roles: &roles,
        role,
    };
    let judgement = verdict_by_sentences(trial, sentence.formulas, sentence.root, core)?;
    Ok(judgement)
}

/// The judgement on a circuit that has the inputs and outputs of its role. Fails if out of memory.
pub(crate) fn judged(
    alloc: Global,
    circuit: &Circuit,
    sentence: Sentence,
    roles: &Roles,
    role: Role,
) -> Result<Judgement, AllocError>
    requires roles { AreRoles (map bytes_of sentence.names.now) circuit.now roles.now }
    requires symbols { HasSymbols role (map bytes_of sentence.names.now) sentence.controllable.now circuit.now }
    ensures { IfOk result (λ judgement. (order : Order) → IsInTimeWhereReached order role circuit.now →
        IsJudgementFor order role (named_formula sentence.entry) circuit.now judgement) }
{
    fair_cycle_decides();
    circuit.parts_fit();
    let plan = Plan {
        alloc,
        circuit,
        names: sentence.names,
        roles,
    };
    let graph = product(plan, sentence, role)?;
    told(alloc, &graph)
}

/// The product of the circuit and the tableau of the formula that a counterexample satisfies. Fails if out of memory.
fn product<'a>(plan: Plan<'a>, sentence: Sentence, role: Role) -> Result<ModelGraph<'a>, AllocError>
    ensures { IfOk result (IsModelGraph (scene_of plan.entry).names plan.entry.circuit.now
        (opposed role (formula_at sentence.entry.formulas.now sentence.entry.root))) }
{
    let negated = opposes(role);
    let tableau = Tableau::new(plan.alloc, sentence.formulas, sentence.root, negated)?;
    plan.product(tableau)
}

/// Whether a counterexample satisfies the formula's negation.
fn opposes(role: Role) -> bool
    ensures { (f : Formula) → opposed role f ≡ cond result (not_of f) f }
{
    match role {
        Role::Controller => true,
        Role::Environment => false,
    }
}

/// Whether the product has no fair cycle; if it has one, the stimulus that the circuit reads on the way there and along
/// it. Fails if out of memory.
fn told(alloc: Global, graph: &ModelGraph) -> Result<Judgement, AllocError>
    ensures { IfOk result (IsTold graph.now) }
{
    let Some(cycle) = fair_cycle(alloc, graph)? else {
        return Ok(Judgement::Wins);
    };
    let stimulus = refutation(alloc, graph, &cycle)?;
    Ok(Judgement::Loses(stimulus))
}

/// The stimulus that the circuit reads on a way from the first vertex to a fair cycle, and along the cycle. Fails if
/// out of memory.
fn refutation(alloc: Global, graph: &ModelGraph, cycle: &[Edge]) -> Result<Stimulus, AllocError>
    requires { IsFairCycle (graph_of graph.now) (marks_of graph.now) cycle.now }
    ensures { IfOk result (IsRefutation graph.now) }
{
    graph.parts_fit();
    let Some(stem) = walk_to(alloc, graph, 0, cycle[0].vertex)? else {
        unreachable!()
    };
    stimulus_along(alloc, graph, &stem, cycle)
}
