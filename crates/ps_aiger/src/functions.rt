//! The bits of a machine's step as literals.

ghost use Rattle.std.specs.Prelude.{◌≡◌, ◌+◌, ◌^◌, ◌<◌, ◌≤◌, IfOk, IfSome, IfNone, false, length, slice_get};
ghost use Rattle.ps_hoa.specs.Files.{is_among};
ghost use Rattle.ps_diagram.specs.Table.{IsNode};
ghost use Rattle.ps_aiger.specs.Inner.Functions.{AreInputLiterals, IsInputLiteral, IsWanted, KnowsMade, MakesLiteral};
ghost use Rattle.ps_aiger.specs.Inner.Functions.{behaviour_of, code_wanted, literal_at, node_made, store_of};

use crate::node_literals::NodeLiterals;
use crate::stored::{Stored, Wanted};
use ps_circuit::{Builder, EncodeFault, Literal};
use ps_diagram::{Node, View};
use std::alloc::{AllocError, Global};

/// What a bit is built from.
#[derive(Drop)]
pub(crate) struct Plan<'a> {
    pub machine: &'a Stored<'a>,
    /// For each proposition, the literal of its input, if it is read.
    pub inputs: &'a [Option<Literal>],
    pub wanted: Wanted,
}

/// These literals; input k is variable k + 1.
pub(crate) fn input_literals(
    alloc: Global,
    machine: &Stored<'_>,
) -> Result<Vec<Option<Literal>>, AllocError>
    ensures { IfOk result (λ literals. AreInputLiterals machine.now literals.items) }
{
    let mut literals = Vec::new(alloc);
    for proposition in 0..machine.store().propositions() {
        literals.push(input_literal(machine.inputs(), proposition))?;
    }
    Ok(literals)
}

/// The same for one proposition.
fn input_literal(inputs: &[u32], proposition: u32) -> Option<Literal>
    requires { length inputs.now ≤ 64 }
    ensures { IsInputLiteral inputs.now proposition result }
{
    match place_among(inputs, proposition) {
        Some(place) => Some(Literal::positive(place as u32 + 1)),
        None => None,
    }
}

/// The wanted bit of the machine's step, by the memory state's code in the latches, whose variables follow those of the
/// inputs, and by the letter on the inputs. Clears `known` first.
pub(crate) fn literal_of(
    builder: &mut Builder,
    plan: &Plan<'_>,
    known: &mut NodeLiterals,
    latches: u32,
) -> Result<Literal, EncodeFault>
    requires few { latches ≤ 64 }
    requires given { builder.old.given ≡ length (behaviour_of plan.now.machine.now).inputs + latches }
    requires inputs { AreInputLiterals plan.now.machine.now plan.now.inputs.now }
    requires wanted { IsWanted (behaviour_of plan.now.machine.now).outputs plan.now.wanted }
    ensures { MakesLiteral builder.old builder.new result (code_wanted plan.now.machine.now plan.now.wanted latches 0
        builder.old) }
{
    known.clear();
    over_latches(builder, plan, known, latches, 0)
}

/// The same for memory states whose codes are `code` plus a number less than 2^`latches`: the lowest `latches` latches
/// decide, and bits of `code` stand for the others. A code of no memory state stands for memory state 0.
fn over_latches(
    builder: &mut Builder,
    plan: &Plan<'_>,
    known: &mut NodeLiterals,
    latches: u32,
    code: usize,
) -> Result<Literal, EncodeFault>
    requires fits { code + 2 ^ latches ≤ 2 ^ 64 }
    requires given { length (behaviour_of plan.now.machine.now).inputs + latches ≤ builder.old.given }
    requires inputs { AreInputLiterals plan.now.machine.now plan.now.inputs.now }
    requires wanted { IsWanted (behaviour_of plan.now.machine.now).outputs plan.now.wanted }
    requires known_made { KnowsMade plan.now.machine.now plan.now.wanted builder.old (literal_at known.old) }
    ensures makes { MakesLiteral builder.old builder.new result (code_wanted plan.now.machine.now plan.now.wanted
        latches code builder.old) }
    ensures known_made { IfOk result (λ literal. KnowsMade plan.now.machine.now plan.now.wanted builder.new
        (literal_at known.new)) }
{
    if code >= plan.machine.memories() {
        return over_inputs(builder, plan, known, plan.machine.node(0, plan.wanted));
    }
    if latches == 0 {
        return over_inputs(builder, plan, known, plan.machine.node(code, plan.wanted));
    }
    let latch = latches - 1;
    let where_true = over_latches(builder, plan, known, latch, code + (1 << latch))?;
    let where_false = over_latches(builder, plan, known, latch, code)?;
    let variable = plan.machine.inputs().len() as u32 + 1 + latch;
    builder.mux(Literal::positive(variable), where_true, where_false)
}

/// The same from one memory state, by its diagram; `known` has the literals of nodes so far.
fn over_inputs(
    builder: &mut Builder,
    plan: &Plan<'_>,
    known: &mut NodeLiterals,
    node: Node,
) -> Result<Literal, EncodeFault>
    requires held { IsNode (store_of plan.now.machine.now) node }
    requires given { length (behaviour_of plan.now.machine.now).inputs ≤ builder.old.given }
    requires inputs { AreInputLiterals plan.now.machine.now plan.now.inputs.now }
    requires known_made { KnowsMade plan.now.machine.now plan.now.wanted builder.old (literal_at known.old) }
    ensures makes { MakesLiteral builder.old builder.new result (node_made plan.now.machine.now plan.now.wanted node
        builder.old) }
    ensures known_made { IfOk result (λ literal. KnowsMade plan.now.machine.now plan.now.wanted builder.new
        (literal_at known.new)) }
{
    match plan.machine.store().view(node) {
        View::Nothing => Ok(Literal::FALSE),
        View::Leaf(leaf) => Ok(Literal::constant(plan.machine.bit(plan.wanted, leaf))),
        View::Test {
            proposition,
            low,
            high,
        } => {
            let Some(input) = plan.inputs[proposition as usize] else {
                return over_inputs(builder, plan, known, low);
            };
            if let Some(literal) = known.get(node) {
                return Ok(literal);
            }
            let where_true = over_inputs(builder, plan, known, high)?;
            let where_false = over_inputs(builder, plan, known, low)?;
            let literal = builder.mux(input, where_true, where_false)?;
            known.put(node, literal);
            Ok(literal)
        }
    }
}

fn place_among(list: &[u32], proposition: u32) -> Option<usize>
    ensures found { IfSome result (λ place. slice_get list.now place ≡ Some proposition) }
    ensures none { IfNone result (is_among proposition list.now ≡ false) }
{
    for (place, other) in list.iter().enumerate() {
        if *other == proposition {
            return Some(place);
        }
    }
    None
}
