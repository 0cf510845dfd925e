//! The plan of a circuit's gates for 256 runs at once.

ghost use Rattle.std.specs.Prelude.{◌≡◌, ℕ, ◌+◌, ◌^◌, ◌<◌, ◌≤◌, length, map, All, IfOk};
ghost use Rattle.ps_simulate.specs.Inner.Moving.{CanMove, CanMoveRow};
ghost use Rattle.ps_simulate.specs.LanePlans.{AreInOrder, AreKept, AreOnce, IsGateRow, move_row, move_wire, rows_from};
ghost use Rattle.ps_simulate.specs.LanePlans.{wire_in};

use crate::plan::{Plan, Row, Wire};
use ps_circuit::{Circuit, Literal};
use std::alloc::{AllocError, Global};

/// The literals that a gate reads, whose variables are indices into the table of values.
#[derive(Clone, Copy)]
pub struct Operands {
    pub first: Literal,
    pub second: Literal,
}

/// What a step evaluates in 256 runs at once: the gates, the outputs and the latches' next values. The table has the
/// gates' values in the order of evaluation, so that a gate is eight bytes for two literals, and a step writes from
/// front to back: what it reads and writes decides its time, since the table of a large circuit does not fit into the
/// fastest caches.
#[derive(Drop)]
pub struct LanePlan {
    /// The table's length: one entry for each variable, the constant 0 included.
    pub size: usize,
    /// How many values come before the gates': the constant 0, the inputs and the latches.
    pub front: usize,
    /// The gates, in the order of evaluation.
    pub gates: Vec<Operands>,
    pub outputs: Vec<Literal>,
    pub nexts: Vec<Literal>,
}

impl LanePlan {
    ghost use Rattle.std.specs.Prelude.{List};
    ghost use Rattle.ps_simulate.specs.LanePlans.{IsLanePlan};
    ghost use Rattle.ps_simulate.specs.declared.plan.Plan.{Plan};

    /// The plan of a circuit. Fails if out of memory.
    pub fn new(alloc: Global, circuit: &Circuit) -> Result<Self, AllocError>
        ensures { IfOk result (λ p. (plan : Plan) × (places : List ℕ) × IsLanePlan circuit.now plan places p) }
    {
        let gates = circuit.gates();
        let plan = Plan::new(alloc, circuit)?;
        let front = plan.size - gates.len();
        let places = moved_places(alloc, &plan.rows, front, plan.size)?;
        Ok(LanePlan {
            size: plan.size,
            front,
            gates: gates_of(alloc, &places, &plan.rows)?,
            outputs: literals(alloc, &places, &plan.outputs)?,
            nexts: literals(alloc, &places, &plan.nexts)?,
        })
    }
}

/// The new indices: the same below `front`, and then the gates in the order of their rows.
fn moved_places(
    alloc: Global,
    rows: &[Row],
    front: usize,
    size: usize,
) -> Result<Vec<usize>, AllocError>
    requires fit { front + length rows.now ≤ size }
    requires gates { All (IsGateRow front size) rows.now }
    requires once { AreOnce rows.now }
    ensures size { IfOk result (λ places. length places.items ≡ size) }
    ensures kept { IfOk result (λ places. AreKept front places.items) }
    ensures in_order { IfOk result (λ places. AreInOrder front places.items rows.now) }
{
    let mut places: Vec<usize> = (0..size).collect(alloc)?;
    for (number, row) in rows.iter().enumerate() {
        places[row.target as usize] = front + number;
    }
    Ok(places)
}

/// A wire as a literal whose variable is its new index.
fn literal(places: &[usize], wire: Wire) -> Literal
    requires { CanMove places.now wire }
    ensures { wire_in result ≡ move_wire places.now wire }
{
    let literal = Literal::positive(places[wire.place as usize] as u32);
    if wire.is_negated {
        literal.negated()
    } else {
        literal
    }
}

fn literals(alloc: Global, places: &[usize], wires: &[Wire]) -> Result<Vec<Literal>, AllocError>
    requires { All (CanMove places.now) wires.now }
    ensures { IfOk result (λ literals. map wire_in literals.items ≡ map (move_wire places.now) wires.now) }
{
    let mut literals = Vec::new(alloc);
    for &wire in wires {
        literals.push(literal(places, wire))?;
    }
    Ok(literals)
}

/// The rows' operands, with new indices.
fn gates_of(alloc: Global, places: &[usize], rows: &[Row]) -> Result<Vec<Operands>, AllocError>
    requires { All (CanMoveRow places.now) rows.now }
    ensures { IfOk result (λ gates. (front : ℕ) → AreInOrder front places.now rows.now →
        rows_from front gates.items ≡ map (move_row places.now) rows.now) }
{
    let mut gates = Vec::new(alloc);
    for row in rows {
        gates.push(Operands {
            first: literal(places, row.first),
            second: literal(places, row.second),
        })?;
    }
    Ok(gates)
}
