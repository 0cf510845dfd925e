//! The gates that a step needs.

ghost use Rattle.std.specs.Prelude.{◌<◌, length, All, IfOk};
ghost use Rattle.ps_simulate.specs.Inner.AddedNeeds.{AddsNeeds};
ghost use Rattle.ps_simulate.specs.NeededGates.{AreNeeded, IsPlanOfNeeded, IsScheduled, NeedsWhatItReads, NeedsWire};
ghost use Rattle.ps_simulate.specs.Plans.{IsPlan, IsRowInTable};
ghost use Rattle.ps_simulate.specs.declared.plan.Plan.{Plan};

use crate::plan::{Plan, Row, Wire};
use ps_circuit::Circuit;
use std::alloc::{AllocError, Global};

/// The plan of a circuit without the gates that no output and no latch needs. Fails if out of memory.
pub fn plan_of_needed(alloc: Global, circuit: &Circuit) -> Result<Plan, AllocError>
    ensures { IfOk result (λ cut. (whole : Plan) × IsPlan circuit.now whole × IsPlanOfNeeded whole cut) }
{
    let mut plan = Plan::new(alloc, circuit)?;
    let needed = needed_places(alloc, &plan)?;
    plan.rows
        .retain(|row| *needed.get(row.target as usize).unwrap_or(&false));
    Ok(plan)
}

fn needed_places(alloc: Global, plan: &Plan) -> Result<Vec<bool>, AllocError>
    requires rows { All (IsRowInTable plan.now.size) plan.now.rows.items }
    requires outputs { All (λ w. w.place < plan.now.size) plan.now.outputs.items }
    requires nexts { All (λ w. w.place < plan.now.size) plan.now.nexts.items }
    requires scheduled { IsScheduled plan.now.rows.items }
    ensures { IfOk result (λ needed. AreNeeded plan.now needed.items) }
{
    let mut needed = vec![in alloc; false; plan.size]?;
    need_each(&plan.outputs, &mut needed);
    need_each(&plan.nexts, &mut needed);
    need_what_is_read(&plan.rows, &mut needed);
    Ok(needed)
}

fn need_each(wires: &[Wire], needed: &mut [bool])
    requires within { All (λ w. w.place < length needed.old) wires.now }
    ensures { AddsNeeds NeedsWire needed.old needed.new wires.now }
{
    for wire in wires {
        needed[wire.place as usize] = true;
    }
}

/// Records what the needed rows read, from the last row to the first.
fn need_what_is_read(rows: &[Row], needed: &mut [bool])
    requires within { All (IsRowInTable (length needed.old)) rows.now }
    requires scheduled { IsScheduled rows.now }
    ensures { AddsNeeds NeedsWhatItReads needed.old needed.new rows.now }
{
    for number in (0..rows.len()).rev() {
        let row = rows[number];
        if needed[row.target as usize] {
            needed[row.first.place as usize] = true;
            needed[row.second.place as usize] = true;
        }
    }
}
