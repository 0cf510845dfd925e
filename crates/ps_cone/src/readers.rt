//! Latches and gates (the *readers*), as gates.

ghost use Rattle.std.specs.Prelude.{◌≡◌, IfOk};
ghost use Rattle.ps_cone.specs.Cones.{reader_of, readers};

use ps_circuit::{Circuit, Gate, Latch};
use std::alloc::{AllocError, Global};

/// The latches, then the gates, each with the literals from which its value comes: of a latch, the next literal.
pub(crate) fn readers_of(alloc: Global, circuit: &Circuit) -> Result<Vec<Gate>, AllocError>
    ensures { IfOk result (λ all. all.items ≡ readers circuit.now) }
{
    let latches = circuit.latches().iter().map(|latch| reader_of(*latch));
    latches
        .chain(circuit.gates().iter().copied())
        .collect(alloc)
}

fn reader_of(latch: Latch) -> Gate
    ensures { result ≡ reader_of latch }
{
    Gate {
        literal: latch.literal,
        first: latch.next,
        second: latch.next,
    }
}
