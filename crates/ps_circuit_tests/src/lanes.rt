//! The simulator of many runs, each in a lane of bits, against that of a single run.

use ps_aiger::{Circuit, read};
use ps_simulate::{LaneSimulator, Simulator};
use std::alloc::{AllocError, Global};
use std::test::Fail;

/// The first of three gates reads those that follow. The latch is 1 at first.
const FORWARD: &[u8] = b"aag 5 1 1 3 3\n2\n4 10 1\n4\n10\n1\n10 9 7\n8 5 3\n6 4 2\n";

/// The three outputs of a step, and the latch after it.
type Step = ([bool; 3], bool);

/// The first step of a single run.
fn plain_step(alloc: Global, circuit: &Circuit, input: bool) -> Result<Option<Step>, AllocError> {
    if circuit.inputs().len() != 1 || circuit.outputs().len() != 3 || circuit.latches().len() != 1 {
        return Ok(None);
    }
    let mut simulator = Simulator::new(alloc, circuit)?;
    let mut outputs = [false; 3];
    simulator.step(&[input], &mut outputs);
    Ok(Some((outputs, simulator.latch(0))))
}

/// That of many runs, with the input true in the first lane and false in the last.
fn lane_steps(alloc: Global, circuit: &Circuit) -> Result<[Option<Step>; 2], AllocError> {
    if circuit.inputs().len() != 1 || circuit.outputs().len() != 3 || circuit.latches().len() != 1 {
        return Ok([None; 2]);
    }
    let mut simulator = LaneSimulator::new(alloc, circuit)?;
    let mut outputs = [[0; 4]; 3];
    simulator.step_lanes(&[[1, 0, 0, 0]], &mut outputs);
    let [a, b, c] = outputs;
    let first = [a[0] & 1 == 1, b[0] & 1 == 1, c[0] & 1 == 1];
    let last = [a[3] >> 63 == 1, b[3] >> 63 == 1, c[3] >> 63 == 1];
    Ok([
        Some((first, simulator.latch(0, 0))),
        Some((last, simulator.latch(255, 0))),
    ])
}

type Steps = ([Option<Step>; 2], [Option<Step>; 2]);

/// The first step of a circuit for each input, by both simulators.
fn steps(alloc: Global, circuit: &Circuit) -> Result<Steps, Fail> {
    let plain = [
        plain_step(alloc, circuit, true)?,
        plain_step(alloc, circuit, false)?,
    ];
    Ok((plain, lane_steps(alloc, circuit)?))
}

fn steps_of(alloc: Global, text: &[u8]) -> Result<Steps, Fail> {
    let circuit = read(alloc, text)?;
    steps(alloc, &circuit)
}

#[test]
fn each_lane_is_a_plain_run(rt: HostRuntime) -> Result<(), Fail> {
    let wanted = [
        Some(([true, false, true], false)),
        Some(([true, true, true], true)),
    ];
    assert_eq!(rt; steps_of(rt.alloc(), FORWARD)?, (wanted, wanted));
    Ok(())
}
