//! The search for a smaller circuit.

ghost use Rattle.std.specs.Prelude.{◌≤◌, IfErr, IfOk, IfSome, length};
ghost use Rattle.ps_shrink.specs.Inner.Assembled.{HasNamesOf};
ghost use Rattle.ps_shrink.specs.Reductions.{IsReductionBy, IsSmallerBy};

use crate::judging::{Alphabet, Judge, wins};
use crate::needed::pruned;
use crate::rebuilding::{circuit_of, redrawn};
use crate::reduction::Reduction;
use crate::size::Size;
use crate::sketch::Sketch;
use crate::sweeping::swept;
use crate::trials::Trials;
use crate::walk::Walk;
use ps_circuit::{Circuit, EncodeFault};
use ps_product::ProductFault;
use ps_verify::Judgement;
use std::alloc::{AllocError, Global};

/// Decides whether a circuit wins, as the judge does. If so, the result wins too, with the same inputs and outputs, at
/// most as many latches and at most as many gates; at most `steps` changes are tried, and fewer if there are many
/// gates. If not, the result is a stimulus on which it loses. Fails if the judge does, or if memory runs out.
pub fn shrunk_by<J: Judge>(
    alloc: Global,
    circuit: Circuit,
    judge: &J,
    alphabet: Alphabet,
    steps: u32,
) -> Result<Reduction, ProductFault>
    requires { J.may_judge judge.now }
    ensures reduced { IfOk result (IsReductionBy (J.wins judge.now) (J.loses judge.now) circuit) }
    ensures refused { IfErr result (J.refuses judge.now circuit) }
{
    match judge.judge(alloc, &circuit)? {
        Judgement::Wins => {
            let small = smaller(alloc, judge, alphabet, circuit, steps)?;
            Ok(Reduction::Wins(small))
        }
        Judgement::Loses(stimulus) => Ok(Reduction::Loses(stimulus)),
    }
}

/// How often equal signals are merged before single changes are tried.
const SWEEPS: usize = 8;

/// The sweeps that are left, the position in the order of changes, and the stimuli on which circuits lost.
#[derive(Drop)]
struct Search {
    sweeps: usize,
    walk: Walk,
    trials: Trials,
}

/// A winning circuit that is not larger. At most `steps` changes are tried.
fn smaller<J: Judge>(
    alloc: Global,
    judge: &J,
    alphabet: Alphabet,
    circuit: Circuit,
    steps: u32,
) -> Result<Circuit, AllocError>
    requires judge { J.may_judge judge.now }
    requires wins { J.wins judge.now circuit }
    ensures { IfOk result (IsSmallerBy (J.wins judge.now) circuit) }
{
    let most = Size::of(&circuit);
    let mut search = Search {
        sweeps: SWEEPS,
        walk: Walk::new(),
        trials: Trials::new(alloc, alphabet, &circuit)?,
    };
    let mut sketch = Sketch::of(alloc, &circuit)?;
    let mut best = circuit;
    let mut spent = 0;
    for _ in 0..steps {
        let size = Size::of(&best);
        if size.cost() == 0 || spent >= steps as usize {
            break;
        }
        spent = size.steps().saturating_add(spent);
        if let Some(found) = step(alloc, judge, most, &mut search, &best, &sketch)? {
            sketch = Sketch::of(alloc, &found)?;
            best = found;
        }
    }
    Ok(best)
}

/// Tries the next change, and returns the circuit that takes the place of `best`.
fn step<J: Judge>(
    alloc: Global,
    judge: &J,
    most: Size,
    search: &mut Search,
    best: &Circuit,
    sketch: &Sketch,
) -> Result<Option<Circuit>, AllocError>
    requires { J.may_judge judge.now }
    ensures names { IfOk result (λ found. IfSome found (HasNamesOf best.now)) }
    ensures latches { IfOk result (λ found. IfSome found (λ c. length c.latches ≤ most.latches)) }
    ensures gates { IfOk result (λ found. IfSome found (λ c. length c.gates ≤ most.gates)) }
    ensures wins { IfOk result (λ found. IfSome found (J.wins judge.now)) }
{
    let old = Size::of(best);
    let Some(candidate) = candidate(alloc, judge, search, best, sketch)? else {
        return Ok(None);
    };
    let size = Size::of(&candidate);
    if !size.is_within(most) || size.cost() > search.walk.most(old.cost()) {
        return Ok(None);
    }
    if !wins(alloc, judge, &mut search.trials, &candidate)? {
        return Ok(None);
    }
    search.walk.took(old.cost(), size.cost());
    Ok(Some(candidate))
}

/// The circuit after the next change, unless it costs too much or loses on a stimulus.
fn candidate<J: Judge>(
    alloc: Global,
    judge: &J,
    search: &mut Search,
    best: &Circuit,
    sketch: &Sketch,
) -> Result<Option<Circuit>, AllocError>
    requires { J.may_judge judge.now }
    ensures { IfOk result (λ found. IfSome found (HasNamesOf best.now)) }
{
    let Some(drawn) = promising(alloc, judge, search, sketch)? else {
        return Ok(None);
    };
    match circuit_of(alloc, best, &drawn) {
        Ok(circuit) => Ok(Some(circuit)),
        Err(EncodeFault::CircuitTooLarge) => Ok(None),
        Err(EncodeFault::OutOfMemory) => Err(AllocError),
    }
}

/// The same as a sketch.
fn promising<J: Judge>(
    alloc: Global,
    judge: &J,
    search: &mut Search,
    sketch: &Sketch,
) -> Result<Option<Sketch>, AllocError>
    requires { J.may_judge judge.now }
{
    let most = search.walk.most(sketch.size().cost());
    let Some(drawn) = next(alloc, search, sketch)? else {
        return Ok(None);
    };
    if drawn.size().cost() > most || drawn.is_same(sketch) {
        return Ok(None);
    }
    if search.trials.refute(alloc, judge, &drawn)? {
        return Ok(None);
    }
    Ok(Some(drawn))
}

/// The sketch after the next change.
fn next(alloc: Global, search: &mut Search, sketch: &Sketch) -> Result<Option<Sketch>, AllocError> {
    match changed(alloc, search, sketch) {
        Ok(Some(changed)) => Ok(Some(pruned(alloc, &changed)?)),
        Ok(None) | Err(EncodeFault::CircuitTooLarge) => Ok(None),
        Err(EncodeFault::OutOfMemory) => Err(AllocError),
    }
}

/// The same, with what no output needs.
fn changed(
    alloc: Global,
    search: &mut Search,
    sketch: &Sketch,
) -> Result<Option<Sketch>, EncodeFault> {
    if search.sweeps > 0 {
        search.sweeps -= 1;
        return Ok(Some(swept(alloc, sketch, search.trials.stimuli())?));
    }
    match search.walk.next(sketch) {
        Some(change) => Ok(Some(redrawn(alloc, sketch, change)?)),
        None => Ok(None),
    }
}
