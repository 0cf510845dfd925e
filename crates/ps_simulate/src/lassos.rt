//! Runs of a circuit on a lasso, until latch values repeat.

ghost use Rattle.std.specs.Prelude.{◌≡◌, ◌+◌, ◌*◌, ◌<◌, ◌≤◌, Bool, List, [], false, length, map, All, IfOk, IfErr};
ghost use Rattle.std.specs.Prelude.{IsTrue, OnOk, vec_len};
ghost use Rattle.ps_circuit.specs.Values.{resets};
ghost use Rattle.ps_hoa.specs.Files.{FileData};
ghost use Rattle.ps_hoa.specs.Memory.{bytes_of};
ghost use Rattle.ps_automaton.specs.Automata.{IsBuiltFrom};
ghost use Rattle.ps_automaton.specs.Chains.{Chain};
ghost use Rattle.ps_simulate.specs.Stimuli.{letters_of};
ghost use Rattle.ps_simulate.specs.Symbols.{AreDistinct};
ghost use Rattle.ps_simulate.specs.Lassos.{IsVerdictOf, IsWordOf};
ghost use Rattle.ps_simulate.specs.LassoFaults.{HasNoLassoFault, HasNoWordFault, IsLassoFault, IsWordFault};
ghost use Rattle.ps_simulate.specs.LassoRuns.{CanRead, CanRun, HavePlaces, IsSeen, RepeatsBy, RunsOn};
ghost use Rattle.ps_simulate.specs.Inner.Namings.{names_of};
ghost use Rattle.ps_simulate.specs.declared.lassos.LassoFault.TheVariants.{OutOfMemory};

use crate::fault::{StimulusCause, StimulusFault};
use crate::naming::Naming;
use crate::role::Role;
use crate::simulator::Simulator;
use crate::words::TraceWord;
use ps_automaton::Automaton;
use ps_circuit::Circuit;
use ps_text::faults::Cause;
use std::alloc::{AllocError, Global};
use std::collections::BTreeMap;
use thiserror::Error;

/// Whether an automaton accepts a trace, and the lengths of its stem and lap.
#[derive(Clone, Copy, Debug, PartialEq, Eq)]
pub struct Verdict {
    pub accepted: bool,
    /// The letters before the first of two readings of the lap that begin with the same latch values.
    pub stem: usize,
    /// The letters between the beginnings of these two.
    pub lap: usize,
}

/// Why a circuit has no word on a stem and a lap, or an automaton no verdict.
#[derive(Clone, Copy, Debug, PartialEq, Eq, Error)]
pub enum LassoFault {
    /// A letter does not have a bit for each input.
    #[error("a letter does not have a bit for each input")]
    Width,
    /// The lap has no letters.
    #[error("the lap is empty")]
    EmptyLap,
    /// Inputs or outputs do not have the names that the role requires: each proposition that it reads or sets, once.
    #[error("the symbols are not the names of the propositions")]
    Symbols,
    /// Out of memory.
    #[error("out of memory")]
    OutOfMemory,
}

impl LassoFault {
    ghost use Rattle.ps_simulate.specs.LassoFaultNames.{fault_number, fault_name};

    /// Its number in psyn's list of faults.
    pub fn number(self) -> u8
        ensures { result ≡ fault_number self }
    {
        match self {
            LassoFault::Width => StimulusCause::Width.number(),
            LassoFault::EmptyLap => 71,
            LassoFault::Symbols => 72,
            LassoFault::OutOfMemory => StimulusFault::OutOfMemory.number(),
        }
    }

    /// Its name there.
    pub fn name(self) -> &'static str
        ensures { result.now ≡ fault_name self }
    {
        match self {
            LassoFault::Width => StimulusCause::Width.name(),
            LassoFault::EmptyLap => "EmptyLap",
            LassoFault::Symbols => "Symbols",
            LassoFault::OutOfMemory => StimulusFault::OutOfMemory.name(),
        }
    }
}

impl From<AllocError> for LassoFault {
    ghost from_gives = { λ _ e. e ≡ OutOfMemory };

    fn from(_error: AllocError) -> Self {
        LassoFault::OutOfMemory
    }
}

/// Whether the automaton accepts the word that `trace_word` gives. Fails with the first of `Width`, `EmptyLap` and
/// `Symbols` that applies, or if out of memory.
pub fn lasso(
    alloc: Global,
    circuit: &Circuit,
    automaton: &Automaton,
    role: Role,
    stem: &[Vec<bool>],
    lap: &[Vec<bool>],
) -> Result<Verdict, LassoFault>
    ensures verdict { IfOk result (λ verdict. (file : FileData) (chain : Chain) → IsBuiltFrom file chain automaton.now →
        IsVerdictOf file circuit.now (letters_of stem.now) (letters_of lap.now) verdict) }
    ensures sound { IfOk result (λ _. HasNoLassoFault role automaton.now circuit.now (letters_of stem.now)
        (letters_of lap.now)) }
    ensures fault { IfErr result (IsLassoFault role automaton.now circuit.now (letters_of stem.now)
        (letters_of lap.now)) }
{
    let names = automaton.names();
    let controllable = automaton.controllable();
    let word = trace_word(alloc, circuit, names, controllable, role, stem, lap)?;
    Ok(Verdict {
        accepted: automaton.accepts(word.stem(), word.lap())?,
        stem: word.stem().len(),
        lap: word.lap().len(),
    })
}

/// The word of a circuit that reads a stem once and a lap again and again: from the first of two readings of the lap
/// that begin with the same latch values, it repeats for ever. Letters that are read have a bit for each input, in the
/// circuit's order; those of the word, a bit for each proposition, the input or output of its name. Fails as `lasso`.
pub fn trace_word(
    alloc: Global,
    circuit: &Circuit,
    names: &[Vec<u8>],
    controllable: &[u32],
    role: Role,
    stem: &[Vec<bool>],
    lap: &[Vec<bool>],
) -> Result<TraceWord, LassoFault>
    requires few { length names.now ≤ 64 }
    requires distinct { AreDistinct (map bytes_of names.now) }
    ensures word { IfOk result (IsWordOf (map bytes_of names.now) circuit.now (letters_of stem.now)
        (letters_of lap.now)) }
    ensures sound { IfOk result (λ _. HasNoWordFault role (map bytes_of names.now) controllable.now circuit.now
        (letters_of stem.now) (letters_of lap.now)) }
    ensures fault { IfErr result (IsWordFault role (map bytes_of names.now) controllable.now circuit.now
        (letters_of stem.now) (letters_of lap.now)) }
{
    let width = circuit.inputs().len();
    if !are_wide(width, stem) || !are_wide(width, lap) {
        return Err(LassoFault::Width);
    }
    if lap.is_empty() {
        return Err(LassoFault::EmptyLap);
    }
    let Some(naming) = Naming::new(alloc, circuit, names, controllable, role)? else {
        return Err(LassoFault::Symbols);
    };
    Ok(word_of(alloc, circuit, &naming, stem, lap)?)
}

/// The word of a circuit whose symbols were matched with the propositions.
fn word_of(
    alloc: Global,
    circuit: &Circuit,
    naming: &Naming,
    stem: &[Vec<bool>],
    lap: &[Vec<bool>],
) -> Result<TraceWord, AllocError>
    requires { CanRun circuit.now naming.now stem.now lap.now }
    ensures { IfOk result (IsWordOf (names_of naming.now) circuit.now (letters_of stem.now) (letters_of lap.now)) }
{
    let mut run = Run::new(alloc, circuit)?;
    let first = run.first_repetition(alloc, naming, stem, lap)?;
    let start = stem.len() + first * lap.len();
    Ok(TraceWord::new(run.letters, start))
}

fn are_wide(width: usize, letters: &[Vec<bool>]) -> bool
    ensures yes { IsTrue result → All (λ letter. length letter ≡ width) (letters_of letters.now) }
    ensures not { result ≡ false → ¬ All (λ letter. length letter ≡ width) (letters_of letters.now) }
{
    for letter in letters {
        if letter.len() != width {
            return false;
        }
    }
    true
}

/// A running circuit, and the letters of its steps.
#[derive(Drop)]
struct Run<'a> {
    simulator: Simulator<'a>,
    outputs: Vec<bool>,
    letters: Vec<u64>,
}

impl<'a> Run<'a> {
    fn new(alloc: Global, circuit: &'a Circuit) -> Result<Run<'a>, AllocError>
        ensures circuit { IfOk result (λ run. run.simulator.circuit ≡ circuit.now) }
        ensures latches { IfOk result (λ run. run.simulator.latches ≡ resets circuit.now) }
        ensures outputs { IfOk result (λ run. vec_len run.outputs ≡ length circuit.now.outputs) }
        ensures letters { IfOk result (λ run. run.letters.items ≡ []) }
    {
        let simulator = Simulator::new(alloc, circuit)?;
        let outputs = vec![in alloc; false; circuit.outputs().len()]?;
        Ok(Run {
            simulator,
            outputs,
            letters: Vec::new(alloc),
        })
    }

    /// Reads on until the lap begins with the latch values of an earlier reading, whose number, from 0, is returned.
    fn first_repetition(
        &mut self,
        alloc: Global,
        naming: &Naming,
        stem: &[Vec<bool>],
        lap: &[Vec<bool>],
    ) -> Result<usize, AllocError>
        requires runs { CanRun self.old.simulator.circuit naming.now stem.now lap.now }
        requires latches { self.old.simulator.latches ≡ resets self.old.simulator.circuit }
        requires outputs { vec_len self.old.outputs ≡ length self.old.simulator.circuit.outputs }
        requires letters { self.old.letters.items ≡ [] }
        ensures { IfOk result (λ first. RepeatsBy (names_of naming.now) self.old.simulator.circuit (letters_of stem.now)
            (letters_of lap.now) first self.new.letters.items) }
    {
        read_word(
            naming,
            &mut self.simulator,
            &mut self.outputs,
            &mut self.letters,
            stem,
        )?;
        let mut seen = BTreeMap::new(alloc);
        'laps: loop {
            if let Some(first) = see(alloc, &mut seen, self.simulator.latches())? {
                return Ok(first);
            }
            read_word(
                naming,
                &mut self.simulator,
                &mut self.outputs,
                &mut self.letters,
                lap,
            )?;
        }
    }
}

/// The index of latch values that were seen before; others are added, in a search tree.
fn see(
    alloc: Global,
    seen: &mut BTreeMap<Vec<bool>, usize>,
    latches: &[bool],
) -> Result<Option<usize>, AllocError>
    ensures { IfOk result (λ place. (old : List (List Bool)) → HavePlaces old seen.old
        → (new : List (List Bool)) × IsSeen old new latches.now place × HavePlaces new seen.new) }
{
    let key = Vec::from_slice(alloc, latches)?;
    if let Some(place) = seen.get(&key).copied() {
        return Ok(Some(place));
    }
    let place = seen.len();
    seen.insert(key, place)?;
    Ok(None)
}

fn read_word(
    naming: &Naming,
    simulator: &mut Simulator,
    outputs: &mut [bool],
    letters: &mut Vec<u64>,
    word: &[Vec<bool>],
) -> Result<(), AllocError>
    requires { CanRead simulator.old.circuit naming.now outputs.old (letters_of word.now) }
    ensures { OnOk result (RunsOn (names_of naming.now) simulator.old simulator.new (letters_of word.now)
        letters.old.items letters.new.items) }
{
    for letter in word {
        simulator.step(letter, outputs);
        letters.push(naming.letter(letter, outputs))?;
    }
    Ok(())
}
