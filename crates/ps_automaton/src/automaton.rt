//! Automata whose steps are in decision diagrams.

ghost use Rattle.std.specs.Prelude.{◌≡◌, ◌+◌, ◌^◌, ◌<◌, ◌≤◌, ◌↔◌, All, IfErr, IfOk, IsTrue, OnOk, Some, length, map};
ghost use Rattle.ps_diagram.specs.Table.{IsNode};
ghost use Rattle.ps_hoa.specs.Files.{FileData};
ghost use Rattle.ps_hoa.specs.Memory.{bytes_of};
ghost use Rattle.ps_hoa.specs.Sound.{AreBelow, AreNames};
ghost use Rattle.ps_automaton.specs.Acceptance.{IsAccepted};
ghost use Rattle.ps_automaton.specs.Answers.{IsAdmitted, IsRefused};
ghost use Rattle.ps_automaton.specs.Automata.{IsBuiltFrom, IsWhole, auto_of, node_of, pair_of, step_of};
ghost use Rattle.ps_automaton.specs.Autos.{greatest_along, greatest_of_laps, state_after, state_behind};
ghost use Rattle.ps_automaton.specs.Chains.{Chain, chain_of};
ghost use Rattle.ps_automaton.specs.Inner.Drafts.{IsDraft};
ghost use Rattle.ps_automaton.specs.Inner.Returning.{Returns};

use crate::chain::{chain_of, is_complemented};
use crate::draft::{Draft, drafted};
use crate::fault::AutomatonFault;
use crate::levels::Levels;
use crate::numbers::table_of;
use crate::pairs::Pairs;
use crate::step::Step;
use ps_diagram::{Node, Store};
use ps_hoa::HoaFile;
use std::alloc::{AllocError, Global};
use std::marker::Model;

/// A total, deterministic automaton with a priority on each edge. The sink's number is the count of states. Each leaf
/// of the diagrams is the index of a pair of a state and a priority; different leaves stand for different pairs.
#[derive(Drop)]
pub struct Automaton {
    alloc: Global,
    names: Vec<Vec<u8>>,
    controllable: Vec<u32>,
    states: u32,
    start: u32,
    store: Store,
    nodes: Vec<Node>,
    steps: Vec<Step>,
}

impl Model for Automaton {
    ghost use Rattle.std.specs.Prelude.{map};
    ghost use Rattle.ps_hoa.specs.Memory.{bytes_of};
    ghost use Rattle.ps_automaton.specs.Automata.{AutomatonData, IsWhole};

    ghost Value = { AutomatonData };

    ghost view = { λ a. record {
      names = map bytes_of a.names.items;
      controllable = a.controllable.items;
      states = a.states;
      start = a.start;
      store = a.store;
      nodes = a.nodes.items;
      steps = a.steps.items;
    } };

    ghost invariant = { λ a. IsWhole (record {
      names = map bytes_of a.names.items;
      controllable = a.controllable.items;
      states = a.states;
      start = a.start;
      store = a.store;
      nodes = a.nodes.items;
      steps = a.steps.items;
    }) };
}

impl Automaton {
    /// The deterministic automaton of an HOA file. Bit p of a letter is the truth of proposition p.
    ///
    /// # Errors
    ///
    /// Fails if the acceptance condition contains a complemented set, or else is not a chain, or else if two edges of a
    /// state are taken at a common letter, but differ in their targets or sets; also if memory runs out.
    pub fn build(alloc: Global, file: &HoaFile) -> Result<Automaton, AutomatonFault>
        ensures built { IfOk result (λ automaton. (chain : Chain) × IsBuiltFrom file.now chain automaton) }
        ensures admitted { OnOk result (IsAdmitted file.now) }
        ensures refused { IfErr result (IsRefused file.now) }
    {
        let draft = draft_of(alloc, file)?;
        Ok(Automaton::from_draft(alloc, file, draft)?)
    }

    fn from_draft(alloc: Global, file: &HoaFile, draft: Draft) -> Result<Automaton, AllocError>
        requires { (chain : Chain) × (chain_of file.now.condition ≡ Some chain) ×
            IsDraft file.now chain draft.pairs.steps draft.pairs.store draft.nodes.items }
        ensures { IfOk result (λ automaton. (chain : Chain) × IsBuiltFrom file.now chain automaton) }
    {
        let names = copied(alloc, file.names())?;
        let controllable = file.controllable().to_vec(alloc)?;
        let Draft { pairs, nodes } = draft;
        let Pairs { store, steps, .. } = pairs;
        let steps = steps.into_list();
        Ok(Automaton {
            alloc,
            names,
            controllable,
            states: file.states(),
            start: file.start(),
            store,
            nodes,
            steps,
        })
    }

    /// The names of the propositions, at most 64: different, non-empty texts without control bytes.
    pub fn names(&self) -> &[Vec<u8>]
        ensures names { map bytes_of result.now ≡ self.now.names }
        ensures few { length self.now.names ≤ 64 }
        ensures sound { AreNames self.now.names }
    {
        self.names.as_slice()
    }

    /// The controllable propositions, each once.
    pub fn controllable(&self) -> &[u32]
        ensures controllable { result.now ≡ self.now.controllable }
        ensures well_formed { AreBelow (length self.now.names) self.now.controllable }
    {
        self.controllable.as_slice()
    }

    /// The number of states, not counting the sink.
    pub fn states(&self) -> u32
        ensures states { result ≡ self.now.states }
        ensures whole { IsWhole self.now }
    {
        self.states
    }

    /// The parts fit: the names differ, and each letter leads from each state to a step. The prover learns it here.
    pub fn parts_fit(&self)
        ensures { IsWhole self.now }
    {
        self.states();
    }

    /// The start state.
    pub fn start(&self) -> u32
        ensures start { result ≡ self.now.start }
        ensures state { result < self.now.states }
    {
        self.start
    }

    /// The store of the diagrams.
    pub fn store(&self) -> &Store
        ensures store { result.now ≡ self.now.store }
        ensures propositions { result.now.propositions ≡ length self.now.names }
        ensures whole { IsWhole self.now }
    {
        &self.store
    }

    /// The diagram of the steps of a state, or of the sink. Its leaf at a letter is the index of a step for `pair`.
    pub fn node(&self, state: u32) -> Node
        requires { state ≤ self.now.states }
        ensures node { result ≡ node_of self.now state }
        ensures held { IsNode self.now.store result }
    {
        self.nodes[state as usize]
    }

    /// The step whose index is a leaf.
    pub fn pair(&self, leaf: u64) -> Step
        requires { leaf < length self.now.steps }
        ensures pair { result ≡ pair_of self.now leaf }
        ensures within { result.state ≤ self.now.states }
    {
        self.steps[leaf as usize]
    }

    /// The step from a state, or from the sink, at a letter.
    pub fn step(&self, state: u32, letter: u64) -> Step
        requires { state ≤ self.now.states }
        ensures step { result ≡ step_of self.now state letter }
        ensures within { result.state ≤ self.now.states }
    {
        match self.store.eval(self.nodes[state as usize], letter) {
            Some(leaf) => self.steps[leaf as usize],
            None => unreachable!(),
        }
    }

    /// Whether the automaton accepts a stem and a lap that repeats for ever. Fails if memory runs out.
    pub fn accepts(&self, stem: &[u64], lap: &[u64]) -> Result<bool, AllocError>
        requires some { 0 < length lap.now }
        requires stem { All (λ letter. letter < 2 ^ length self.now.names) stem.now }
        requires lap { All (λ letter. letter < 2 ^ length self.now.names) lap.now }
        ensures { IfOk result (λ accepted. (file : FileData) (chain : Chain) → IsBuiltFrom file chain self.now →
            (IsTrue accepted ↔ IsAccepted file stem.now lap.now)) }
    {
        let first = self.read(self.start(), stem).state;
        let orbit = self.returning(first, lap)?;
        Ok(self.greatest_of_laps(orbit.state, lap, orbit.laps) % 2 == 0)
    }

    /// The state after the letters, and the greatest priority on the way.
    fn read(&self, state: u32, letters: &[u64]) -> Step
        requires { state ≤ self.now.states }
        ensures state { result.state ≡ state_behind (auto_of self.now) state letters.now }
        ensures greatest { result.priority ≡ greatest_along (auto_of self.now) state letters.now }
        ensures within { result.state ≤ self.now.states }
    {
        let mut reached = state;
        let mut greatest = 0;
        for letter in letters {
            let step = self.step(reached, *letter);
            reached = step.state;
            greatest = step.priority.max(greatest);
        }
        Step {
            state: reached,
            priority: greatest,
        }
    }

    /// A state that is reached by reading `lap` zero or more times, and how many further laps lead back to it.
    fn returning(&self, first: u32, lap: &[u64]) -> Result<Orbit, AllocError>
        requires { first ≤ self.now.states }
        ensures returns { IfOk result (λ orbit. Returns (auto_of self.now) first lap.now orbit.state orbit.laps) }
        ensures within { IfOk result (λ orbit. orbit.state ≤ self.now.states) }
    {
        let mut seen = vec![in self.alloc; 0usize; self.states as usize + 1]?;
        let mut state = first;
        let mut laps = 0;
        while seen[state as usize] == 0 {
            laps += 1;
            seen[state as usize] = laps;
            state = self.read(state, lap).state;
        }
        Ok(Orbit {
            state,
            laps: laps + 1 - seen[state as usize],
        })
    }

    /// The greatest priority of the edges taken in `laps` laps.
    fn greatest_of_laps(&self, state: u32, lap: &[u64], laps: usize) -> u64
        requires { state ≤ self.now.states }
        ensures { result ≡ greatest_of_laps (auto_of self.now) state lap.now laps }
    {
        let mut reached = state;
        let mut greatest = 0;
        for _round in 0..laps {
            let step = self.read(reached, lap);
            reached = step.state;
            greatest = greatest.max(step.priority);
        }
        greatest
    }
}

/// The diagrams of a file's automaton, or the first fault for which it has none.
fn draft_of(alloc: Global, file: &HoaFile) -> Result<Draft, AutomatonFault>
    ensures draft { IfOk result (λ draft. (chain : Chain) × (chain_of file.now.condition ≡ Some chain) ×
        IsDraft file.now chain draft.pairs.steps draft.pairs.store draft.nodes.items) }
    ensures admitted { OnOk result (IsAdmitted file.now) }
    ensures refused { IfErr result (IsRefused file.now) }
{
    if is_complemented(file.condition()) {
        return Err(AutomatonFault::ComplementedSet);
    }
    let Some(chain) = chain_of(alloc, file.condition())? else {
        return Err(AutomatonFault::NonParity);
    };
    let numbers = table_of(&chain);
    drafted(alloc, file, &Levels { chain, numbers })
}

fn copied(alloc: Global, names: &[Vec<u8>]) -> Result<Vec<Vec<u8>>, AllocError>
    ensures { IfOk result (λ copy. map bytes_of copy.items ≡ map bytes_of names.now) }
{
    let mut copy = Vec::new(alloc);
    for name in names {
        copy.push(name.clone()?)?;
    }
    Ok(copy)
}

/// A state, and the number of laps that lead from it back to itself.
#[derive(Clone, Copy)]
struct Orbit {
    state: u32,
    laps: usize,
}
