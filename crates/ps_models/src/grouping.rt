//! Sentences that are worth judging together: nothing that is proved depends on the choice.
//!
//! Together are sentences with the same antecedents whose consequents read the same latches, so that one product serves
//! them all; have the same outermost operator, so that the tableau of their conjunction is small; and are refuted alike,
//! after finitely many steps or only in the limit.

use crate::by_groups::Group;
use crate::trial::Trial;
use ps_circuit::{Circuit, Latch};
use ps_cone::reduced_to;
use ps_formula::Node;
use ps_sentences::{Parting, Sentence};
use std::alloc::{AllocError, Global};

/// A sentence, by its place, with its antecedents and a number that it has in common with those that it is judged with.
#[derive(Clone, Copy, PartialEq, Eq, PartialOrd, Ord)]
struct Member {
    list: u32,
    key: u64,
    place: u32,
}

/// What is seen of a formula.
#[derive(Clone, Copy, Default)]
struct Looks {
    /// The propositions that it mentions.
    letter: u64,
    /// It has an until, or a finally, that is not negated.
    eventual: bool,
    /// Its negation has one.
    negation_eventual: bool,
}

/// Groups of at least two sentences.
pub(crate) fn groups_of(trial: Trial, parting: &Parting) -> Result<Vec<Group>, AllocError> {
    let members = members_of(trial, parting)?;
    let mut groups = Vec::new(trial.alloc);
    let mut start = 0;
    for last in 0..members.len() {
        if last + 1 == members.len() || !are_alike(members[last], members[last + 1]) {
            add_group(&mut groups, trial.alloc, &members[start..last + 1])?;
            start = last + 1;
        }
    }
    Ok(groups)
}

fn are_alike(first: Member, second: Member) -> bool {
    first.list == second.list && first.key == second.key
}

/// Adds a group if it has at least two members.
fn add_group(groups: &mut Vec<Group>, alloc: Global, members: &[Member]) -> Result<(), AllocError> {
    if members.len() < 2 {
        return Ok(());
    }
    let places = members.iter().map(|member| member.place).collect(alloc)?;
    groups.push(Group {
        list: members[0].list,
        places,
    })?;
    Ok(())
}

/// All sentences, those that are judged together beside one another.
fn members_of(trial: Trial, parting: &Parting) -> Result<Vec<Member>, AllocError> {
    let nodes = parting.table.as_slice();
    let looks = looks_of(trial.alloc, nodes)?;
    let latches = letters_of_latches(trial)?;
    let mut members = Vec::new(trial.alloc);
    for (place, sentence) in parting.sentences.iter().enumerate() {
        let Ok(place) = u32::try_from(place) else {
            break;
        };
        let key = key_of(nodes, &looks, &latches, *sentence);
        members.push(Member {
            list: sentence.antecedents,
            key,
            place,
        })?;
    }
    members.sort_unstable();
    Ok(members)
}

fn key_of(nodes: &[Node], looks: &[Looks], latches: &[u64], sentence: Sentence) -> u64 {
    let index = sentence.consequent as usize;
    let seen = looks.get(index).copied().unwrap_or_default();
    let outermost = match nodes.get(index) {
        Some(Node::Globally(_)) => 1,
        Some(Node::Next(_)) => 2,
        _ => 3,
    };
    let kind = 2 * outermost + u64::from(seen.eventual);
    latches
        .iter()
        .fold(kind, |key, letter| mixed(key, letter & seen.letter != 0))
}

fn mixed(key: u64, bit: bool) -> u64 {
    key.wrapping_mul(0x9e37_79b9_7f4a_7c15)
        .wrapping_add(1 + u64::from(bit))
}

/// The different letters of latches: the propositions of the outputs that depend on a latch.
fn letters_of_latches(trial: Trial) -> Result<Vec<u64>, AllocError> {
    let latches = trial.circuit.latches();
    let mut letters = vec![in trial.alloc; 0; latches.len()]?;
    for (number, proposition) in trial.roles.outputs.iter().enumerate() {
        let part = cone_of_output(trial.alloc, trial.circuit, number)?;
        let bit = 1u64.checked_shl(*proposition).unwrap_or(0);
        add_bit(&mut letters, latches, part.latches(), bit);
    }
    letters.sort_unstable();
    letters.dedup();
    Ok(letters)
}

/// The part of the circuit on which one output depends.
fn cone_of_output(alloc: Global, circuit: &Circuit, number: usize) -> Result<Circuit, AllocError> {
    let count = circuit.outputs().len();
    let mut kept = Vec::new(alloc);
    for output in 0..count {
        kept.push(output == number)?;
    }
    reduced_to(alloc, circuit, &kept)
}

/// Adds a bit to the letter of each latch that a part of the circuit has; their order is the same.
fn add_bit(letters: &mut [u64], latches: &[Latch], part: &[Latch], bit: u64) {
    let mut place = 0;
    for (letter, latch) in letters.iter_mut().zip(latches) {
        if place < part.len() && part[place] == *latch {
            *letter |= bit;
            place += 1;
        }
    }
}

/// What is seen of each formula of a table.
fn looks_of(alloc: Global, nodes: &[Node]) -> Result<Vec<Looks>, AllocError> {
    let mut looks = Vec::new(alloc);
    for node in nodes {
        let seen = seen_of(&looks, *node);
        looks.push(seen)?;
    }
    Ok(looks)
}

/// What is seen of a node, by what is seen of those before it.
fn seen_of(looks: &[Looks], node: Node) -> Looks {
    let at = |index: u32| looks.get(index as usize).copied().unwrap_or_default();
    match node {
        Node::Constant(_) => Looks::default(),
        Node::Proposition(p) => Looks {
            letter: 1u64.checked_shl(p).unwrap_or(0),
            eventual: false,
            negation_eventual: false,
        },
        Node::Not(f) => at(f).negated(),
        Node::Next(f) => at(f),
        Node::And(f, g) | Node::Or(f, g) => at(f).beside(at(g)),
        Node::Implies(f, g) => at(f).negated().beside(at(g)),
        Node::Iff(f, g) => {
            let both = at(f).beside(at(g));
            both.beside(both.negated())
        }
        Node::Finally(f) => at(f).awaited(),
        Node::Until(f, g) => at(f).beside(at(g)).awaited(),
        Node::Globally(f) => at(f).kept(),
        Node::Release(f, g) | Node::WeakUntil(f, g) => at(f).beside(at(g)).kept(),
    }
}

impl Looks {
    fn negated(self) -> Looks {
        Looks {
            letter: self.letter,
            eventual: self.negation_eventual,
            negation_eventual: self.eventual,
        }
    }

    fn beside(self, other: Looks) -> Looks {
        Looks {
            letter: self.letter | other.letter,
            eventual: self.eventual || other.eventual,
            negation_eventual: self.negation_eventual || other.negation_eventual,
        }
    }

    fn awaited(self) -> Looks {
        Looks {
            letter: self.letter,
            eventual: true,
            negation_eventual: self.negation_eventual,
        }
    }

    fn kept(self) -> Looks {
        Looks {
            letter: self.letter,
            eventual: self.eventual,
            negation_eventual: true,
        }
    }
}
