//! The line that reports a fault.

ghost use Rattle.std.specs.Prelude.{Some};
ghost use Rattle.ps_program.specs.Faults.{fault_text, ids_text, place_text};

use crate::fault::{FaultLine, Place};
use std::fmt;

/// Numbers, each after a space.
#[derive(Clone, Copy)]
struct Ids<'a>(&'a [u64]);

impl fmt::Display for Ids<'_> {
    ghost output = { λ ids. Some (ids_text ids.0.now) };

    fn fmt<W: fmt::Write>(&self, f: &mut fmt::Formatter<W>) -> fmt::Result {
        for id in self.0 {
            write!(f, " {id}")?;
        }
        Ok(())
    }
}

/// After a space, or nothing if there is no place.
impl fmt::Display for Place {
    ghost output = { λ place. Some (place_text place) };

    fn fmt<W: fmt::Write>(&self, f: &mut fmt::Formatter<W>) -> fmt::Result {
        match self {
            Place::Nowhere => Ok(()),
            Place::Byte(offset) => write!(f, " at {offset}"),
            Place::Edges {
                state,
                first,
                second,
            } => write!(f, " state {state} edges {first} {second}"),
            Place::Cycle(ids) => {
                let ids = Ids(ids.as_slice());
                write!(f, "{ids}")
            }
            Place::Move {
                vertex,
                choice: Some(choice),
            } => write!(f, " {vertex} {choice}"),
            Place::Move {
                vertex,
                choice: None,
            } => write!(f, " {vertex} -"),
            Place::Edge { vertex, successor } => write!(f, " {vertex} {successor}"),
            Place::Count {
                vertex,
                successor,
                priority,
            } => write!(f, " {vertex} {successor} {priority}"),
        }
    }
}

/// Without a newline.
impl fmt::Display for FaultLine {
    ghost output = { λ line. Some (fault_text line) };

    fn fmt<W: fmt::Write>(&self, f: &mut fmt::Formatter<W>) -> fmt::Result {
        let FaultLine {
            number,
            name,
            place,
        } = self;
        write!(f, "fault {number} {name}{place}")
    }
}
