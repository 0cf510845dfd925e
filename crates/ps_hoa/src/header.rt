//! The content of a header.

ghost use Rattle.std.specs.Prelude.{◌≡◌, length};
ghost use Rattle.ps_hoa.specs.Grammar.Header.{names_of, no_items, header_data};
ghost use Rattle.ps_hoa.specs.Grammar.Body.{body_scope, sets_of};

pub mod flaws;
pub mod indices;
pub mod items;
pub mod names;
pub mod new_names;
pub mod propositions;
pub mod skipped;

use crate::condition::Cond;
use crate::header::indices::Indices;
use crate::header::names::{Names, Scope};
use crate::header::propositions::Propositions;
use ps_label::Label;
use std::alloc::Global;

/// The most states that a text may declare. Without `States:`, every state must be less than this.
pub(crate) const STATE_LIMIT: u32 = 65_535;

#[derive(Drop)]
pub(crate) struct Acceptance {
    pub(crate) sets: u32,
    pub(crate) condition: Cond,
}

/// What the items of a header give; a field is `None` if its item has not occurred.
#[derive(Drop)]
pub(crate) struct Header<'a> {
    pub(crate) states: Option<u32>,
    pub(crate) start: Option<u32>,
    pub(crate) names: Option<Propositions>,
    pub(crate) controllable: Option<Indices>,
    pub(crate) alias_names: Names<'a>,
    pub(crate) aliases: Vec<Label>,
    pub(crate) acceptance: Option<Acceptance>,
}

impl<'a> Header<'a> {
    pub(crate) fn new(alloc: Global) -> Self
        ensures { header_data result ≡ no_items }
    {
        Header {
            states: None,
            start: None,
            names: None,
            controllable: None,
            alias_names: Names::new(alloc),
            aliases: Vec::new(alloc),
            acceptance: None,
        }
    }

    /// The number of propositions, which is 0 without `AP:`.
    pub(crate) fn propositions(&self) -> usize
        ensures { result ≡ length (names_of (header_data self.now)) }
    {
        match &self.names {
            None => 0,
            Some(names) => names.len(),
        }
    }

    /// The number of acceptance sets, which is 0 without `Acceptance:`.
    pub(crate) fn sets(&self) -> u32
        ensures { result ≡ sets_of (header_data self.now) }
    {
        match &self.acceptance {
            None => 0,
            Some(acceptance) => acceptance.sets,
        }
    }

    /// What a label of the body may use.
    pub(crate) fn scope(&self) -> Scope<'_, 'a>
        ensures { result ≡ body_scope (header_data self.now) }
    {
        Scope {
            aliases: &self.alias_names,
            propositions: Some(self.propositions()),
        }
    }
}
