//! The least counts for one priority.

ghost use Rattle.std.specs.Prelude.{◌≡◌, ℕ, ◌<◌, length, nat_lt, IfOk, OnOk, IfNone, IfSome};
ghost use Rattle.std.specs.Bool.{OnFalse, OnTrue};
ghost use Rattle.ps_components.specs.Graphs.{Digraph, Link};
ghost use Rattle.ps_components.specs.ComponentLists.{AreComponents};
ghost use Rattle.ps_measure.specs.Inner.Remaining.{low_graph, low_weight};
ghost use Rattle.ps_measure.specs.Inner.Columns.{AreRoots, IsCounting, IsTurn, IsRaised, IsPassed};
ghost use Rattle.ps_measure.specs.Inner.Columns.{ArePassedFrom, IsLost, AreLeast, value_of};
ghost use Rattle.ps_measure.specs.Inner.Outcomes.{IsClosing};
ghost use Rattle.ps_measure.specs.Inner.Filling.{IsBlank};
ghost use Rattle.ps_measure.specs.Tables.{HasColumn};
ghost use Rattle.ps_measure.specs.Sums.{count_below};

use crate::low::Low;
use crate::table::CountTable;
use ps_components::{Components, Graph};
use ps_game::Width;
use std::alloc::{AllocError, Global};

/// Counts are written by ascending vertex unless fewer than one in `FEW` vertices were visited.
const FEW: usize = 8;

/// The counts for one priority: a value for each strongly connected component that a search of the reversed remaining
/// edges found. It is reused for one priority after another.
#[derive(Drop)]
pub(crate) struct Column {
    components: Components,
    values: Vec<u64>,
}

impl Column {
    pub(crate) fn new(alloc: Global) -> Self {
        Column {
            components: Components::new(alloc),
            values: Vec::new(alloc),
        }
    }

    /// Computes the least counts for the priority of `low`. The count of a component starts at 1 if it has a vertex of
    /// `roots`, else at 0. If no counts keep the rule, returns a link to a vertex of this priority that lies on a
    /// cycle.
    pub(crate) fn work_out<W: Width>(
        &mut self,
        low: &Low<W>,
        roots: &[usize],
    ) -> Result<Option<(usize, usize)>, AllocError>
        requires { AreRoots (low_graph low.now) (low_weight low.now) roots.now }
        ensures components { IfOk result (λ _. AreComponents (low_graph low.now) self.new.components) }
        ensures counts { IfOk result (λ lost. IfNone lost (AreLeast (low_graph low.now) (low_weight low.now)
            (value_of self.new.components self.new.values.items))) }
        ensures lost { IfOk result (λ lost. IfSome lost (λ link. IsClosing (low_graph low.now) (low_weight low.now)
            link.0 link.1)) }
    {
        let _vertices = low.count();
        self.components.renew(low, roots)?;
        self.values.clear();
        self.values.resize(self.components.order().len(), 0)?;
        for root in roots {
            if let Some(number) = self.components.number(*root) {
                self.values[number] = 1;
            }
        }
        Ok(self.settle(low))
    }

    pub(crate) fn count(&self, vertex: usize) -> u64
        requires { vertex < length self.now.components.numbers }
        ensures { result ≡ value_of self.now.components self.now.values.items vertex }
    {
        match self.components.number(vertex) {
            Some(number) if number < self.values.len() => self.values[number],
            _ => 0,
        }
    }

    /// Writes the nonzero counts into the table's rows, at index `place`, and returns their number.
    pub(crate) fn put_into(&self, place: usize, table: &mut CountTable) -> Result<u64, AllocError>
        requires components { (g : Digraph) × AreComponents g self.now.components }
        requires each { length table.old ≡ length self.now.components.numbers }
        requires blank { IsBlank table.old place }
        ensures column { OnOk result
            (HasColumn table.old table.new place (value_of self.now.components self.now.values.items)) }
        ensures raised { IfOk result
            (λ raised. let counts = value_of self.now.components self.now.values.items in
            raised ≡ count_below (λ v. nat_lt 0 (counts v)) (length table.old)) }
    {
        if self.components.order().len() < table.len() / FEW {
            self.put_visited(place, table)
        } else {
            self.put_ascending(place, table)
        }
    }

    /// Like `put_into`, in time proportional to the number of visited vertices.
    fn put_visited(&self, place: usize, table: &mut CountTable) -> Result<u64, AllocError>
        requires components { (g : Digraph) × AreComponents g self.now.components }
        requires each { length table.old ≡ length self.now.components.numbers }
        requires blank { IsBlank table.old place }
        ensures column { OnOk result
            (HasColumn table.old table.new place (value_of self.now.components self.now.values.items)) }
        ensures raised { IfOk result
            (λ raised. let counts = value_of self.now.components self.now.values.items in
            raised ≡ count_below (λ v. nat_lt 0 (counts v)) (length table.old)) }
    {
        let mut raised = 0;
        for &vertex in self.components.order() {
            let count = self.count(vertex);
            if count > 0 {
                table.put(vertex, place, count)?;
                raised += 1;
            }
        }
        Ok(raised)
    }

    /// Like `put_into`, in time proportional to the number of all vertices, which it takes in order, so that a later
    /// pass over the rows finds the counts for this priority next to one another in memory.
    fn put_ascending(&self, place: usize, table: &mut CountTable) -> Result<u64, AllocError>
        requires components { (g : Digraph) × AreComponents g self.now.components }
        requires each { length table.old ≡ length self.now.components.numbers }
        requires blank { IsBlank table.old place }
        ensures column { OnOk result
            (HasColumn table.old table.new place (value_of self.now.components self.now.values.items)) }
        ensures raised { IfOk result
            (λ raised. let counts = value_of self.now.components self.now.values.items in
            raised ≡ count_below (λ v. nat_lt 0 (counts v)) (length table.old)) }
    {
        let mut raised = 0;
        for vertex in 0..table.len() {
            let count = self.count(vertex);
            if count > 0 {
                table.put(vertex, place, count)?;
                raised += 1;
            }
        }
        Ok(raised)
    }

    /// Raises the value of the component of `to` as far as the link from `from` requires. Returns true if the link
    /// stays within a component and leads to a vertex of the priority of `low`.
    fn pass<W: Width>(&mut self, low: &Low<W>, from: usize, number: usize, to: usize) -> bool
        requires turn { IsTurn (low_graph low.now) (low_weight low.now) self.old.components self.old.values.items
            from number }
        requires link { Link (low_graph low.now) from to }
        ensures raised { IsRaised (low_graph low.now) (low_weight low.now) self.old.components self.new.components
            self.old.values.items self.new.values.items number }
        ensures passed { OnFalse result (IsPassed (low_weight low.now) self.new.components
            self.new.values.items from to) }
        ensures lost { OnTrue result (IsLost (low_graph low.now) (low_weight low.now) self.new.components from to) }
    {
        let _vertices = low.count();
        let weight = low.weight(to);
        let before = self.components.number(to).unwrap_or(number);
        if before < number {
            let value = self.values[number] + weight;
            if self.values[before] < value {
                self.values[before] = value;
            }
            false
        } else {
            weight == 1
        }
    }

    /// Raises values as far as the links of `from` require. Stops at a link on a lost cycle, and returns its target.
    fn pass_all<W: Width>(&mut self, low: &Low<W>, from: usize, number: usize) -> Option<usize>
        requires turn { IsTurn (low_graph low.now) (low_weight low.now) self.old.components self.old.values.items
            from number }
        ensures raised { IsRaised (low_graph low.now) (low_weight low.now) self.old.components self.new.components
            self.old.values.items self.new.values.items number }
        ensures passed { IfNone result ((to : ℕ) → Link (low_graph low.now) from to →
            IsPassed (low_weight low.now) self.new.components self.new.values.items from to) }
        ensures lost { IfSome result (IsLost (low_graph low.now) (low_weight low.now) self.new.components from) }
    {
        for place in 0..low.degree(from) {
            if let Some(to) = low.target(from, place) {
                if self.pass(low, from, number, to) {
                    return Some(to);
                }
            }
        }
        None
    }

    /// Raises values as far as all links require, from the last finished vertex to the first. Stops at a link on a lost
    /// cycle, and returns it.
    fn settle<W: Width>(&mut self, low: &Low<W>) -> Option<(usize, usize)>
        requires { IsCounting (low_graph low.now) (low_weight low.now) self.old.components self.old.values.items }
        ensures raised { IsRaised (low_graph low.now) (low_weight low.now) self.old.components self.new.components
            self.old.values.items self.new.values.items (length self.old.components.order) }
        ensures passed { IfNone result (ArePassedFrom (low_graph low.now) (low_weight low.now) self.new.components
            self.new.values.items 0) }
        ensures lost { IfSome result (λ link. IsLost (low_graph low.now) (low_weight low.now) self.new.components
            link.0 link.1) }
    {
        let mut place = self.components.order().len();
        while place > 0 {
            place -= 1;
            let from = self.components.order()[place];
            if let Some(number) = self.components.number(from) {
                if let Some(to) = self.pass_all(low, from, number) {
                    return Some((from, to));
                }
            }
        }
        None
    }
}
