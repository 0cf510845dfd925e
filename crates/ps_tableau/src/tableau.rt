//! The tableau of a formula.

ghost use Rattle.std.specs.Prelude.{◌≡◌, ◌↔◌, ◌<◌, Contains, IfOk, IsTrue, cond, length};
ghost use Rattle.ps_formula.specs.Formulas.{formula_at, not_of};
ghost use Rattle.ps_formula.specs.NormalForms.{normal_formula_at};
ghost use Rattle.ps_tableau.specs.Boards.{AreEdgesOf, Grows, IsBoard, IsEdgeOf, IsState};
ghost use Rattle.ps_tableau.specs.Boards.{IsTableauOf, formulas_in};

use crate::board::Board;
use crate::edge::Edge;
use crate::known::Known;
use crate::operators::all_ways;
use crate::set::Set;
use crate::states::edges_from;
use ps_diagram::Store;
use ps_formula::Formulas;
use std::alloc::{AllocError, Global};
use std::marker::Model;

/// Its states are sets of formulas, which are made when they are reached.
#[derive(Debug, Drop)]
pub struct Tableau {
    board: Board,
    /// The covers of each formula that is needed.
    ways: Vec<Vec<Edge>>,
    /// The covers of states whose edges were asked for, and of the sets of their least formulas.
    known: Known,
}

impl Model for Tableau {
    ghost use Rattle.ps_tableau.specs.Boards.{AreKnown, IsRight};
    ghost use Rattle.ps_tableau.specs.declared.board.Board.{Board};

    ghost Value = { Board };

    ghost view = { λ t. t.board };

    ghost invariant = { λ t. IsRight t.board t.ways.items × AreKnown t.board t.known };
}

impl Tableau {
    /// The tableau of a formula of a table, or of its negation. Fails if out of memory.
    pub fn new(
        alloc: Global,
        formulas: &Formulas,
        root: u32,
        negated: bool,
    ) -> Result<Self, AllocError>
        requires { root < length formulas.now }
        ensures { IfOk result (λ tableau. IsTableauOf tableau
            (cond negated (not_of (formula_at formulas.now root)) (formula_at formulas.now root))) }
    {
        let normal = formulas.normal_form(root)?;
        let root = if negated {
            normal.negation
        } else {
            normal.formula
        };
        let mut board = Board::new(alloc, normal.table, root)?;
        let ways = all_ways(&mut board)?;
        Ok(Tableau {
            board,
            ways,
            known: Known::new(alloc),
        })
    }

    /// The state of the formula.
    pub fn initial(&self) -> Set
        ensures value { result ≡ self.now.initial }
        ensures board { IsBoard self.now }
    {
        self.board.parts_fit();
        self.board.initial()
    }

    /// The untils that may be postponed, as indices of formulas.
    pub fn untils(&self) -> &[u32]
        ensures { result.now ≡ self.now.untils.items }
    {
        self.board.untils()
    }

    /// The diagrams of guards.
    pub fn guards(&self) -> &Store
        ensures { result.now ≡ self.now.guards }
    {
        self.board.guards()
    }

    /// The edges from a state. Fails if out of memory.
    pub fn edges(&mut self, state: Set) -> Result<Vec<Edge>, AllocError>
        requires { IsState self.old state }
        ensures grows { Grows self.old self.new }
        ensures edges { IfOk result (λ edges. AreEdgesOf self.new state edges.items) }
    {
        edges_from(&mut self.board, &self.ways, &mut self.known, state)
    }

    /// Whether an edge postpones an until, given by the index of its formula.
    pub fn postpones(&self, edge: Edge, until: u32) -> bool
        requires edge { IsEdgeOf self.now edge }
        requires until { Contains self.now.untils.items until }
        ensures { IsTrue result ↔ Contains (formulas_in self.now edge.postponed)
            (normal_formula_at self.now.formulas until) }
    {
        self.board.parts_fit();
        self.board.sets().contains(edge.postponed, until)
    }
}
