//! The diagrams of labels.

ghost use Rattle.std.specs.Prelude.{◌≡◌, ℕ, ◌<◌, All, Bool, List, IfOk, cond, length};
ghost use Rattle.ps_label.specs.Expression.{AreOverFrom, Expression, IsOver, expression};
ghost use Rattle.ps_label.specs.Truth.{expressions, is_in, label_truth, truth};
ghost use Rattle.ps_diagram.specs.Table.{IsNode, Keeps, MakesDiagram, MakesNode, leaf_of};
ghost use Rattle.ps_diagram.specs.Labels.{AreNodesOf, HaveTruths, leaf_where, one_where};
ghost use Rattle.ps_diagram.specs.Inner.Unions.{IsTruth, first_leaf, is_value, leaves_of};
ghost use Rattle.ps_diagram.specs.Leaves.{opposite};

use crate::store::Store;
use crate::view::Node;
use ps_label::{Label, Labels};
use std::alloc::AllocError;

impl Store {
    /// The diagram with the leaf 1 where the label is true. It makes the diagrams of all aliases: for many labels with
    /// the same aliases, make these once, by `of_aliases`.
    pub fn of_label(&mut self, labels: &Labels, label: &Label) -> Result<Node, AllocError>
        requires aliases { AreOverFrom 0 self.old.propositions (expressions labels.now) }
        requires within { IsOver (length labels.now) self.old.propositions (expression label.now) }
        ensures { MakesDiagram self.old self.new result
            (λ letter. one_where (label_truth (expressions labels.now) letter (expression label.now))) }
    {
        let aliases = self.of_aliases(labels)?;
        self.of_label_by(&aliases, label)
    }

    /// The diagrams of the aliases, in their order.
    pub fn of_aliases(&mut self, labels: &Labels) -> Result<Vec<Node>, AllocError>
        requires aliases { AreOverFrom 0 self.old.propositions (expressions labels.now) }
        ensures keeps { Keeps self.old self.new }
        ensures nodes { IfOk result (λ nodes. AreNodesOf self.new (expressions labels.now) nodes.items) }
    {
        let mut nodes = Vec::new(self.allocator());
        for alias in labels.as_slice() {
            let node = self.truth_by(&nodes, alias, true)?;
            nodes.push(node)?;
        }
        Ok(nodes)
    }

    /// As `of_label`, by the diagrams of the aliases.
    pub fn of_label_by(&mut self, aliases: &[Node], label: &Label) -> Result<Node, AllocError>
        requires aliases { (names : List Expression) × AreNodesOf self.old names aliases.now }
        requires within { IsOver (length aliases.now) self.old.propositions (expression label.now) }
        ensures { MakesNode self.old self.new result
            (λ node. (names : List Expression) → AreNodesOf self.old names aliases.now → (letter : ℕ) →
            leaf_of self.new node letter ≡ one_where (label_truth names letter (expression label.now))) }
    {
        match self.of_literals(label, 1)? {
            Some(node) => Ok(node),
            None => self.truth_by(aliases, label, true),
        }
    }

    /// As `guard` on the result of `of_label_by`, but a product of literals takes one step.
    pub fn of_label_as(
        &mut self,
        aliases: &[Node],
        label: &Label,
        value: u64,
    ) -> Result<Node, AllocError>
        requires aliases { (names : List Expression) × AreNodesOf self.old names aliases.now }
        requires within { IsOver (length aliases.now) self.old.propositions (expression label.now) }
        ensures { MakesNode self.old self.new result
            (λ node. (names : List Expression) → AreNodesOf self.old names aliases.now → (letter : ℕ) →
            leaf_of self.new node letter ≡ leaf_where value (label_truth names letter (expression label.now))) }
    {
        match self.of_literals(label, value)? {
            Some(node) => Ok(node),
            None => {
                let node = self.truth_by(aliases, label, true)?;
                self.guard(node, value)
            }
        }
    }

    /// The diagram of the letters at which a label has this truth value, given those of the aliases' nodes.
    fn truth_by(&mut self, aliases: &[Node], label: &Label, value: bool) -> Result<Node, AllocError>
        requires aliases { (known : ℕ → List Bool) × HaveTruths self.old aliases.now known }
        requires within { IsOver (length aliases.now) self.old.propositions (expression label.now) }
        ensures { MakesNode self.old self.new result
            (λ node. (known : ℕ → List Bool) → HaveTruths self.old aliases.now known → (letter : ℕ) →
            leaf_of self.new node letter ≡ one_where (is_value value (truth (known letter) letter (expression
            label.now)))) }
    {
        match label {
            Label::Truth(truth) => self.of_truth(*truth == value),
            Label::Atom(proposition) => self.of_literal(*proposition, value),
            Label::Negated(proposition) => self.of_literal(*proposition, !value),
            Label::Named(alias) => self.turned(aliases[*alias], value),
            Label::Literals(literals) => {
                let node = self.of_conjunction(literals.as_slice())?;
                self.turned(node, value)
            }
            Label::Neg(operand) => self.truth_by(aliases, operand, !value),
            Label::Both(operands) => {
                // a conjunction is true if no operand is false
                let mut nodes = Vec::new(self.allocator());
                for operand in operands {
                    nodes.push(self.truth_by(aliases, operand, false)?)?;
                }
                let any = self.union_of(&nodes)?;
                self.turned(any, !value)
            }
            Label::Either(operands) => {
                let mut nodes = Vec::new(self.allocator());
                for operand in operands {
                    nodes.push(self.truth_by(aliases, operand, true)?)?;
                }
                let any = self.union_of(&nodes)?;
                self.turned(any, value)
            }
        }
    }

    /// The node of truth values, or if they are not `kept` that of their negations.
    fn turned(&mut self, node: Node, kept: bool) -> Result<Node, AllocError>
        requires { IsNode self.old node }
        ensures { MakesDiagram self.old self.new result (λ letter. cond kept (leaf_of self.old node letter)
            (opposite (leaf_of self.old node letter))) }
    {
        if kept { Ok(node) } else { self.negated(node) }
    }

    /// The disjunction of the nodes. Each half of the list is joined first, so that each node is in logarithmically
    /// many joins.
    fn union_of(&mut self, nodes: &[Node]) -> Result<Node, AllocError>
        requires truths { All (IsTruth self.old) nodes.now }
        ensures { MakesDiagram self.old self.new result (λ letter. first_leaf (leaves_of self.old nodes.now letter)) }
    {
        let count = nodes.len();
        if count == 0 {
            return self.none();
        }
        if count == 1 {
            return Ok(nodes[0]);
        }
        let (first, second) = nodes.split_at(count / 2);
        let one = self.union_of(first)?;
        let other = self.union_of(second)?;
        self.either(one, other)
    }

    fn of_truth(&mut self, value: bool) -> Result<Node, AllocError>
        ensures { MakesDiagram self.old self.new result (λ _. one_where value) }
    {
        if value { self.leaf(1) } else { self.none() }
    }

    /// The diagram with the leaf 1 where the proposition is true.
    pub fn of_proposition(&mut self, proposition: u32) -> Result<Node, AllocError>
        requires named { proposition < self.old.propositions }
        ensures { MakesDiagram self.old self.new result (λ letter. one_where (is_in proposition letter)) }
    {
        self.of_literal(proposition, true)
    }

    /// The diagram with the leaf 1 where the proposition has this truth value.
    fn of_literal(&mut self, proposition: u32, value: bool) -> Result<Node, AllocError>
        requires named { proposition < self.old.propositions }
        ensures { MakesDiagram self.old self.new result
            (λ letter. one_where (is_value value (is_in proposition letter))) }
    {
        let none = self.constant(None)?;
        let one = self.constant(Some(1))?;
        if value {
            self.test(proposition, none, one)
        } else {
            self.test(proposition, one, none)
        }
    }
}
