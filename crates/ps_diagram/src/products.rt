//! The diagrams of products: conjunctions of literals.

ghost use Rattle.std.specs.Prelude.{◌≡◌, ◌&&◌, ◌||◌, ℕ, ◌<◌, ◌≤◌, Bool, true, false, List, IfNone, IfOk, IfSome, cond};
ghost use Rattle.std.specs.Prelude.{is_some};
ghost use Rattle.ps_label.specs.Expression.{AreOver, IsOver, expression, literal_expression, literal_expressions};
ghost use Rattle.ps_label.specs.Expression.{operands_in, proposition};
ghost use Rattle.ps_label.specs.Truth.{all_true, is_in, truth};
ghost use Rattle.ps_diagram.specs.Labels.{leaf_where, one_where};
ghost use Rattle.ps_diagram.specs.Products.{is_product, is_proposition, meets};
ghost use Rattle.ps_diagram.specs.Split.{IsConstant};
ghost use Rattle.ps_diagram.specs.Table.{IsNode, Keeps, MakesDiagram, MakesNode, MakesTree, leaf_of, tree_of};
ghost use Rattle.ps_diagram.specs.Inner.Splitting.{IsProduct};

use crate::store::Store;
use crate::view::Node;
use ps_label::{Label, Literal};
use std::alloc::AllocError;

/// A conjunction of literals, as two sets whose bit p is proposition p.
#[derive(Clone, Copy)]
pub struct Product {
    /// The propositions of literals that are not negated.
    pub positive: u64,
    /// Those of negated literals.
    pub negative: u64,
}

impl Product {
    ghost use Rattle.ps_diagram.specs.Products.{allows};

    fn empty() -> Product
        ensures { (n letter : ℕ) → meets n result letter ≡ true }
    {
        Product {
            positive: 0,
            negative: 0,
        }
    }

    /// Whether the proposition may have this value.
    pub(crate) fn allows(&self, proposition: u32, value: bool) -> bool
        requires named { proposition < 64 }
        ensures { result ≡ allows self.now proposition value }
    {
        let refused = if value { self.negative } else { self.positive };
        refused >> proposition & 1 == 0
    }

    /// Whether there is a literal on the proposition.
    fn tests(&self, proposition: u32) -> bool
        requires named { proposition < 64 }
        ensures { result ≡ (is_in proposition self.now.positive || is_in proposition self.now.negative) }
    {
        (self.positive | self.negative) >> proposition & 1 == 1
    }

    /// And the proposition.
    fn with(self, proposition: u32) -> Product
        requires named { proposition < 64 }
        ensures { (n letter : ℕ) → proposition < n →
            meets n result letter ≡ (meets n self letter && is_in proposition letter) }
    {
        Product {
            positive: self.positive | 1 << proposition,
            negative: self.negative,
        }
    }

    /// And its negation.
    fn without(self, proposition: u32) -> Product
        requires named { proposition < 64 }
        ensures { (n letter : ℕ) → proposition < n →
            meets n result letter ≡ (meets n self letter && cond (is_in proposition letter) false true) }
    {
        Product {
            positive: self.positive,
            negative: self.negative | 1 << proposition,
        }
    }

    fn with_literal(self, literal: Literal) -> Product
        ensures { (aliases n letter : ℕ) (known : List Bool) → IsOver aliases n (literal_expression literal) →
            meets n result letter ≡ (meets n self letter && truth known letter (literal_expression literal)) }
    {
        if literal.is_negated() {
            self.without(literal.proposition())
        } else {
            self.with(literal.proposition())
        }
    }

    fn with_all(self, literals: &[Literal]) -> Product
        ensures { (aliases n : ℕ) → AreOver aliases n (operands_in (literal_expressions literals.now)) →
            (known : List Bool) (letter : ℕ) → meets n result letter ≡
            (meets n self letter && all_true known letter (operands_in (literal_expressions literals.now))) }
    {
        let mut more = self;
        for literal in literals {
            more = more.with_literal(*literal);
        }
        more
    }
}

impl Store {
    /// The diagram with the leaf `value` where the label is true, if it is a product of literals.
    pub(crate) fn of_literals(
        &mut self,
        label: &Label,
        value: u64,
    ) -> Result<Option<Node>, AllocError>
        requires within { (aliases : ℕ) × IsOver aliases self.old.propositions (expression label.now) }
        ensures keeps { Keeps self.old self.new }
        ensures held { IfOk result (λ made. IfSome made (λ node. IsNode self.new node)) }
        ensures leaf { IfOk result (λ made. IfSome made (λ node. (known : List Bool) (letter : ℕ) →
            leaf_of self.new node letter ≡ leaf_where value (truth known letter (expression label.now)))) }
    {
        let Some(product) = self.product_of(label) else {
            return Ok(None);
        };
        let node = self.of_product(product, value)?;
        Ok(Some(node))
    }

    /// The product that a label is, if it is one; aliases are not replaced by what they stand for.
    pub fn product_of(&self, label: &Label) -> Option<Product>
        requires within { (aliases : ℕ) × IsOver aliases self.now.propositions (expression label.now) }
        ensures value { IfSome result (λ product. (known : List Bool) (letter : ℕ) →
            meets self.now.propositions product letter ≡ truth known letter (expression label.now)) }
        ensures some { is_some result ≡ is_product (expression label.now) }
    {
        self.with_label(Product::empty(), label)
    }

    /// The product with a label's literals, if it is a product of them.
    fn with_label(&self, product: Product, label: &Label) -> Option<Product>
        requires within { (aliases : ℕ) × IsOver aliases self.now.propositions (expression label.now) }
        ensures value { IfSome result (λ more. (known : List Bool) (letter : ℕ) →
            meets self.now.propositions more letter ≡
            (meets self.now.propositions product letter && truth known letter (expression label.now))) }
        ensures some { is_some result ≡ is_product (expression label.now) }
    {
        self.table_is_sound();
        match label {
            Label::Truth(true) => Some(product),
            Label::Atom(proposition) => Some(product.with(*proposition)),
            Label::Negated(proposition) => Some(product.without(*proposition)),
            Label::Literals(literals) => Some(product.with_all(literals.as_slice())),
            Label::Neg(operand) => Some(product.without(atom_of(operand)?)),
            Label::Both(operands) => {
                let mut more = product;
                for operand in operands {
                    more = self.with_label(more, operand)?;
                }
                Some(more)
            }
            _ => None,
        }
    }

    /// The diagram with the leaf 1 where all literals are true.
    pub(crate) fn of_conjunction(&mut self, literals: &[Literal]) -> Result<Node, AllocError>
        requires within { (aliases : ℕ) ×
            AreOver aliases self.old.propositions (operands_in (literal_expressions literals.now)) }
        ensures { MakesNode self.old self.new result (λ node. (known : List Bool) (letter : ℕ) →
            leaf_of self.new node letter ≡
            one_where (all_true known letter (operands_in (literal_expressions literals.now)))) }
    {
        self.of_product(Product::empty().with_all(literals), 1)
    }

    /// The diagram with the leaf `value` where the product is true.
    fn of_product(&mut self, product: Product, value: u64) -> Result<Node, AllocError>
        ensures { MakesDiagram self.old self.new result
            (λ letter. leaf_where value (meets self.old.propositions product letter)) }
    {
        let none = self.constant(None)?;
        let leaf = self.constant(Some(value))?;
        self.path(product, 0, leaf, none)
    }

    /// The diagram that leads to `hit` if the product's literals on propositions from `level` on are true, and else to
    /// `miss`.
    pub(crate) fn path(
        &mut self,
        product: Product,
        level: u32,
        hit: Node,
        miss: Node,
    ) -> Result<Node, AllocError>
        requires within { level ≤ self.old.propositions }
        requires hit { IsNode self.old hit }
        requires miss { IsNode self.old miss }
        requires hit_constant { IsConstant (tree_of self.old hit) }
        requires miss_constant { IsConstant (tree_of self.old miss) }
        ensures { MakesTree self.old self.new result (IsProduct self.old.propositions level product
            (tree_of self.old hit) (tree_of self.old miss)) }
    {
        let mut node = hit;
        for proposition in (level..self.propositions()).rev() {
            if !product.tests(proposition) {
                continue;
            }
            let low = side(product.positive, proposition, miss, node);
            let high = side(product.negative, proposition, miss, node);
            node = self.test(proposition, low, high)?;
        }
        Ok(node)
    }
}

fn side(some: u64, proposition: u32, first: Node, second: Node) -> Node
    requires named { proposition < 64 }
    ensures { result ≡ cond (is_in proposition some) first second }
{
    if some >> proposition & 1 == 1 {
        first
    } else {
        second
    }
}

fn atom_of(label: &Label) -> Option<u32>
    ensures some { IfSome result (λ p. expression label.now ≡ proposition p) }
    ensures none { IfNone result (is_proposition (expression label.now) ≡ false) }
{
    match label {
        Label::Atom(proposition) => Some(*proposition),
        _ => None,
    }
}
