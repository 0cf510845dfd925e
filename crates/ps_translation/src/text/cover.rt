//! Sums of products for sets of letters.
//!
//! They are irredundant: no product and no literal can be left out (Morreale, "Recursive Operators for Prime Implicant
//! and Irredundant Normal Form Determination", 1970; on diagrams, Minato, "Fast Generation of Irredundant
//! Sum-of-Products Forms from Binary Decision Diagrams", 1992).

use ps_parts::diagrams::{Diagram, Diagrams, FALSE, PROPOSITIONS, Sides, TRUE, Test};
use ps_parts::stop::Stop;
use std::alloc::Global;

/// The most products of a sum.
const PRODUCTS: usize = 1 << 18;

/// A product of literals: the propositions that are to be true, and those that are to be false, one bit for each.
#[derive(Clone, Copy)]
pub(crate) struct Product {
    pub(crate) positive: u64,
    pub(crate) negative: u64,
}

impl Product {
    /// The product with a further proposition that is to be true.
    fn with(self, bit: u64) -> Self {
        Product {
            positive: self.positive | bit,
            ..self
        }
    }

    /// The product with a further proposition that is to be false.
    fn without(self, bit: u64) -> Self {
        Product {
            negative: self.negative | bit,
            ..self
        }
    }
}

/// Letters that a sum of products has to have, and letters that it may have.
#[derive(Clone, Copy)]
struct Range {
    least: Diagram,
    most: Diagram,
}

/// A sum of products that is true at some letters.
pub(crate) fn cover(
    alloc: Global,
    diagrams: &mut Diagrams,
    letters: Diagram,
) -> Result<Vec<Product>, Stop> {
    let range = Range {
        least: letters,
        most: letters,
    };
    let all = Product {
        positive: 0,
        negative: 0,
    };
    let mut products = Vec::new(alloc);
    add_products(diagrams, PROPOSITIONS, range, all, &mut products)?;
    Ok(products)
}

/// Adds products, each with the literals of a given one, whose sum is in a range; and returns this sum.
fn add_products(
    diagrams: &mut Diagrams,
    depth: u32,
    range: Range,
    prefix: Product,
    products: &mut Vec<Product>,
) -> Result<Diagram, Stop> {
    if range.least == FALSE {
        return Ok(FALSE);
    }
    if range.most == TRUE {
        return add_product(prefix, products);
    }
    let variable = diagrams.level(range.least).min(diagrams.level(range.most));
    if depth == 0 || variable >= PROPOSITIONS {
        return Err(Stop::Limit);
    }
    let bit = 1u64 << variable;
    let least = diagrams.sides(range.least, variable);
    let most = diagrams.sides(range.most, variable);
    let low = Range {
        least: diagrams.choose(most.high, FALSE, least.low)?,
        most: most.low,
    };
    let low = add_products(diagrams, depth - 1, low, prefix.without(bit), products)?;
    let high = Range {
        least: diagrams.choose(most.low, FALSE, least.high)?,
        most: most.high,
    };
    let high = add_products(diagrams, depth - 1, high, prefix.with(bit), products)?;
    let rest = left_over(diagrams, least, most, Sides { low, high })?;
    let rest = add_products(diagrams, depth - 1, rest, prefix, products)?;
    let low = diagrams.either(low, rest)?;
    let high = diagrams.either(high, rest)?;
    diagrams.test(Test {
        variable,
        low,
        high,
    })
}

/// Adds a product that is a sum by itself.
fn add_product(product: Product, products: &mut Vec<Product>) -> Result<Diagram, Stop> {
    if products.len() >= PRODUCTS {
        return Err(Stop::Limit);
    }
    products.push(product)?;
    Ok(TRUE)
}

/// The letters for products without a literal of a variable, if there are products with one for some letters of its
/// sides.
fn left_over(
    diagrams: &mut Diagrams,
    least: Sides,
    most: Sides,
    covered: Sides,
) -> Result<Range, Stop> {
    let low = diagrams.choose(covered.low, FALSE, least.low)?;
    let high = diagrams.choose(covered.high, FALSE, least.high)?;
    let least = diagrams.either(low, high)?;
    let most = diagrams.both(most.low, most.high)?;
    Ok(Range { least, most })
}
