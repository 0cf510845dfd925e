//! The labels of edges, as texts.

use crate::text::cover::{Product, cover};
use crate::text::output::Output;
use ps_keys::KeyMap;
use ps_parts::diagrams::{Diagram, Diagrams, PROPOSITIONS};
use ps_parts::stop::Stop;
use std::alloc::Global;

/// Where a label stands.
#[derive(Clone, Copy)]
struct Span {
    start: usize,
    length: usize,
}

/// The labels that were written, each once.
#[derive(Drop)]
pub(crate) struct Labels {
    alloc: Global,
    /// The labels, one behind the other.
    output: Output,
    /// Where the label for each set of letters stands.
    spans: KeyMap<u64, Span>,
}

impl Labels {
    /// No labels.
    pub(crate) fn new(alloc: Global) -> Self {
        Labels {
            alloc,
            output: Output::new(alloc),
            spans: KeyMap::new(alloc),
        }
    }

    /// The label for some letters, as a sum of products.
    pub(crate) fn label(
        &mut self,
        diagrams: &mut Diagrams,
        letters: Diagram,
    ) -> Result<&[u8], Stop> {
        let span = match self.spans.get(letters as u64) {
            Some(known) => known,
            None => self.added(diagrams, letters)?,
        };
        let rest = self.output.bytes.get(span.start..).unwrap_or(&[]);
        Ok(rest.get(..span.length).unwrap_or(&[]))
    }

    /// Adds the label for some letters.
    fn added(&mut self, diagrams: &mut Diagrams, letters: Diagram) -> Result<Span, Stop> {
        let products = cover(self.alloc, diagrams, letters)?;
        let start = self.output.bytes.len();
        add_sum(&mut self.output, &products)?;
        let span = Span {
            start,
            length: self.output.bytes.len().saturating_sub(start),
        };
        self.spans.put(letters as u64, span)?;
        Ok(span)
    }
}

/// Adds a sum of products.
fn add_sum(output: &mut Output, products: &[Product]) -> Result<(), Stop> {
    for (number, product) in products.iter().enumerate() {
        output.add(if number > 0 { b" | " } else { b"" })?;
        add_product(output, *product)?;
    }
    Ok(())
}

/// Adds a product.
fn add_product(output: &mut Output, product: Product) -> Result<(), Stop> {
    let mut before: &[u8] = b"";
    for proposition in 0..PROPOSITIONS {
        let is_positive = product.positive >> proposition & 1 == 1;
        let is_negative = product.negative >> proposition & 1 == 1;
        if is_positive || is_negative {
            output.add(before)?;
            let sign: &[u8] = if is_negative { b"!" } else { b"" };
            output.add_number_between(sign, proposition as usize, b"")?;
            before = b"&";
        }
    }
    output.add(if before.is_empty() { b"t" } else { b"" })
}
