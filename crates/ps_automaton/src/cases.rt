//! Edges whose labels are conjunctions of literals, as the cases of the diagram of a state's steps.

ghost use Rattle.std.specs.Prelude.{◌≡◌, IfOk, IfSome, length};
ghost use Rattle.ps_hoa.specs.Sound.{IsSoundFile, IsSoundRow};
ghost use Rattle.ps_hoa.specs.Views.{row_data};
ghost use Rattle.ps_automaton.specs.Inner.Cases.{AreCases, AreProducts};

use crate::edge_labels::label_of;
use crate::targets::Target;
use ps_diagram::{Case, Product, Store};
use ps_hoa::{HoaFile, Row};
use std::alloc::{AllocError, Global};

/// The labels of a row's edges as products of literals, or None if some edge has no label, or one of another form.
pub(crate) fn products_of(
    alloc: Global,
    store: &Store,
    file: &HoaFile,
    row: &Row,
) -> Result<Option<Vec<Product>>, AllocError>
    requires sound { IsSoundFile file.now }
    requires row { IsSoundRow file.now (row_data row.now) }
    requires letters { store.now.propositions ≡ length file.now.names }
    ensures { IfOk result (λ found. IfSome found (λ products. AreProducts file.now (row_data row.now)
        products.items)) }
{
    let mut products = Vec::new(alloc);
    for edge in &row.edges {
        let Some(label) = label_of(row, edge) else {
            return Ok(None);
        };
        let Some(product) = store.product_of(label) else {
            return Ok(None);
        };
        products.push(product)?;
    }
    Ok(Some(products))
}

/// A case for each product: the leaf is its entry of `places`, and the kind its target's acceptance sets.
pub(crate) fn cases_of(
    alloc: Global,
    products: &[Product],
    places: &[u64],
    targets: &[Target],
) -> Result<Vec<Case>, AllocError>
    requires places { length places.now ≡ length products.now }
    requires targets { length targets.now ≡ length products.now }
    ensures { IfOk result (λ cases. AreCases (length products.now) products.now places.now targets.now cases.items) }
{
    let mut cases = Vec::with_capacity(alloc, products.len())?;
    for k in 0..products.len() {
        cases.push(Case {
            product: products[k],
            leaf: places[k],
            kind: targets[k].sets,
        })?;
    }
    Ok(cases)
}
