//! Steps towards the normal form of Sickert and Esparza ("An Efficient Normalisation Procedure for Linear Temporal
//! Logic", 2020; Esparza, Rubio, Sickert, "A Simple Rewrite System for the Normalization of Linear Temporal Logic",
//! 2023): a Boolean combination of formulas of the recurrence class.
//!
//! Below, h[f] is a formula with an operand f somewhere inside, not negated; the formula `f W g` is `g R (f || g)`.
//!
//! | A formula | is the same as |
//! |---|---|
//! | h[L], where L is a limit | `(L && h[true]) \|\| h[false]` |
//! | `G F h[f R g]` | `G F h[g U (f && g)] \|\| (F G g && G F h[true])` |
//! | `f R g` | `(g U (f && g)) \|\| G g` |
//! | `G h[f U g]` | `(G F g && G h[f W g]) \|\| (h[f U g] U G h[false])` |
//! | `G h[f R g]` | `G h[g U (f && g)] \|\| (F G g && G k)` |
//!
//! In the last row, k is h with `p W q` in place of each `p U q` where q is true if `f R g` is: under `F G g` there comes
//! an index from which on `f R g` is true, and so q.

use crate::forms::{FALSE, Form, Forms, Sides, TRUE};
use crate::stop::Stop;
use ps_formula::NormalNode;
use ps_keys::KeyMap;
use std::alloc::Global;

/// The most formulas of a table that is brought into normal form.
const FORMULAS: usize = 30_000;

/// A formula that is the same as a given one, and nearer to the normal form. If `is_parting`, the last row is used where
/// it can be; then there may be no end of such steps, since what it does may be undone.
pub fn normalised(
    alloc: Global,
    forms: &mut Forms,
    form: Form,
    is_parting: bool,
) -> Result<Form, Stop> {
    if forms.len() > FORMULAS {
        return Err(Stop::Limit);
    }
    if let Some(limit) = inner_limit(forms, form)? {
        return without_limit(alloc, forms, form, limit);
    }
    if forms.again(form).is_some() {
        return again(alloc, forms, form);
    }
    if forms.again(form ^ 1).is_some() {
        return Ok(again(alloc, forms, form ^ 1)? ^ 1);
    }
    let release = mixed_release(forms, form)?;
    let made = released(alloc, forms, release, is_parting)?;
    replaced(alloc, forms, form, release, made)
}

/// A limit inside a formula.
fn inner_limit(forms: &Forms, form: Form) -> Result<Option<Form>, Stop> {
    let below = forms.below(form)?;
    Ok(
        below.iter().rev().copied().find(|each| *each != form
            && *each > TRUE
            && forms.class(*each).is_limit),
    )
}

/// A formula with a limit inside, without the limit inside.
fn without_limit(alloc: Global, forms: &mut Forms, form: Form, limit: Form) -> Result<Form, Stop> {
    let with = replaced(alloc, forms, form, limit, TRUE)?;
    let without = replaced(alloc, forms, form, limit, FALSE)?;
    let one = forms.both(limit, with)?;
    forms.either(one, without)
}

/// A formula `G F h` without one of the operators `R` in h.
fn again(alloc: Global, forms: &mut Forms, form: Form) -> Result<Form, Stop> {
    let inner = inner_release(forms, form)?;
    let Sides { left, right } = forms.sides(inner);
    let until = ended(forms, left, right)?;
    let with_until = replaced(alloc, forms, form, inner, until)?;
    let lasting = lasting(forms, right)?;
    let with_true = replaced(alloc, forms, form, inner, TRUE)?;
    let other = forms.both(lasting, with_true)?;
    forms.either(with_until, other)
}

/// A formula `f R g` inside a formula.
fn inner_release(forms: &Forms, form: Form) -> Result<Form, Stop> {
    let below = forms.below(form)?;
    let mut inner = below.iter().copied();
    let found = inner.find(|each| *each != form && release(forms, *each).is_some());
    found.ok_or(Stop::Limit)
}

/// `F G f`
fn lasting(forms: &mut Forms, f: Form) -> Result<Form, Stop> {
    let always = forms.release(FALSE, f)?;
    forms.until(TRUE, always)
}

/// The operands of a formula `f R g`.
fn release(forms: &Forms, form: Form) -> Option<Sides> {
    match forms.node(form) {
        NormalNode::Release(left, right) => Some(Sides { left, right }),
        _ => None,
    }
}

/// `g U (f && g)`: what `f R g` is if f comes.
fn ended(forms: &mut Forms, f: Form, g: Form) -> Result<Form, Stop> {
    let end = forms.both(f, g)?;
    forms.until(g, end)
}

/// An innermost formula `f R g` with an operator `U` inside.
fn mixed_release(forms: &Forms, form: Form) -> Result<Form, Stop> {
    let below = forms.below(form)?;
    let mut inner = below.iter().copied();
    let found = inner.find(|each| release(forms, *each).is_some() && !forms.class(*each).is_safety);
    found.ok_or(Stop::Limit)
}

/// A formula `f R g` with one operator `U` fewer in g, or without f.
fn released(alloc: Global, forms: &mut Forms, form: Form, is_parting: bool) -> Result<Form, Stop> {
    let Sides { left, right } = release(forms, form).ok_or(Stop::Limit)?;
    let always = if forms.class(right).is_safety {
        forms.release(FALSE, right)?
    } else {
        globally(alloc, forms, right, is_parting)?
    };
    let until = ended(forms, left, right)?;
    forms.either(until, always)
}

/// A formula `G h`, where in h an operator `U` fewer is around an operator `R`, or there is one fewer.
fn globally(alloc: Global, forms: &mut Forms, inner: Form, is_parting: bool) -> Result<Form, Stop> {
    if is_parting {
        let below = forms.below(inner)?;
        for each in &below {
            if let Some(made) = parted(alloc, forms, &below, *each)? {
                return Ok(made);
            }
        }
    }
    globally_weak(alloc, forms, inner)
}

/// A formula `G h`, parted by an innermost formula `f R g` in h, if that takes an operator `U` from around it.
fn parted(
    alloc: Global,
    forms: &mut Forms,
    below: &[Form],
    kept: Form,
) -> Result<Option<Form>, Stop> {
    let Some(Sides { left, right }) = innermost_release(forms, kept) else {
        return Ok(None);
    };
    let inner = last(below);
    let weak = weakened(alloc, forms, below, kept)?;
    if weak == inner {
        return Ok(None);
    }
    let until = ended(forms, left, right)?;
    let with_until = replaced(alloc, forms, inner, kept, until)?;
    let made = either_way(forms, with_until, right, weak)?;
    Ok(Some(made))
}

/// `G f || (F G g && G h)`
fn either_way(forms: &mut Forms, f: Form, g: Form, h: Form) -> Result<Form, Stop> {
    let one = forms.release(FALSE, f)?;
    let lasting = lasting(forms, g)?;
    let other = forms.release(FALSE, h)?;
    let other = forms.both(lasting, other)?;
    forms.either(one, other)
}

/// The operands of a formula `f R g` without an operator `R` inside.
fn innermost_release(forms: &Forms, form: Form) -> Option<Sides> {
    let sides = release(forms, form)?;
    let left = forms.class(sides.left);
    let right = forms.class(sides.right);
    if left.is_guarantee && right.is_guarantee {
        Some(sides)
    } else {
        None
    }
}

/// The last of the formulas inside a formula, which is this formula, with `f W g` in place of each `f U g` where g is
/// true if a formula inside is.
fn weakened(alloc: Global, forms: &mut Forms, below: &[Form], kept: Form) -> Result<Form, Stop> {
    let mut true_there = replacing(alloc, kept, TRUE)?;
    let made = weakened_beside(alloc, forms, below, kept, &mut true_there);
    drop(true_there);
    made
}

/// The same, with a table of what the formulas inside are if a formula is true.
fn weakened_beside(
    alloc: Global,
    forms: &mut Forms,
    below: &[Form],
    kept: Form,
    true_there: &mut KeyMap<u64, Form>,
) -> Result<Form, Stop> {
    let mut weak = replacing(alloc, kept, kept)?;
    for each in below {
        if *each != kept {
            weaken(forms, *each, true_there, &mut weak)?;
        }
    }
    Ok(at(&weak, last(below)))
}

/// Adds to both tables what replaces a formula.
fn weaken(
    forms: &mut Forms,
    form: Form,
    true_there: &mut KeyMap<u64, Form>,
    weak: &mut KeyMap<u64, Form>,
) -> Result<(), Stop> {
    let made = rebuilt(forms, form, true_there)?;
    true_there.put(form as u64, made)?;
    let made = rebuilt_weakly(forms, form, true_there, weak)?;
    weak.put(form as u64, made)?;
    Ok(())
}

/// A table in which one formula is replaced by another.
fn replacing(alloc: Global, old: Form, new: Form) -> Result<KeyMap<u64, Form>, Stop> {
    let mut known = KeyMap::new(alloc);
    known.put(old as u64, new)?;
    Ok(known)
}

/// A formula, made from what replaces its operands, with `f W g` in place of `f U g` if g becomes true.
fn rebuilt_weakly(
    forms: &mut Forms,
    form: Form,
    true_there: &KeyMap<u64, Form>,
    weak: &KeyMap<u64, Form>,
) -> Result<Form, Stop> {
    match forms.node(form) {
        NormalNode::Until(f, g) if at(true_there, g) == TRUE => {
            weak_until(forms, at(weak, f), at(weak, g))
        }
        _ => rebuilt(forms, form, weak),
    }
}

/// The last of some formulas.
fn last(below: &[Form]) -> Form {
    below.last().copied().unwrap_or(FALSE)
}

/// A formula `G h` with one operator `U` fewer in h.
fn globally_weak(alloc: Global, forms: &mut Forms, inner: Form) -> Result<Form, Stop> {
    let until = first_until(forms, inner)?;
    let Sides { left, right } = forms.sides(until);
    let weak = weak_until(forms, left, right)?;
    let with_weak = replaced(alloc, forms, inner, until, weak)?;
    let with_false = replaced(alloc, forms, inner, until, FALSE)?;
    let one = again_and_always(forms, right, with_weak)?;
    let end = forms.release(FALSE, with_false)?;
    let other = forms.until(inner, end)?;
    forms.either(one, other)
}

/// `f W g`
fn weak_until(forms: &mut Forms, f: Form, g: Form) -> Result<Form, Stop> {
    let either = forms.either(f, g)?;
    forms.release(g, either)
}

/// `G F f && G g`
fn again_and_always(forms: &mut Forms, f: Form, g: Form) -> Result<Form, Stop> {
    let eventually = forms.until(TRUE, f)?;
    let again = forms.release(FALSE, eventually)?;
    let always = forms.release(FALSE, g)?;
    forms.both(again, always)
}

/// An innermost formula `f U g`.
fn first_until(forms: &Forms, form: Form) -> Result<Form, Stop> {
    let below = forms.below(form)?;
    let found = below
        .iter()
        .copied()
        .find(|each| matches!(forms.node(*each), NormalNode::Until(..)));
    found.ok_or(Stop::Limit)
}

/// A formula in which each occurrence of a formula inside is replaced by another.
fn replaced(
    alloc: Global,
    forms: &mut Forms,
    form: Form,
    old: Form,
    new: Form,
) -> Result<Form, Stop> {
    let below = forms.below(form)?;
    let mut known = replacing(alloc, old, new)?;
    for each in &below {
        if *each != old {
            replace(forms, *each, &mut known)?;
        }
    }
    known.get(form as u64).ok_or(Stop::Limit)
}

/// Adds to a table what replaces a formula, by what replaces its operands.
fn replace(forms: &mut Forms, form: Form, known: &mut KeyMap<u64, Form>) -> Result<(), Stop> {
    let made = rebuilt(forms, form, known)?;
    known.put(form as u64, made)?;
    Ok(())
}

/// A formula, made from what replaces its operands.
fn rebuilt(forms: &mut Forms, form: Form, known: &KeyMap<u64, Form>) -> Result<Form, Stop> {
    match forms.node(form) {
        NormalNode::Constant(_) | NormalNode::Proposition(_) | NormalNode::Negated(_) => Ok(form),
        NormalNode::And(f, g) => forms.both(at(known, f), at(known, g)),
        NormalNode::Or(f, g) => forms.either(at(known, f), at(known, g)),
        NormalNode::Next(f) => forms.next(at(known, f)),
        NormalNode::Until(f, g) => forms.until(at(known, f), at(known, g)),
        NormalNode::Release(f, g) => forms.release(at(known, f), at(known, g)),
    }
}

/// What replaces a formula.
fn at(known: &KeyMap<u64, Form>, form: Form) -> Form {
    known.get(form as u64).unwrap_or(form)
}
