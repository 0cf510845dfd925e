//! What the parser of HOA texts keeps.

use ps_hoa::read;
use ps_label::Label;
use std::alloc::{AllocError, Global};
use std::test::Fail;

/// The debug output of what the parser gives.
fn kept(alloc: Global, text: &str) -> Result<String, Fail> {
    let file = read(alloc, text.as_bytes())?;
    Ok(format!(in alloc; "{file:?}")?)
}

/// The first of these strings that the debug output lacks.
fn lacking(
    alloc: Global,
    text: &str,
    parts: &[&'static str],
) -> Result<Option<&'static str>, Fail> {
    let kept = kept(alloc, text)?;
    Ok(parts.iter().find(|part| !kept.contains(**part)).copied())
}

/// Header items in an unusual order, comments in comments, acceptance sets, and edges without labels.
const UNUSUAL: &str =
    "HOA: v1 /*a/*b*/c*/ controllable-AP: 1 0 1 acc-name: x 1 \"y\" Alias: @x 0 Alias: @y @x&!1
    tool: \"a\" \"b\" name: \"c\" Acceptance: 2 Fin(!1) AP: 2 \"a\\\"\" \"b\" Start: 3 States: 5
    --BODY-- State: 2 {1 0 1} 3 4 {1} 0 1 State: [t] 3 {0} 3 --END--";

/// What its debug output must contain.
const PARTS_OF_UNUSUAL: [&str; 11] = [
    "states: 5, start: 3,",
    "[97, 34]",
    "[98]",
    "[1, 0]",
    "[Atom(0), Both([Named(0), Negated(1)])]",
    "sets: 2, condition: Fin(1, true)",
    "Row { state: 2, label: None, marks: [1, 0],",
    "Edge { guard: Letter(0), target: 3, marks: [] }",
    "Edge { guard: Letter(1), target: 4, marks: [1] }",
    "Row { state: 3, label: Some(Truth(true)), marks: [0],",
    "Edge { guard: OfState, target: 3, marks: [] }",
];

/// Labels and an acceptance condition that are nested.
const NESTED: &str =
    "HOA: v1 Start: 0 AP: 2 \"a\" \"b\" controllable-AP: Alias: @x 0 Alias: @y 1 Acceptance: 3
    Inf(0)&Fin(!1)|(f|Fin(2)) --BODY--
    State: 0 [@y|t] 0 [@x&!0] 0 [0&1|f] 0 [0|1|(0|1)] 0 [!(0&1)&1] 0 --END--";

/// What its debug output must contain.
const PARTS_OF_NESTED: [&str; 6] = [
    "Stated(Either([Named(1), Truth(true)]))",
    "Stated(Both([Named(0), Negated(0)]))",
    "Stated(Either([Literals([0, 1]), Truth(false)]))",
    "Stated(Either([Atom(0), Atom(1), Either([Atom(0), Atom(1)])]))",
    "Stated(Both([Neg(Literals([0, 1])), Atom(1)]))",
    "Any([All([Inf(0, false), Fin(1, true)]), Any([Never, Fin(2, false)])])",
];

#[test]
fn each_part_of_a_text_is_kept(rt: HostRuntime) -> Result<(), Fail> {
    assert_eq!(rt; lacking(rt.alloc(), UNUSUAL, &PARTS_OF_UNUSUAL)?, None);
    assert_eq!(rt; lacking(rt.alloc(), NESTED, &PARTS_OF_NESTED)?, None);
    Ok(())
}

/// An alias of a proposition, and an alias that uses it.
const ALIASES: &str = "HOA: v1 Start: 0 AP: 1 \"a\" controllable-AP: Alias: @x 0 Alias: @y @x&!0
    Acceptance: 0 t --BODY-- State: 0 [@y|t] 0 --END--";

/// The debug output of the aliases, without the two forms of labels that are there for speed.
fn plain_aliases(alloc: Global, text: &str) -> Result<String, Fail> {
    let file = read(alloc, text.as_bytes())?;
    let plain = each_plain(alloc, file.aliases().as_slice())?;
    Ok(format!(in alloc; "{plain:?}")?)
}

/// The labels without these two forms.
fn each_plain(alloc: Global, labels: &[Label]) -> Result<Vec<Label>, AllocError> {
    let mut plain = Vec::new(alloc);
    for label in labels {
        plain.push(label.plain(alloc)?)?;
    }
    Ok(plain)
}

#[test]
fn labels_are_written_plainly(rt: HostRuntime) -> Result<(), Fail> {
    let aliases = plain_aliases(rt.alloc(), ALIASES)?;
    assert_eq!(rt;
        aliases.as_str(),
        "[Atom(0), Both([Named(0), Neg(Atom(0))])]"
    );
    let guard = "Stated(Either([Named(1), Truth(true)]))";
    assert_eq!(rt; lacking(rt.alloc(), ALIASES, &[guard])?, None);
    Ok(())
}
