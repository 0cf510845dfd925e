//! The text that `help` prints.

ghost use Rattle.std.specs.Prelude.{◌≡◌, ◌++◌, IfOk, OnOk, flat_map, map, replicate};
ghost use Rattle.std.specs.String.{string_bytes};
ghost use Rattle.ps_program.specs.Help as words;
ghost use Rattle.ps_program.specs.Inner.Usages.{usage_of};

use crate::commands::{TextKind, Usage, usages};
use std::alloc::{AllocError, Global};

/// What stands above the list of commands.
pub const ABOUT: &str = "\
psyn answers one command, which it reads from standard input.

The first line is the command. Behind it come its texts, with a line %% between
two of them.

";

/// What stands below it.
pub const FORMATS: &str = "\n\
A game has an entry for each vertex: its id, its priority, its owner (0 or 1),
its successors, a name if it has one, and a semicolon. A certificate lists the
odd and the even priorities, and gives each vertex its winner, the winner's move
or a dash, and a count for each priority by which the winner loses:

check
0 1 0 0,1; 1 2 0 0;
%%
psyncert 1
vertices 2
odd 1
even 2
0 0 1 0
1 0 0 0

A solution gives each vertex in the same way its id, its winner and, where the
winner owns the vertex, a move:

judge
0 1 0 0,1; 1 2 0 0;
%%
paritysol 1; 0 0 1; 1 0 0;

A circuit has the ASCII form of AIGER 1.9. A stimulus has a line for each
letter, with a digit 0 or 1 for each input:

sim
aag 3 2 0 1 1
2
4
6
6 4 2
%%
11
01

An automaton is deterministic, has the form of HOA version 1, and a header
controllable-AP: that says which propositions are the controller's. The symbols
of the circuit's inputs and outputs are the names of its propositions:

lasso
HOA: v1 Start: 0 AP: 2 \"r\" \"g\" controllable-AP: 1 Acceptance: 1 Inf(0)
--BODY-- State: 0 [0 & 1 | !0 & !1] 0 {0} [0 & !1 | !0 & 1] 0 --END--
%%
aag 1 1 0 1 0
2
2
i0 r
o0 g
%%
0
-
1

A fault is one line in place of the answer: `fault`, its number and its name,
and where it stands. The exit status is 10 for REALIZABLE, 20 for UNREALIZABLE
and 0 for each other answer, 1 for a fault, or for an answer that could not be
written whole, and 2 for a command line that is refused. The file docs/FAULTS.md
lists the faults, with an example of each and how to mend it; tools/psyn, which
takes files by name, explains them.
";

const COLUMN: usize = 11;

/// The whole text. Fails if memory runs out.
pub(crate) fn help_text(alloc: Global) -> Result<String, AllocError>
    ensures { IfOk result (λ text. string_bytes text ≡ words.help_text) }
{
    let mut text = String::from_str(alloc, ABOUT)?;
    push_usages(&mut text, usages())?;
    text.push_str(FORMATS)?;
    Ok(text)
}

fn push_usages(text: &mut String, usages: &[Usage<'_>]) -> Result<(), AllocError>
    ensures { OnOk result (string_bytes text.new ≡ string_bytes text.old ++
        flat_map words.usage_text (map usage_of usages.now)) }
{
    for usage in usages {
        push_usage(text, usage)?;
    }
    Ok(())
}

/// Appends a command's lines.
fn push_usage(text: &mut String, usage: &Usage<'_>) -> Result<(), AllocError>
    ensures { OnOk result (string_bytes text.new ≡ string_bytes text.old ++
        words.usage_text (usage_of usage.now)) }
{
    text.push_str(usage.name)?;
    push_blanks(text, COLUMN.saturating_sub(usage.name.len()))?;
    push_kinds(text, usage.texts)?;
    text.push_str(usage.says)?;
    text.push_str("\n")
}

fn push_blanks(text: &mut String, count: usize) -> Result<(), AllocError>
    ensures { OnOk result (string_bytes text.new ≡ string_bytes text.old ++ replicate count 32) }
{
    for _ in 0..count {
        text.push(' ')?;
    }
    Ok(())
}

/// Appends the kinds of texts, between commas.
fn push_kinds(text: &mut String, kinds: &[TextKind]) -> Result<(), AllocError>
    ensures { OnOk result (string_bytes text.new ≡ string_bytes text.old ++ words.kinds_text kinds.now) }
{
    match kinds {
        [first, rest @ ..] => {
            text.push_str(kind_text(*first))?;
            push_further_kinds(text, rest)
        }
        [] => Ok(()),
    }
}

fn push_further_kinds(text: &mut String, kinds: &[TextKind]) -> Result<(), AllocError>
    ensures { OnOk result (string_bytes text.new ≡ string_bytes text.old ++ words.further_kinds kinds.now) }
{
    for kind in kinds {
        text.push_str(", ")?;
        text.push_str(kind_text(*kind))?;
    }
    Ok(())
}

fn kind_text(kind: TextKind) -> &'static str
    ensures { result.now ≡ words.kind_text kind }
{
    match kind {
        TextKind::Automaton => "an automaton",
        TextKind::Specification => "a specification",
        TextKind::Game => "a game",
        TextKind::Certificate => "a certificate",
        TextKind::Solution => "a solution",
        TextKind::Circuit => "a circuit",
        TextKind::Stimulus => "a stimulus",
    }
}
