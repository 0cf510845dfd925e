//! The command line.

ghost use Rattle.std.specs.Prelude.{◌≡◌, ◌↔◌, ◌<◌, false, length, All, List, IfOk, IsTrue, find, map};
ghost use Rattle.std.specs.Option.{option_copied};
ghost use Rattle.std.specs.Str.{bytes_eq};
ghost use Rattle.clap.specs.Matches.{found_of};
ghost use Rattle.clap.specs.Words.{app_of, rows_of, rule_of, subcommand_rows_of, with_subcommand};
ghost use Rattle.ps_program.specs.CommandLine as words;
ghost use Rattle.ps_program.specs.Inner.Usages.{usage_of};
ghost use Rattle.ps_program.specs.CommandLine.{words_of, line_said, Says, IsLine, LinesAreRead, AskForHelp};
ghost use Rattle.ps_program.specs.Inner.LongWords.{NamesNothing};

use crate::commands::{
    CERT_FLAG, COMPACT_FLAG, ENV_FLAG, FULL_FLAG, Line, MOORE_FLAG, SynthLine, TLSF_FLAG, Usage,
    usages,
};
use clap::error::ErrorKind;
use clap::{Arg, ArgAction, ArgMatches, Command};
use ps_machine::Order;
use ps_simulate::Role;
use std::alloc::{AllocError, Global};

/// Reads the first line of the input. Fails if memory runs out.
pub fn read_line(alloc: Global, line: &[u8]) -> Result<Line, AllocError>
    ensures { IfOk result (IsLine line.now) }
{
    match str::from_utf8(line) {
        Ok(text) => read_words(alloc, split_words(alloc, text)?.as_slice()),
        Err(_) => Ok(Line::Refused),
    }
}

/// A law. A command's name with some of its own flags, each once, in any order, is accepted as this command, but
/// refused if some of the flags exclude each other. `--help` and `-h` ask for help.
pub fn lines_are_read()
    ensures lines { LinesAreRead }
    ensures help { AskForHelp }
{}

fn split_words(alloc: Global, text: &str) -> Result<Vec<&str>, AllocError>
    ensures { IfOk result (λ words. map (λ word. word.now) words.items ≡ words_of text.now) }
{
    text.split(' ')
        .filter(|word| !word.is_empty())
        .collect(alloc)
}

/// Whether a first word is too long for a command's name, and begins with no hyphen.
fn names_nothing(word: &str) -> bool
    ensures { IsTrue result → NamesNothing word.now }
{
    match word.as_bytes() {
        [first, ..] => *first != b'-' && is_longer(usages(), word),
        [] => false,
    }
}

fn is_longer(usages: &[Usage<'_>], word: &str) -> bool
    ensures { IsTrue result ↔ All (λ usage. length usage.name.now < length word.now) usages.now }
{
    usages.iter().all(|usage| usage.name.len() < word.len())
}

/// Reads the words of a line. If the first one names nothing, no similar names are searched for.
fn read_words(alloc: Global, words: &[&str]) -> Result<Line, AllocError>
    ensures { IfOk result (Says (map (λ word. word.now) words.now)) }
{
    if let [word, ..] = words
        && names_nothing(word)
    {
        return Ok(Line::Refused);
    }
    parse_words(alloc, words)
}

fn parse_words(alloc: Global, words: &[&str]) -> Result<Line, AllocError>
    ensures { IfOk result (Says (map (λ word. word.now) words.now)) }
{
    match table(alloc)?.try_get_matches_from(words) {
        Ok(matches) => Ok(line_of(&matches)),
        Err(error) => match error.kind() {
            ErrorKind::OutOfMemory => Err(AllocError),
            ErrorKind::DisplayHelp => Ok(Line::Help),
            _ => Ok(Line::Refused),
        },
    }
}

fn flag<'a>(alloc: Global, name: &'a str) -> Arg<'a>
    ensures rule { rule_of result ≡ words.flag name.now }
    ensures local { result.global ≡ false }
{
    Arg::new(alloc, name).long(name).action(ArgAction::SetTrue)
}

/// The commands for clap.
fn table<'a>(alloc: Global) -> Result<Command<'a>, AllocError>
    ensures { IfOk result (λ command. app_of command ≡ words.table) }
{
    with_commands(alloc, usages())
}

fn with_commands<'a>(alloc: Global, usages: &[Usage<'a>]) -> Result<Command<'a>, AllocError>
    ensures { IfOk result (λ command. app_of command ≡ words.with_commands words.program
        (map usage_of usages.now)) }
{
    let mut psyn = program(alloc);
    for usage in usages {
        psyn = with_command(alloc, psyn, usage.name, usage.flags)?;
    }
    Ok(psyn)
}

/// The program without commands. Its name begins no line.
fn program<'a>(alloc: Global) -> Command<'a>
    ensures { app_of result ≡ words.program }
{
    Command::new(alloc, "psyn")
        .no_binary_name(true)
        .disable_help_subcommand(true)
}

fn with_command<'a>(
    alloc: Global,
    psyn: Command<'a>,
    name: &'a str,
    flags: &[&'a str],
) -> Result<Command<'a>, AllocError>
    ensures { IfOk result (λ command. app_of command ≡ with_subcommand (app_of psyn.entry)
        (words.command_with name.now (map (λ flag. flag.now) flags.now))) }
{
    psyn.subcommand(command_with(alloc, name, flags)?)
}

fn command_with<'a>(
    alloc: Global,
    name: &'a str,
    flags: &[&'a str],
) -> Result<Command<'a>, AllocError>
    ensures { IfOk result (words.HasFlags name.now (map (λ flag. flag.now) flags.now)) }
{
    let mut command = Command::new(alloc, name);
    for given in flags {
        command = command.arg(flag(alloc, given))?;
    }
    Ok(command)
}

fn line_of(matches: &ArgMatches) -> Line
    ensures { result ≡ line_said (subcommand_rows_of matches.now) }
{
    match matches.subcommand() {
        Some((name, flags)) => line_named(name, flags),
        None => Line::Refused,
    }
}

fn line_named(name: &str, flags: &ArgMatches) -> Line
    ensures { result ≡ words.line_named name.now (λ flag. words.is_given flag (rows_of (found_of flags.now))) }
{
    match usage_named(usages(), name) {
        Some(usage) => usage.line.with(flags),
        None => Line::Refused,
    }
}

fn usage_named<'a>(usages: &'a [Usage<'a>], name: &str) -> Option<&'a Usage<'a>>
    ensures { option_copied result ≡ find (λ usage. bytes_eq usage.name.now name.now) usages.now }
{
    usages.iter().find(|usage| usage.name == name)
}

/// A controller, or with `--env` an environment.
pub fn role_given(flags: &ArgMatches) -> Role
    ensures { result ≡ words.role_given (λ name. words.is_given name (rows_of (found_of flags.now))) }
{
    if is_given(flags, ENV_FLAG) {
        Role::Environment
    } else {
        Role::Controller
    }
}

/// `lasso`, or with `--tlsf` the same by a specification.
pub fn lasso_given(flags: &ArgMatches) -> Line
    ensures { result ≡ words.lasso_given (λ name. words.is_given name (rows_of (found_of flags.now))) }
{
    let role = role_given(flags);
    if is_given(flags, TLSF_FLAG) {
        Line::LassoTlsf(role)
    } else {
        Line::Lasso(role)
    }
}

/// `verify`, or with `--tlsf` the same by a specification, which states the order of moves, so that `--moore` is
/// refused.
pub fn verify_given(flags: &ArgMatches) -> Line
    ensures { result ≡ words.verify_given (λ name. words.is_given name (rows_of (found_of flags.now))) }
{
    let role = role_given(flags);
    let order = order_given(flags);
    if !is_given(flags, TLSF_FLAG) {
        Line::Verify { order, role }
    } else if is_given(flags, MOORE_FLAG) {
        Line::Refused
    } else {
        Line::VerifyTlsf(role)
    }
}

/// `shrink`, or with `--tlsf` the same by a specification; `--moore` is refused as by `verify`.
pub fn shrink_given(flags: &ArgMatches) -> Line
    ensures { result ≡ words.shrink_given (λ name. words.is_given name (rows_of (found_of flags.now))) }
{
    let role = role_given(flags);
    let order = order_given(flags);
    if !is_given(flags, TLSF_FLAG) {
        Line::Shrink { order, role }
    } else if is_given(flags, MOORE_FLAG) {
        Line::Refused
    } else {
        Line::ShrinkTlsf(role)
    }
}

/// `synth`, or with `--tlsf` the same for a specification. Other flags are refused with it: a specification states the
/// order of moves, and only the circuit is printed.
pub fn synth_given(flags: &ArgMatches) -> Line
    ensures { result ≡ words.synth_line_given (λ name. words.is_given name (rows_of (found_of flags.now))) }
{
    let asked = asked_given(flags);
    if !is_given(flags, TLSF_FLAG) {
        Line::Synth(asked)
    } else if asked.full || asked.cert || is_given(flags, MOORE_FLAG) || asked.compact {
        Line::Refused
    } else {
        Line::SynthTlsf
    }
}

fn asked_given(flags: &ArgMatches) -> SynthLine
    ensures { result ≡ words.synth_given (λ name. words.is_given name (rows_of (found_of flags.now))) }
{
    SynthLine {
        full: is_given(flags, FULL_FLAG),
        cert: is_given(flags, CERT_FLAG),
        order: order_given(flags),
        compact: is_given(flags, COMPACT_FLAG),
    }
}

/// Inputs before outputs, or with `--moore` outputs before inputs.
pub fn order_given(flags: &ArgMatches) -> Order
    ensures { result ≡ words.order_given (λ name. words.is_given name (rows_of (found_of flags.now))) }
{
    if is_given(flags, MOORE_FLAG) {
        Order::Moore
    } else {
        Order::Mealy
    }
}

/// Whether the flag is given.
pub fn is_given(flags: &ArgMatches, name: &str) -> bool
    ensures { result ≡ words.is_given name.now (rows_of (found_of flags.now)) }
{
    match flags.get_str(name) {
        Some(text) => text == "true",
        None => false,
    }
}
