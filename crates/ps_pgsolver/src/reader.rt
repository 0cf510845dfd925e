//! The parser of game texts.

ghost use Rattle.std.specs.Prelude.{◌≡◌, ◌≤◌, ◌<◌, Some, None, Ok, IfOk, OnOk, option_copied, IfErr, length, vec_len};
ghost use Rattle.ps_text.specs.declared.faults.Fault.TheVariants as faults;
ghost use Rattle.std.specs.List.{Contains};
ghost use Rattle.ps_text.specs.Answers.{next_of, offset_of};
ghost use Rattle.ps_text.specs.Readers.{tail};
ghost use Rattle.ps_game.specs.Games.{HasNoQuote};
ghost use Rattle.ps_game.specs.Names.{name_bytes};
ghost use Rattle.ps_pgsolver.specs.Inner.Answered.{ReadsAs, ReadsKnown, AddsKnown, TextAnswers, FaultAnswers};
ghost use Rattle.ps_pgsolver.specs.Inner.Answered.{KnownAnswers};
ghost use Rattle.ps_pgsolver.specs.Inner.Answered.{found_of, number_answer, id_of_number, owner_of_number};
ghost use Rattle.ps_pgsolver.specs.Inner.Answered.{successor_of_number, successor_answer, first_answer};
ghost use Rattle.ps_pgsolver.specs.Inner.Answered.{semicolon_answer, end_answer};
ghost use Rattle.ps_pgsolver.specs.GameTexts as parts;
ghost use Rattle.ps_pgsolver.specs.Causes.{StandsWithin};
ghost use Rattle.ps_pgsolver.specs.Heads.{IsPlain, sign_of};
ghost use Rattle.ps_pgsolver.specs.Lexer.{stream_of};
ghost use Rattle.ps_pgsolver.specs.Reading.{IsGameAnswer};
ghost use Rattle.ps_pgsolver.specs.Inner.Kept.{node_with};
ghost use Rattle.ps_pgsolver.specs.Nodes.{IsNewNode, KnowsEach, KnowsNode, KnowsAll, ids_of};

use crate::fault::{PgCause, PgFault};
use crate::game::named_game;
use crate::node::{Node, Nodes};
use crate::token::{Kind, Token, Tokens};
use ps_game::{NamedGame, Player};
use ps_ids::Ids;
use std::alloc::Global;

/// The most bytes of a game text.
const TEXT_LIMIT: usize = 16_777_216;

/// Parses a game text. Fails with its first error and the offset, or if out of memory. In a text that is too long, only
/// this is reported; a successor that is the id of no node, only if there is no other error: its node may come later.
pub fn read(alloc: Global, text: &[u8]) -> Result<NamedGame, PgFault>
    ensures answer { IsGameAnswer text.now result }
    ensures within { IfErr result (StandsWithin (length text.now)) }
{
    if text.len() > TEXT_LIMIT {
        return Err(PgFault::Text {
            cause: PgCause::Limit,
            offset: TEXT_LIMIT,
        });
    }
    let nodes = game_text(alloc, text, None)?;
    if !nodes.know_successors() {
        return Err(unknown_successor(alloc, text, &nodes));
    }
    named_game(alloc, nodes)
}

/// The fault at the first successor that is the id of no node, found by parsing again.
fn unknown_successor(alloc: Global, text: &[u8], nodes: &Nodes) -> PgFault
    requires read { TextAnswers None (stream_of text.now) (Ok nodes.now) }
    requires some { KnowsAll (ids_of nodes.now) nodes.now → ⊥ }
    ensures { FaultAnswers (Some (ids_of nodes.now)) (stream_of text.now) (found_of result) }
{
    match game_text(alloc, text, Some(nodes.ids())) {
        Ok(_) => unreachable!(),
        Err(fault) => fault,
    }
}

fn fault(cause: PgCause, token: Token) -> PgFault
    ensures { result ≡ faults.Text cause token.entry.start }
{
    PgFault::Text {
        cause,
        offset: token.start,
    }
}

/// Parses a whole text. If the ids are known, each successor must be one of them.
fn game_text(alloc: Global, text: &[u8], known: Option<&Ids>) -> Result<Nodes, PgFault>
    ensures answer { TextAnswers (option_copied known.entry) (stream_of text.now) result }
    ensures later { KnownAnswers (stream_of text.now) result }
{
    let mut tokens = Tokens::new(text);
    let _parity = setting(&mut tokens, b"parity")?;
    let _start = setting(&mut tokens, b"start")?;
    let nodes = entries(alloc, &mut tokens, known)?;
    finish(&tokens)?;
    Ok(nodes)
}

/// Parses a line such as `parity 7;`, if this word comes next.
fn setting(tokens: &mut Tokens, word: &[u8]) -> Result<(), PgFault>
    ensures { ReadsAs (λ u. u) (parts.setting word.now) tokens.old result tokens.new }
{
    if tokens.is_at_word(word) {
        tokens.next();
        value_line(tokens)?;
    }
    Ok(())
}

/// Parses its number, which has no meaning, and the semicolon.
fn value_line(tokens: &mut Tokens) -> Result<(), PgFault>
    ensures { ReadsAs (λ u. u) parts.value_line tokens.old result tokens.new }
{
    number(tokens)?;
    semicolon(tokens)
}

/// Parses the nodes, with one list for the successors of each.
fn entries(alloc: Global, tokens: &mut Tokens, known: Option<&Ids>) -> Result<Nodes, PgFault>
    ensures part { ReadsAs (λ nodes. nodes) (parts.entries (option_copied known.entry)) tokens.old result tokens.new }
    ensures later { ReadsKnown KnowsAll (λ nodes. nodes) parts.entries tokens.old result tokens.new }
{
    let mut nodes = Nodes::new(alloc)?;
    let mut list = Vec::new(alloc);
    entry(alloc, tokens, known, &mut nodes, &mut list)?;
    'more: while tokens.is_at_number() {
        entry(alloc, tokens, known, &mut nodes, &mut list)?;
    }
    Ok(nodes)
}

/// Parses a node, and appends it.
fn entry(
    alloc: Global,
    tokens: &mut Tokens,
    known: Option<&Ids>,
    nodes: &mut Nodes,
    list: &mut Vec<usize>,
) -> Result<(), PgFault>
    ensures part { ReadsAs (λ _. nodes.new) (parts.entry (option_copied known.entry) nodes.old) tokens.old
        result tokens.new }
    ensures later { AddsKnown KnowsAll nodes.old nodes.new (λ ids. parts.entry ids nodes.old) tokens.old
        result tokens.new }
{
    let node = node(alloc, tokens, known, nodes, list)?;
    nodes.push(node, list)?;
    Ok(())
}

/// Parses a node with a new id, and puts its successors into `list`.
fn node(
    alloc: Global,
    tokens: &mut Tokens,
    known: Option<&Ids>,
    nodes: &Nodes,
    list: &mut Vec<usize>,
) -> Result<Node, PgFault>
    ensures part { ReadsAs (λ node. node_with node list.new.items)
        (parts.node (option_copied known.entry) (ids_of nodes.now)) tokens.old result tokens.new }
    ensures later { ReadsKnown KnowsNode (λ node. node_with node list.new.items)
        (λ ids. parts.node ids (ids_of nodes.now)) tokens.old result tokens.new }
    ensures node { IfOk result (λ node. IsNewNode (ids_of nodes.now) (node_with node list.new.items)) }
{
    let id = new_id(tokens, nodes)?;
    let priority = number(tokens)?;
    let owner = owner(tokens)?;
    successors(tokens, known, list)?;
    let name = name(alloc, tokens)?;
    semicolon(tokens)?;
    Ok(Node {
        id,
        priority,
        owner,
        name,
    })
}

#[inline(always)]
fn new_id(tokens: &mut Tokens, nodes: &Nodes) -> Result<u64, PgFault>
    ensures part { ReadsAs (λ id. id) (parts.new_id (ids_of nodes.now)) tokens.old result tokens.new }
    ensures new { IfOk result (λ id. ¬ Contains (ids_of nodes.now) id) }
{
    let start = tokens.start();
    let id = any_number_at(tokens, start)?;
    unless_twice(id, start, nodes)
}

#[inline(always)]
fn number(tokens: &mut Tokens) -> Result<u64, PgFault>
    ensures { ReadsAs (λ n. n) parts.number tokens.old result tokens.new }
{
    let start = tokens.start();
    any_number_at(tokens, start)
}

/// Parses a number that fits, which begins at `start`.
#[inline(always)]
fn any_number_at(tokens: &mut Tokens, start: usize) -> Result<u64, PgFault>
    requires { start ≡ offset_of tokens.old.pieces tokens.old.end }
    ensures answer { result ≡ number_answer (next_of tokens.old) start }
    ensures rest { tokens.new ≡ tail tokens.old }
{
    match tokens.take_number_at(start) {
        Some(number) => Ok(number),
        None => number_of(tokens.next()),
    }
}

#[inline(always)]
fn owner(tokens: &mut Tokens) -> Result<Player, PgFault>
    ensures part { ReadsAs (λ n. n) parts.owner tokens.old result tokens.new }
    ensures player { IfOk result (λ owner. owner < 2) }
{
    let start = tokens.start();
    let owner = any_number_at(tokens, start)?;
    one_of_two(owner, start)
}

/// Puts a node's successors into `list`.
fn successors(
    tokens: &mut Tokens,
    known: Option<&Ids>,
    list: &mut Vec<usize>,
) -> Result<(), PgFault>
    ensures part { ReadsAs (λ _. list.new.items) (parts.successors (option_copied known.entry)) tokens.old
        result tokens.new }
    ensures later { ReadsKnown KnowsEach (λ _. list.new.items) parts.successors tokens.old result tokens.new }
    ensures some { OnOk result (0 < vec_len list.new) }
{
    list.clear();
    list.push(first_successor(tokens, known)? as usize)?;
    'more: while tokens.take_comma() {
        let id = successor(tokens, known)?;
        list.push(id as usize)?;
    }
    Ok(())
}

/// Parses the first successor, which must be there.
fn first_successor(tokens: &mut Tokens, known: Option<&Ids>) -> Result<u64, PgFault>
    ensures part { ReadsAs (λ n. n) (parts.first_successor (option_copied known.entry)) tokens.old result tokens.new }
    ensures later { ReadsKnown Contains (λ n. n) parts.first_successor tokens.old result tokens.new }
{
    let start = tokens.start();
    match tokens.take_number_at(start) {
        Some(id) => if_known(id, start, known),
        None => first_of(tokens.next(), known),
    }
}

#[inline(always)]
fn successor(tokens: &mut Tokens, known: Option<&Ids>) -> Result<u64, PgFault>
    ensures part { ReadsAs (λ n. n) (parts.successor (option_copied known.entry)) tokens.old result tokens.new }
    ensures later { ReadsKnown Contains (λ n. n) parts.successor tokens.old result tokens.new }
{
    let start = tokens.start();
    let id = any_number_at(tokens, start)?;
    if_known(id, start, known)
}

#[inline(always)]
fn name(alloc: Global, tokens: &mut Tokens) -> Result<Option<Vec<u8>>, PgFault>
    ensures part { ReadsAs name_bytes parts.name tokens.old result tokens.new }
    ensures plain { IfOk result (λ name. HasNoQuote (name_bytes name)) }
{
    let Some(bytes) = tokens.next_name() else {
        return Ok(None);
    };
    tokens.next();
    Ok(Some(bytes.to_vec(alloc)?))
}

#[inline(always)]
fn semicolon(tokens: &mut Tokens) -> Result<(), PgFault>
    ensures { ReadsAs (λ u. u) parts.semicolon tokens.old result tokens.new }
{
    if tokens.take_semicolon() {
        return Ok(());
    }
    semicolon_of(tokens.next())
}

fn finish(tokens: &Tokens) -> Result<(), PgFault>
    ensures { result ≡ end_answer (next_of tokens.now) (offset_of tokens.now.pieces tokens.now.end) }
{
    let token = tokens.peek();
    match token.kind {
        Kind::End => Ok(()),
        _ => Err(fault(PgCause::Syntax, token)),
    }
}

#[inline(always)]
fn unless_twice(id: u64, start: usize, nodes: &Nodes) -> Result<u64, PgFault>
    ensures answer { result ≡ id_of_number (ids_of nodes.now) start id }
    ensures new { IfOk result (λ id. ¬ Contains (ids_of nodes.now) id) }
{
    if nodes.has(id) {
        return Err(PgFault::Text {
            cause: PgCause::NodeTwice,
            offset: start,
        });
    }
    Ok(id)
}

#[inline(always)]
fn one_of_two(owner: u64, start: usize) -> Result<Player, PgFault>
    ensures answer { result ≡ owner_of_number start owner }
    ensures player { IfOk result (λ owner. owner < 2) }
{
    match owner {
        0 => Ok(Player::EVEN),
        1 => Ok(Player::ODD),
        _ => Err(PgFault::Text {
            cause: PgCause::Number,
            offset: start,
        }),
    }
}

/// The number as a successor, if it is one of the known ids, or these are not known.
#[inline(always)]
fn if_known(id: u64, start: usize, known: Option<&Ids>) -> Result<u64, PgFault>
    ensures { result ≡ successor_of_number (option_copied known.entry) start id }
{
    if let Some(ids) = known
        && !ids.has(id)
    {
        return Err(PgFault::Text {
            cause: PgCause::UnknownSuccessor,
            offset: start,
        });
    }
    Ok(id)
}

/// The successor that a token is, or its error.
fn successor_of(token: Token, known: Option<&Ids>) -> Result<u64, PgFault>
    requires { IsPlain token.kind }
    ensures { result ≡ successor_answer (option_copied known.entry) (sign_of token.entry.kind) token.entry.start }
{
    let id = number_of(token)?;
    if_known(id, token.start, known)
}

/// The same for the first successor.
fn first_of(token: Token, known: Option<&Ids>) -> Result<u64, PgFault>
    requires { IsPlain token.kind }
    ensures { result ≡ first_answer (option_copied known.entry) (sign_of token.entry.kind) token.entry.start }
{
    match token.kind {
        Kind::Semicolon => Err(fault(PgCause::NoSuccessor, token)),
        Kind::Name(_) => Err(fault(PgCause::NoSuccessor, token)),
        Kind::OpenName => Err(fault(PgCause::NoSuccessor, token)),
        _ => successor_of(token, known),
    }
}

fn semicolon_of(token: Token) -> Result<(), PgFault>
    ensures { result ≡ semicolon_answer (sign_of token.entry.kind) token.entry.start }
{
    match token.kind {
        Kind::Semicolon => Ok(()),
        _ => Err(fault(PgCause::Syntax, token)),
    }
}

#[tactic(auto, using(crate::proofs::TokensOfGames::NumberTokens::number_small, crate::proofs::TokensOfGames::NumberTokens::number_large))]
fn number_of(token: Token) -> Result<u64, PgFault>
    requires { IsPlain token.kind }
    ensures { result ≡ number_answer (sign_of token.entry.kind) token.entry.start }
{
    match token.kind {
        Kind::Number(value) => Ok(value),
        Kind::LargeNumber(_) => Err(fault(PgCause::Number, token)),
        _ => Err(fault(PgCause::Syntax, token)),
    }
}
