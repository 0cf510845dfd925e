//! The parser of solutions.

ghost use Rattle.std.specs.Prelude.{◌≡◌, ◌<◌, length, IfOk, IfSome, codes};
ghost use Rattle.ps_text.specs.Answers.{next_of, offset_of};
ghost use Rattle.ps_text.specs.Readers.{tail};
ghost use Rattle.ps_text.specs.declared.faults.Fault.TheVariants as faults;
ghost use Rattle.ps_game.specs.Games.{vertex_count};
ghost use Rattle.ps_pgsolver.specs.Heads.{IsPlain, sign_of};
ghost use Rattle.ps_pgsolver.specs.Lexer.{stream_of};
ghost use Rattle.ps_solution.specs.Inner.Answered.{ReadsAs, TextAnswers, value_answer, any_of_number, vertex_of_number};
ghost use Rattle.ps_solution.specs.Inner.Answered.{winner_of_number, successor_of_number, semicolon_answer, end_answer};
ghost use Rattle.ps_solution.specs.Reading.{IsSolutionAnswer};
ghost use Rattle.ps_solution.specs.Solved.{AreMoves};
ghost use Rattle.ps_solution.specs.Texts as parts;

use crate::solution::Solution;
use crate::solved::Solved;
use ps_certificate::{CertCause, CertFault, ids_of};
use ps_game::{Arena, NamedGame, Player};
use ps_ids::Ids;
use ps_pgsolver::{Kind, Token, Tokens};
use std::alloc::Global;

/// Parses a solution, with indices for ids. Fails with the first error of the text and the offset of its token; with
/// `OtherGame` at the end of the text if there is no other error, but some vertex has no entry; or if out of memory.
pub fn read(alloc: Global, text: &[u8], game: &NamedGame) -> Result<Solution, CertFault>
    ensures answer { IsSolutionAnswer game.now.ids text.now result }
    ensures won { IfOk result (λ solution. length solution.won ≡ vertex_count game.now.game) }
    ensures moves { IfOk result (λ solution. length solution.moves ≡ vertex_count game.now.game) }
    ensures within { IfOk result (λ solution. AreMoves (vertex_count game.now.game) solution.moves) }
{
    let _vertices = game.game().count();
    let ids = ids_of(alloc, game)?;
    let solved = solution_text(alloc, text, &ids)?;
    if !solved.is_whole() {
        return Err(CertFault::Text {
            cause: CertCause::OtherGame,
            offset: text.len(),
        });
    }
    Ok(solved.into_solution())
}

fn fault(cause: CertCause, offset: usize) -> CertFault
    ensures { result ≡ faults.Text cause offset }
{
    CertFault::Text { cause, offset }
}

/// Parses a whole text.
fn solution_text(alloc: Global, text: &[u8], ids: &Ids) -> Result<Solved, CertFault>
    ensures answer { TextAnswers ids.now (stream_of text.now) result }
    ensures places { IfOk result (λ solved. length solved.named ≡ length ids.now) }
{
    let mut tokens = Tokens::new(text);
    heading(&mut tokens)?;
    let solved = entries(alloc, &mut tokens, ids)?;
    finish(&tokens)?;
    Ok(solved)
}

/// Parses a line such as `paritysol 7;`, if it comes first.
fn heading(tokens: &mut Tokens) -> Result<(), CertFault>
    ensures { ReadsAs (λ u. u) parts.heading tokens.old result tokens.new }
{
    if tokens.is_at_word(b"paritysol") {
        tokens.next();
        value_line(tokens)?;
    }
    Ok(())
}

/// Parses its number, which has no meaning, and the semicolon.
fn value_line(tokens: &mut Tokens) -> Result<(), CertFault>
    ensures { ReadsAs (λ u. u) parts.value_line tokens.old result tokens.new }
{
    number(tokens)?;
    semicolon(tokens)
}

fn entries(alloc: Global, tokens: &mut Tokens, ids: &Ids) -> Result<Solved, CertFault>
    ensures part { ReadsAs (λ solved. solved) (parts.entries ids.now) tokens.old result tokens.new }
    ensures places { IfOk result (λ solved. length solved.named ≡ length ids.now) }
{
    let mut solved = Solved::new(alloc, ids.list().len())?;
    entry(tokens, ids, &mut solved)?;
    'more: while tokens.is_at_number() {
        entry(tokens, ids, &mut solved)?;
    }
    Ok(solved)
}

/// Parses an entry, and adds it.
fn entry(tokens: &mut Tokens, ids: &Ids, solved: &mut Solved) -> Result<(), CertFault>
    requires { length solved.old.named ≡ length ids.now }
    ensures part { ReadsAs (λ _. solved.new) (parts.entry ids.now solved.old) tokens.old result tokens.new }
    ensures places { length solved.new.named ≡ length ids.now }
{
    let vertex = vertex(tokens, ids, solved)?;
    let winner = winner(tokens)?;
    let choice = choice(tokens, ids)?;
    semicolon(tokens)?;
    solved.name(vertex, winner, choice);
    Ok(())
}

/// Parses the id of a vertex that has no entry yet, for its index.
fn vertex(tokens: &mut Tokens, ids: &Ids, solved: &Solved) -> Result<usize, CertFault>
    requires { length solved.now.named ≡ length ids.now }
    ensures part { ReadsAs (λ v. v) (parts.vertex ids.now solved.now) tokens.old result tokens.new }
    ensures within { IfOk result (λ v. v < length ids.now) }
{
    let start = tokens.start();
    let id = any_number(tokens)?;
    unless_named(id, start, ids, solved)
}

fn winner(tokens: &mut Tokens) -> Result<Player, CertFault>
    ensures { ReadsAs (λ w. w) parts.winner tokens.old result tokens.new }
{
    let start = tokens.start();
    let winner = any_number(tokens)?;
    one_of_two(winner, start)
}

/// Parses a move, if a number comes next.
fn choice(tokens: &mut Tokens, ids: &Ids) -> Result<Option<usize>, CertFault>
    ensures part { ReadsAs (λ c. c) (parts.choice ids.now) tokens.old result tokens.new }
    ensures within { IfOk result (λ c. IfSome c (λ v. v < length ids.now)) }
{
    if !tokens.is_at_number() {
        return Ok(None);
    }
    let successor = successor(tokens, ids)?;
    Ok(Some(successor))
}

/// Parses the id of any vertex, for its index.
fn successor(tokens: &mut Tokens, ids: &Ids) -> Result<usize, CertFault>
    ensures part { ReadsAs (λ v. v) (parts.successor ids.now) tokens.old result tokens.new }
    ensures within { IfOk result (λ v. v < length ids.now) }
{
    let start = tokens.start();
    let id = any_number(tokens)?;
    if_known(id, start, ids)
}

fn number(tokens: &mut Tokens) -> Result<u64, CertFault>
    ensures { ReadsAs (λ n. n) parts.number tokens.old result tokens.new }
{
    any_number(tokens)
}

fn semicolon(tokens: &mut Tokens) -> Result<(), CertFault>
    ensures { ReadsAs (λ u. u) parts.semicolon tokens.old result tokens.new }
{
    if tokens.take_semicolon() {
        return Ok(());
    }
    semicolon_of(tokens.next())
}

/// Parses a number that fits.
fn any_number(tokens: &mut Tokens) -> Result<u64, CertFault>
    ensures answer { result ≡ value_answer any_of_number (next_of tokens.old)
        (offset_of tokens.old.pieces tokens.old.end) }
    ensures rest { tokens.new ≡ tail tokens.old }
{
    match tokens.take_number() {
        Some(number) => Ok(number),
        None => number_of(tokens.next()),
    }
}

fn finish(tokens: &Tokens) -> Result<(), CertFault>
    ensures { result ≡ end_answer (next_of tokens.now) (offset_of tokens.now.pieces tokens.now.end) }
{
    let token = tokens.peek();
    match token.kind {
        Kind::End => Ok(()),
        _ => Err(fault(CertCause::Syntax, token.start)),
    }
}

/// The index of a vertex by its id, if it has no entry yet.
fn unless_named(id: u64, start: usize, ids: &Ids, solved: &Solved) -> Result<usize, CertFault>
    requires { length solved.now.named ≡ length ids.now }
    ensures answer { result ≡ vertex_of_number ids.now solved.now start id }
    ensures within { IfOk result (λ v. v < length ids.now) }
{
    match ids.place(id) {
        Some(place) if !solved.has(place) => Ok(place),
        _ => Err(fault(CertCause::OtherGame, start)),
    }
}

fn one_of_two(winner: u64, start: usize) -> Result<Player, CertFault>
    ensures { result ≡ winner_of_number start winner }
{
    match winner {
        0 => Ok(Player::EVEN),
        1 => Ok(Player::ODD),
        _ => Err(fault(CertCause::Syntax, start)),
    }
}

/// The index of a vertex by its id, if there is one.
fn if_known(id: u64, start: usize, ids: &Ids) -> Result<usize, CertFault>
    ensures answer { result ≡ successor_of_number ids.now start id }
    ensures within { IfOk result (λ v. v < length ids.now) }
{
    match ids.place(id) {
        Some(place) => Ok(place),
        None => Err(fault(CertCause::OtherGame, start)),
    }
}

fn semicolon_of(token: Token) -> Result<(), CertFault>
    ensures { result ≡ semicolon_answer (sign_of token.entry.kind) token.entry.start }
{
    match token.kind {
        Kind::Semicolon => Ok(()),
        _ => Err(fault(CertCause::Syntax, token.start)),
    }
}

fn number_of(token: Token) -> Result<u64, CertFault>
    requires { IsPlain token.kind }
    ensures { result ≡ value_answer any_of_number (sign_of token.entry.kind) token.entry.start }
{
    match token.kind {
        Kind::Number(value) => Ok(value),
        _ => Err(fault(CertCause::Syntax, token.start)),
    }
}
