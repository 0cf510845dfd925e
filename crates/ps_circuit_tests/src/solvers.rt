//! The solver `Replay`, which is fed the text of a certificate.

use ps_game::NamedGame;
use ps_machine::{Replay, SolveFault, Solver};
use ps_pgsolver::{PgFault, read};
use std::alloc::{AllocError, Global};
use std::test::Fail;

/// Two vertices of player 1.
const GAME: &[u8] = b"7 0 1 9; 9 1 1 9;";

/// The number of the certificate's entries, or the offset at which its text is rejected, or `None` for any other fault.
type Answer = Result<usize, Option<usize>>;

fn answer(solver: &mut Replay, game: &NamedGame) -> Answer {
    match solver.solve(game) {
        Ok(certificate) => Ok(certificate.entries.len()),
        Err(SolveFault::Text { offset, .. }) => Err(Some(offset)),
        Err(_) => Err(None),
    }
}

/// The answer, or after a fault without an offset a second one: an allocation may have failed, by `rt try --test
/// --fail-alloc N`.
fn answer_again(solver: &mut Replay, game: &NamedGame) -> Answer {
    match answer(solver, game) {
        Err(None) => answer(solver, game),
        answer => answer,
    }
}

/// Feeds a text, and tries again if an allocation failed.
fn feed(solver: &mut Replay, text: &[u8]) -> Result<(), AllocError> {
    match solver.feed(text) {
        Ok(()) => Ok(()),
        Err(_) => solver.feed(text),
    }
}

/// Before any text, after one that ends early, and after a whole one.
type Answers = [Answer; 3];

fn answers_for(alloc: Global, game: &NamedGame) -> Result<Answers, Fail> {
    let mut solver = Replay::new(alloc);
    let none = answer_again(&mut solver, game);
    feed(&mut solver, b"psyncert 1\n")?;
    let early = answer_again(&mut solver, game);
    feed(
        &mut solver,
        b"psyncert 1\nvertices 2\nodd 1\neven 0\n7 1 9 0\n9 1 - 12\n",
    )?;
    Ok([none, early, answer_again(&mut solver, game)])
}

/// The game of a text, parsed again after any failure.
fn game_of(alloc: Global, text: &[u8]) -> Result<NamedGame, PgFault> {
    match read(alloc, text) {
        Ok(game) => Ok(game),
        Err(_) => read(alloc, text),
    }
}

fn answers_of(alloc: Global, text: &[u8]) -> Result<Answers, Fail> {
    let game = game_of(alloc, text)?;
    answers_for(alloc, &game)
}

#[test]
fn the_text_that_was_fed_last_is_answered(rt: HostRuntime) -> Result<(), Fail> {
    assert_eq!(rt;
        answers_of(rt.alloc(), GAME)?,
        [Err(Some(0)), Err(Some(11)), Ok(2)]
    );
    Ok(())
}
