//! The types, fields, variants and calls that users of the libraries for games name, each with its type. It compiles
//! only as long as they stay as they are: a value is taken apart by a pattern that names all its parts.
//! `GameBuilder::vertex` and `edge` are named in `games`, `attract` in `solvers`, and the calls of regions in
//! `regions`.

use ps_attractor::Attracted;
use ps_certificate::{
    CertCause, CertFault, Certificate, Entries, Entry, Flaw, Row, check, closed, fits,
};
use ps_game::{
    Arena, Counts, Game, GameBuilder, GameFault, NamedGame, Player, Region, Strategy, Subgame,
};
use ps_measure::{CountTable, MeasureFault, Ranks, ranks};
use ps_pgsolver::{PgCause, PgFault};
use ps_zielonka::regions;
use std::alloc::{AllocError, Global};

/// A vertex's owner, priority and number of successors.
fn vertex<A: Arena>(arena: &A, vertex: usize) -> Option<(u8, u64, usize)> {
    let count: usize = arena.count();
    if vertex >= count {
        return None;
    }
    Some((
        arena.owner(vertex),
        arena.priority(vertex),
        arena.degree(vertex),
    ))
}

fn first_successor<A: Arena>(arena: &A, vertex: usize) -> Option<usize> {
    if vertex < arena.count() && arena.degree(vertex) > 0 {
        Some(arena.successor(vertex, 0))
    } else {
        None
    }
}

fn finished(builder: GameBuilder) -> Result<Game, GameFault> {
    builder.finish()
}

/// Why a draft is no game.
fn draft_fault(fault: GameFault) -> Option<(usize, Option<usize>)> {
    match fault {
        GameFault::NoSuccessor { vertex } => Some((vertex, None)),
        GameFault::UnknownSuccessor { vertex, successor } => Some((vertex, Some(successor))),
        GameFault::OutOfMemory => None,
    }
}

/// A game with ids and names, here none.
fn named(alloc: Global, game: Game) -> Option<NamedGame> {
    if game.count() > 0 {
        return None;
    }
    let ids: Vec<u64> = Vec::new(alloc);
    let names: Vec<Option<Vec<u8>>> = Vec::new(alloc);
    Some(NamedGame::new(game, ids, names))
}

/// A vertex's id, and its name if it has one.
fn id_and_name(named: &NamedGame, vertex: usize) -> Option<(u64, Option<&[u8]>)> {
    let game: &Game = named.game();
    if vertex < game.count() {
        Some((named.id(vertex), named.name(vertex)))
    } else {
        None
    }
}

/// A strategy's move, if there is one.
fn choice(strategy: &Strategy, vertex: usize) -> Option<usize> {
    if vertex < strategy.places() {
        strategy.get(vertex)
    } else {
        None
    }
}

fn subgame<A: Arena>(arena: &A, region: Region) -> Option<Subgame> {
    if region.places() == arena.count() {
        Subgame::find(arena, region)
    } else {
        None
    }
}

fn game_of(alloc: Global, text: &[u8]) -> Result<NamedGame, PgFault> {
    ps_pgsolver::read(alloc, text)
}

fn text_of(alloc: Global, named: &NamedGame) -> Option<Result<Vec<u8>, AllocError>> {
    if named.game().count() > 0 {
        Some(ps_pgsolver::write(alloc, named))
    } else {
        None
    }
}

/// The causes of a game text's fault.
fn game_cause(fault: PgFault) -> Option<PgCause> {
    match fault {
        PgFault::Text { cause, offset: _ } => match cause {
            PgCause::Syntax
            | PgCause::NoSuccessor
            | PgCause::UnknownSuccessor
            | PgCause::NodeTwice
            | PgCause::Number
            | PgCause::Limit => Some(cause),
        },
        PgFault::OutOfMemory => None,
    }
}

/// An attractor: a region with moves and ranks.
fn attracted(attracted: Attracted) -> (Region, Strategy, Vec<usize>) {
    let Attracted {
        region,
        moves,
        rank,
    } = attracted;
    (region, moves, rank)
}

/// The region of player 0 with both players' moves.
fn solved<A: Arena>(
    alloc: Global,
    arena: &A,
    counts: &mut Counts,
) -> Result<(Region, Strategy, Strategy), AllocError> {
    regions(alloc, arena, counts)
}

/// What a solver counts.
fn counted(counts: Counts) -> (u64, u128) {
    let Counts { depth, raises } = counts;
    (depth, raises)
}

/// The least counts of a region, by its player's moves.
fn least<A: Arena>(
    alloc: Global,
    arena: &A,
    player: Player,
    (region, strategy): (&Region, &Strategy),
    counts: &mut Counts,
) -> Option<Result<Ranks, MeasureFault>> {
    if region.places() == arena.count() && strategy.places() == arena.count() {
        Some(ranks(alloc, arena, player, region, strategy, counts))
    } else {
        None
    }
}

/// Counts, by priority.
fn listed(ranks: Ranks) -> (Vec<u64>, CountTable) {
    let Ranks { priorities, counts } = ranks;
    (priorities, counts)
}

/// A cycle that the player loses.
fn cycle(fault: MeasureFault) -> Option<Vec<usize>> {
    match fault {
        MeasureFault::BadCycle { cycle } => Some(cycle),
        MeasureFault::OutOfMemory => None,
    }
}

/// The priorities of both parities, and the entries.
fn certificate(certificate: Certificate) -> (Vec<u64>, Vec<u64>, Entries) {
    let Certificate { odd, even, entries } = certificate;
    (odd, even, entries)
}

/// An entry that is added: a winner, a move or none, and counts.
fn entry<'a>(entry: Entry<'a>) -> (Player, Option<usize>, &'a [u64]) {
    let Entry {
        winner,
        choice,
        counts,
    } = entry;
    (winner, choice, counts)
}

/// An entry that is read.
fn entry_at(certificate: &Certificate, vertex: usize) -> Option<(u8, Option<usize>, Row<'_>)> {
    if vertex >= certificate.entries.len() {
        return None;
    }
    Some((
        certificate.winner(vertex),
        certificate.choice(vertex),
        certificate.counts(vertex),
    ))
}

fn certificate_of(alloc: Global, text: &[u8], game: &NamedGame) -> Result<Certificate, CertFault> {
    ps_certificate::read(alloc, text, game)
}

/// The text of a certificate that fits the game.
fn certificate_text(
    alloc: Global,
    certificate: &Certificate,
    game: &NamedGame,
) -> Option<Result<Vec<u8>, AllocError>> {
    if fits(game.game(), certificate) {
        Some(ps_certificate::write(alloc, certificate, game))
    } else {
        None
    }
}

/// The causes of a certificate text's fault.
fn certificate_cause(fault: CertFault) -> Option<CertCause> {
    match fault {
        CertFault::Text { cause, offset: _ } => match cause {
            CertCause::Syntax | CertCause::OtherGame => Some(cause),
        },
        CertFault::OutOfMemory => None,
    }
}

/// The checks of the regions, and of all.
fn flaws<A: Arena>(arena: &A, certificate: &Certificate) -> Option<[Result<(), Flaw>; 2]> {
    let fits: bool = fits(arena, certificate);
    if fits {
        Some([closed(arena, certificate), check(arena, certificate)])
    } else {
        None
    }
}

/// The flaws of a certificate.
fn flaw(flaw: Flaw) -> (usize, Option<usize>, Option<u64>) {
    match flaw {
        Flaw::Move { vertex, choice } => (vertex, choice, None),
        Flaw::Escape { vertex, successor } => (vertex, Some(successor), None),
        Flaw::Rank {
            vertex,
            successor,
            priority,
        } => (vertex, Some(successor), Some(priority)),
    }
}
