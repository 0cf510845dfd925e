//! psyn's own solver.

ghost use Rattle.std.specs.Prelude.{◌≡◌, true, None, IfOk, IfNone, IfSome};
ghost use Rattle.ps_game.specs.Flat.{FitsWithin};
ghost use Rattle.ps_referee.specs.Solutions.{AreSizedFor, IsSolution};
ghost use Rattle.ps_solver.specs.LeastCertificates.{Finds, IsLeastCertificate};

use crate::fault::SolveFault;
use crate::solver::Solver;
use ps_certificate::Certificate;
use ps_game::{Arena, Counts, FlatGame, Game, NamedGame, Region, Strategy, Width, fits_narrow};
use ps_improvement::{Attempted, attempt};
use ps_referee::{JudgeFault, certificate_of_solution, judge};
use ps_zielonka::{regions, regions_within};
use std::alloc::{AllocError, Global};

/// The number of rounds with limits.
const ROUNDS: u64 = 8;

/// How the limits grow from round to round.
const GROWTH: u64 = 64;

/// For each vertex of the game, how many times the recursion may place vertices (decide or attract them) in the first
/// round. In practical games about ten suffice.
const PLACED_EACH: u64 = 256;

/// How many more times it may do so.
const PLACED_BESIDE: u64 = 1024;

/// The priorities of a game are few if each is less than this. The recursion then takes no exponential time, but it may
/// grow faster than the number n of vertices, so its limit in the first round is at least n * n / 2.
const FEW_PRIORITIES: u64 = 4;

/// For each of these times, how many array cells an attempt at strategy improvement may read or write.
const CELLS_EACH: u64 = 64;

/// The limits of one round.
#[derive(Drop)]
struct Budget {
    /// How many times the recursion may place a vertex.
    placed: u64,
    /// How many array cells an attempt may use. One that fails otherwise sets this to 0; then no other follows.
    cells: u64,
}

impl Budget {
    fn first<A: Arena>(arena: &A) -> Budget {
        let count = arena.count() as u64;
        let linear = count
            .saturating_mul(PLACED_EACH)
            .saturating_add(PLACED_BESIDE);
        let placed = if has_few_priorities(arena) {
            linear.max(count.saturating_mul(count) / 2)
        } else {
            linear
        };
        Budget {
            placed,
            cells: linear.saturating_mul(CELLS_EACH),
        }
    }

    fn grow(&mut self) {
        self.placed = self.placed.saturating_mul(GROWTH);
        self.cells = self.cells.saturating_mul(GROWTH);
    }
}

fn has_few_priorities<A: Arena>(arena: &A) -> bool {
    for vertex in 0..arena.count() {
        if arena.priority(vertex) >= FEW_PRIORITIES {
            return false;
        }
    }
    true
}

/// psyn's own solver: regions and moves of both players, and the least counts that are valid for these moves. It is
/// sure (its certificates are valid, and it fails only if memory runs out), and ignores every text that it is fed.
#[derive(Drop)]
pub struct BuiltIn {
    alloc: Global,
}

impl BuiltIn {
    /// Creates the solver.
    pub fn new(alloc: Global) -> Self
        ensures sure { (⟦<BuiltIn as Solver>⟧.known result).is_sure ≡ true }
        ensures fed { (⟦<BuiltIn as Solver>⟧.known result).fed ≡ None }
    {
        BuiltIn { alloc }
    }
}

impl Solver for BuiltIn {
    ghost use Rattle.ps_solver.specs.Solving.{own_solver};

    ghost known = { λ _. own_solver };

    fn feed(&mut self, _text: &[u8]) -> Result<(), AllocError> {
        Ok(())
    }

    fn is_free(&self) -> bool {
        true
    }

    fn solve(&mut self, game: &NamedGame) -> Result<Certificate, SolveFault> {
        least_certificate(self.alloc, game.game())
    }
}

/// A certificate of a game, with the least counts for its moves. Fails only if out of memory.
pub fn least_certificate(alloc: Global, game: &Game) -> Result<Certificate, SolveFault>
    ensures { Finds result (IsLeastCertificate game.now) }
{
    if fits_narrow(game) {
        certificate_in::<u32>(alloc, game)
    } else {
        certificate_in::<usize>(alloc, game)
    }
}

/// The certificate of a game, on flat arrays whose numbers have the width `W`.
fn certificate_in<W: Width>(alloc: Global, game: &Game) -> Result<Certificate, SolveFault>
    requires { FitsWithin game.now W.LIMIT }
    ensures { Finds result (IsLeastCertificate game.now) }
{
    let flat = FlatGame::<W>::of(alloc, game)?;
    certificate_of(alloc, &flat)
}

/// The certificate of a game. In each round, first the recursion is limited; practical games stay within the first
/// limit. Then comes an attempt, unless a higher limit would not have helped an earlier one. Its result may be wrong,
/// so it is checked. The last round has no limit.
fn certificate_of<A: Arena>(alloc: Global, arena: &A) -> Result<Certificate, SolveFault>
    ensures { Finds result (IsLeastCertificate (A.game arena.now)) }
{
    let mut budget = Budget::first(arena);
    for _ in 0..ROUNDS {
        if let Some(certificate) = certificate_within(alloc, arena, &mut budget)? {
            return Ok(certificate);
        }
        budget.grow();
    }
    certificate_without_bound(alloc, arena)
}

/// The certificate that a round finds, or None.
fn certificate_within<A: Arena>(
    alloc: Global,
    arena: &A,
    budget: &mut Budget,
) -> Result<Option<Certificate>, SolveFault>
    ensures { Finds result (λ found. IfSome found (IsLeastCertificate (A.game arena.now))) }
{
    match solved_within(alloc, arena, budget.placed)? {
        Some(certificate) => Ok(Some(certificate)),
        None if budget.cells == 0 => Ok(None),
        None => attempted(alloc, arena, budget),
    }
}

/// The certificate that the recursion finds, or None if it reaches its limit first.
fn solved_within<A: Arena>(
    alloc: Global,
    arena: &A,
    budget: u64,
) -> Result<Option<Certificate>, SolveFault>
    ensures { Finds result (λ found. IfSome found (IsLeastCertificate (A.game arena.now))) }
{
    let mut counts = Counts::default();
    let Some((won, first, second)) = regions_within(alloc, arena, &mut counts, budget)? else {
        return Ok(None);
    };
    let certificate = certificate_of_solution(alloc, arena, &won, &first, &second)?;
    Ok(Some(certificate))
}

/// The certificate that an attempt finds, or None if its limit does not suffice, the game is too large, or the result
/// is wrong. In these last cases the limit becomes 0.
fn attempted<A: Arena>(
    alloc: Global,
    arena: &A,
    budget: &mut Budget,
) -> Result<Option<Certificate>, SolveFault>
    ensures { Finds result (λ found. IfSome found (IsLeastCertificate (A.game arena.now))) }
{
    match attempt(alloc, arena, budget.cells)? {
        Attempted::OutOfFuel => Ok(None),
        Attempted::OutOfRoom => {
            budget.cells = 0;
            Ok(None)
        }
        Attempted::Found { won, first, second } => {
            budget.cells = 0;
            tried(alloc, arena, &won, &first, &second)
        }
    }
}

/// The certificate for two regions and two tables of moves, or None if a player does not win its region by its table.
fn tried<A: Arena>(
    alloc: Global,
    arena: &A,
    won: &Region,
    first: &Strategy,
    second: &Strategy,
) -> Result<Option<Certificate>, SolveFault>
    requires sized { AreSizedFor (A.game arena.now) won.now first.now second.now }
    ensures found { Finds result (λ found. IfSome found (IsLeastCertificate (A.game arena.now))) }
    ensures none { IfOk result (λ found. IfNone found
        (¬ IsSolution (A.game arena.now) won.now first.now second.now)) }
{
    match judge(alloc, arena, won, first, second) {
        Ok(certificate) => Ok(Some(certificate)),
        Err(JudgeFault::OutOfMemory) => Err(SolveFault::OutOfMemory),
        Err(JudgeFault::Unclosed(_)) => Ok(None),
        Err(
            JudgeFault::BadCycle {
                player: _,
                cycle: _,
            },
        ) => Ok(None),
    }
}

/// The certificate that the recursion finds.
fn certificate_without_bound<A: Arena>(alloc: Global, arena: &A) -> Result<Certificate, SolveFault>
    ensures { Finds result (IsLeastCertificate (A.game arena.now)) }
{
    let mut counts = Counts::default();
    let (won, first, second) = regions(alloc, arena, &mut counts)?;
    Ok(certificate_of_solution(alloc, arena, &won, &first, &second)?)
}
