//! Whether a certificate fits a game.

ghost use Rattle.std.specs.Prelude.{◌≡◌, ℕ, ◌+◌, ◌%◌, ◌<◌, ◌≤◌, ◌↔◌, IsTrue, length};
ghost use Rattle.std.specs.List.{All};
ghost use Rattle.ps_game.specs.Games.{vertex_count};
ghost use Rattle.ps_game.specs.Ranking.{HasPriority, ListsPriorities};
ghost use Rattle.ps_certificate.specs.Certificates.{Fits};
ghost use Rattle.ps_certificate.specs.Inner.Prefixes.{IsComplete, EntryFits};

use crate::certificate::Certificate;
use crate::rising::{Rising, is_rising};
use ps_game::{Arena, Player};

/// How many of the listed priorities are searched for in one pass over the vertices.
const WINDOW: usize = 1024;

/// Whether an ascending list has each of the game's priorities of one parity.
fn is_complete<A: Arena>(arena: &A, parity: u64, rising: Rising<'_>) -> bool
    ensures { IsTrue result ↔ IsComplete (A.game arena.now) parity rising.entry.list.now }
{
    for vertex in 0..arena.count() {
        let priority = arena.priority(vertex);
        if priority % 2 == parity && rising.place_of(priority).is_none() {
            return false;
        }
    }
    true
}

/// Whether each number of a short list is the priority of some vertex, by one pass over the vertices.
fn window_present<A: Arena>(arena: &A, window: Rising<'_>) -> bool
    requires { length window.list.now ≤ 1024 }
    ensures { IsTrue result ↔ All (HasPriority (A.game arena.now)) window.entry.list.now }
{
    let mut seen = [false; WINDOW];
    for vertex in 0..arena.count() {
        if let Some(place) = window.place_of(arena.priority(vertex)) {
            seen[place] = true;
        }
    }
    for place in 0..window.list.len() {
        if !seen[place] {
            return false;
        }
    }
    true
}

/// Whether a short list has exactly the game's priorities of one parity.
fn is_just<A: Arena>(arena: &A, parity: u64, rising: Rising<'_>) -> bool
    requires right_parity { All (λ p. p % 2 ≡ parity) rising.list.now }
    requires short { length rising.list.now ≤ 1024 }
    ensures { IsTrue result ↔ (IsComplete (A.game arena.now) parity rising.entry.list.now ×
        All (HasPriority (A.game arena.now)) rising.entry.list.now) }
{
    let mut seen = [false; WINDOW];
    for vertex in 0..arena.count() {
        let priority = arena.priority(vertex);
        if priority % 2 != parity {
            continue;
        }
        let Some(place) = rising.place_of(priority) else {
            return false;
        };
        seen[place] = true;
    }
    for place in 0..rising.list.len() {
        if !seen[place] {
            return false;
        }
    }
    true
}

/// Whether each number of a list is the priority of some vertex, by one pass for every 1024 numbers. Allocates no
/// memory.
fn all_present<A: Arena>(arena: &A, rising: Rising<'_>) -> bool
    ensures { IsTrue result ↔ All (HasPriority (A.game arena.now)) rising.entry.list.now }
{
    let list = rising.list;
    let mut start = 0;
    while start < list.len() {
        let end = list.len().min(start + WINDOW);
        let window = Rising {
            list: &list[start..end],
        };
        if !window_present(arena, window) {
            return false;
        }
        start = end;
    }
    true
}

fn lists_priorities<A: Arena>(arena: &A, parity: u64, list: &[u64]) -> bool
    ensures { IsTrue result ↔ ListsPriorities (A.game arena.now) parity list.now }
{
    if !is_rising(list) {
        return false;
    }
    if !list.iter().all(|priority| *priority % 2 == parity) {
        return false;
    }
    let rising = Rising { list };
    if list.len() <= WINDOW {
        return is_just(arena, parity, rising);
    }
    is_complete(arena, parity, rising) && all_present(arena, rising)
}

fn entry_fits(certificate: &Certificate, vertices: usize, vertex: usize) -> bool
    requires { vertex < length certificate.now.entries }
    ensures { IsTrue result ↔ EntryFits vertices certificate.now vertex }
{
    let winner = certificate.winner(vertex);
    if winner > 1 {
        return false;
    }
    let opposing = certificate.opposing(Player::of_number(winner));
    if certificate.counts(vertex).len() != opposing.len() {
        return false;
    }
    match certificate.choice(vertex) {
        Some(choice) => choice < vertices,
        None => true,
    }
}

/// Whether a certificate fits a game: it lists exactly the odd and the even priorities of the game, each in ascending
/// order, and has one entry for each vertex, with 0 or 1 as the winner, a vertex or none as the move, and one count for
/// each priority that opposes the winner. Allocates no memory.
pub fn fits<A: Arena>(arena: &A, certificate: &Certificate) -> bool
    ensures { IsTrue result ↔ Fits (A.game arena.now) certificate.now }
{
    let vertices = arena.count();
    if certificate.entries.len() != vertices {
        return false;
    }
    for vertex in 0..vertices {
        if !entry_fits(certificate, vertices, vertex) {
            return false;
        }
    }
    lists_priorities(arena, 1, certificate.odd.as_slice())
        && lists_priorities(arena, 0, certificate.even.as_slice())
}
