//! Laws about bases and arenas: each law is the contract of a function whose body is empty or calls other laws.

ghost use Rattle.std.specs.Prelude.{◌≡◌, ◌≢◌, ℕ, ◌-◌, ◌<◌, ◌↔◌, List, length};
ghost use Rattle.std.specs.List.{Contains};
ghost use Rattle.ps_game.specs.Games.{IsGame, ParityGame};
ghost use Rattle.ps_machine.specs.Behaviours.{Behaviour};
ghost use Rattle.ps_machine.specs.Boards.{Board, IsClassLetter, IsFirstLetter, IsGameOf, IsListOf};
ghost use Rattle.ps_machine.specs.Extracting.{IsMachineOf, IsUsed, StepsSecond};
ghost use Rattle.ps_machine.specs.Numbering.{StandsAt};
ghost use Rattle.ps_solver.specs.Solving.{winner_at_start};
ghost use Rattle.ps_machine.specs.declared.key.Key.{Key};
ghost use Rattle.ps_machine.specs.declared.key.Key.TheVariants.{First};
ghost use Rattle.ps_certificate.specs.Certificates.{CertificateData, Fits, IsValid, winner_of};
ghost use Rattle.ps_certificate.specs.Least.{SaysTheSame};
ghost use Rattle.ps_basis.specs.ArenaMoves.{ComesTo, IsFirstRound, IsSecondRound, StepsBehind};
ghost use Rattle.ps_basis.specs.Arenas.{AreOrders, IsArenaOf, IsArenaPruning, IsLiftOfArena};
ghost use Rattle.ps_basis.specs.Counterparts.{IsLeastCounterpart};
ghost use Rattle.ps_basis.specs.Bases.{IsBasis, IsSetLetter, IsMinimalLetter};
ghost use Rattle.ps_basis.specs.Listing.{IsListedUpTo};
ghost use Rattle.ps_basis.specs.Memories.{Play, IsMachineByRounds};
ghost use Rattle.ps_basis.specs.PairOrder.{AreNumberedAlike, IsInOrder};

/// The list of the least letters of all classes of a state is a basis.
pub fn classes_are_basis()
    ensures { (board : Board) (q : ℕ) (letters : List ℕ) → IsListOf (IsClassLetter board q) letters →
        IsBasis board q letters }
{}

/// The least letters of all sets that the second player can reach behind a letter are a basis.
pub fn sets_are_basis()
    ensures { (board : Board) (q : ℕ) (letters : List ℕ) → IsListOf (IsSetLetter board q) letters →
        IsBasis board q letters }
{}

/// The least letters of the minimal sets that the second player can reach behind a letter are a basis.
pub fn minimal_sets_are_basis()
    ensures { (board : Board) (q : ℕ) (letters : List ℕ) → IsListOf (IsMinimalLetter board q) letters →
        IsBasis board q letters }
{}

/// The arena of an automaton's game for a basis of each state is a pruned game, in which each vertex of the second
/// player may be replaced by a kept one with no other successors.
pub fn arena_is_pruning()
    ensures { (board : Board) (bases : ℕ → List ℕ) (mover : ℕ) (keys others : List Key) (game arena : ParityGame) →
        mover < 2 → IsGameOf board mover keys game →
        IsArenaOf board bases mover keys others arena →
        (kept : List ℕ) × IsArenaPruning mover keys others game arena kept }
{}

/// A valid certificate of the arena can be lifted to a valid certificate of the whole game, with the same winner at the
/// start, and with the same winner, move and counts at each vertex of the first player. At a vertex of the second
/// player, the moves of the arena's vertices of its state are tried in a given order.
pub fn arena_certificate_lifts()
    ensures { (board : Board) (bases : ℕ → List ℕ) (mover : ℕ) (keys others : List Key) (game arena : ParityGame) →
        mover < 2 → IsGameOf board mover keys game →
        IsArenaOf board bases mover keys others arena → (certificate : CertificateData) → Fits arena certificate →
        IsValid arena certificate → (order : ℕ → List ℕ) → AreOrders others order →
        (lifted : CertificateData) × IsLiftOfArena mover keys others order game arena certificate lifted }
{}

/// In a lifted certificate, the second player's step from a vertex that the second player wins is the one that the
/// arena describes: behind each letter of the first player, the first move in the order that can be made behind it.
pub fn second_steps_of_lift()
    ensures { (board : Board) (bases : ℕ → List ℕ) (mover : ℕ) (keys others : List Key) (order : ℕ → List ℕ)
        (game arena : ParityGame) (certificate lifted : CertificateData) → mover < 2 →
        IsGameOf board mover keys game → IsArenaOf board bases mover keys others arena → Fits arena certificate →
        IsValid arena certificate → IsLiftOfArena mover keys others order game arena certificate lifted →
        (v q p x letter : ℕ) → StandsAt keys v (First q p) → winner_of lifted v ≡ 1 - mover → IsFirstLetter board x →
        StepsSecond board keys lifted v q x letter ↔
        StepsBehind board mover others certificate order q x letter }
{}

/// The vertices of the first player that a play reaches, if the winner of the start follows the lifted certificate, are
/// those to which the arena's rounds lead.
pub fn used_of_lift()
    ensures first { (board : Board) (bases : ℕ → List ℕ) (mover : ℕ) (keys others : List Key) (order : ℕ → List ℕ)
        (game arena : ParityGame) (certificate lifted : CertificateData) → mover < 2 →
        IsGameOf board mover keys game → IsArenaOf board bases mover keys others arena → Fits arena certificate →
        IsValid arena certificate → IsLiftOfArena mover keys others order game arena certificate lifted →
        winner_at_start certificate ≡ mover → (v q p : ℕ) → StandsAt keys v (First q p) →
        IsUsed game lifted v ↔ ComesTo (IsFirstRound board others certificate) board.auto.start q p }
    ensures second { (board : Board) (bases : ℕ → List ℕ) (mover : ℕ) (keys others : List Key) (order : ℕ → List ℕ)
        (game arena : ParityGame) (certificate lifted : CertificateData) → mover < 2 →
        IsGameOf board mover keys game → IsArenaOf board bases mover keys others arena → Fits arena certificate →
        IsValid arena certificate → IsLiftOfArena mover keys others order game arena certificate lifted →
        winner_at_start certificate ≢ mover → (v q p : ℕ) → StandsAt keys v (First q p) →
        IsUsed game lifted v ↔
        ComesTo (IsSecondRound board mover others certificate order) board.auto.start q p }
{}

/// For each valid certificate, one with the same winners and moves has the least counts.
pub fn least_counts_are_there()
    ensures { (game : ParityGame) (certificate : CertificateData) → IsGame game → Fits game certificate →
        IsValid game certificate → (least : CertificateData) × IsLeastCounterpart game certificate least }
{
    ps_certificate::valid_regions_are_held();
    ps_referee::solution_is_judged();
    ps_referee::one_verdict();
}

/// Certificates with the same winners and moves have the same machine.
pub fn counts_do_not_matter()
    ensures { (board : Board) (mover : ℕ) (keys : List Key) (game : ParityGame) (one other : CertificateData)
        (m : Behaviour) → IsGameOf board mover keys game → SaysTheSame game one other →
        IsMachineOf board mover keys game one m → IsMachineOf board mover keys game other m }
{}

/// Each game of an automaton has an arena for given bases of its states.
pub fn arena_is_there()
    ensures { (board : Board) (bases : ℕ → List ℕ) (mover : ℕ) (keys : List Key) (game : ParityGame) →
        IsGameOf board mover keys game →
        ((q p : ℕ) → Contains keys (First q p) → IsBasis board q (bases q)) →
        (others : List Key) × (arena : ParityGame) × IsArenaOf board bases mover keys others arena }
{}

/// The keys of the first player's vertices in an automaton's game stand in an order that is described without classes.
pub fn game_is_in_order()
    ensures { (board : Board) (mover : ℕ) (keys : List Key) (game : ParityGame) → IsGameOf board mover keys game →
        IsInOrder board keys }
{}

/// Only one order meets this description, so whoever has the keys in it has the order of the game's vertices.
pub fn one_order()
    ensures { (board : Board) (one other : List Key) → IsInOrder board one → IsInOrder board other →
        AreNumberedAlike one other }
{}

/// Whoever visits the keys one after another, and adds the new keys to which each state has a step, has this order.
pub fn listing_is_in_order()
    ensures { (board : Board) (keys : List Key) → IsListedUpTo board (length keys) keys → IsInOrder board keys }
{}

/// The machine of a lifted certificate can be described by rounds of the arena and a list of the first player's keys in
/// the game's order: no class of letters and no vertex of the game is needed to number its memories or to find its
/// steps.
pub fn machine_of_lift()
    ensures { (bases : ℕ → List ℕ) (keys : List Key) (game arena : ParityGame) (lifted : CertificateData) (play : Play)
        (m : Behaviour) → play.mover < 2 → IsGameOf play.board play.mover keys game →
        IsArenaOf play.board bases play.mover keys play.others arena → Fits arena play.certificate →
        IsValid arena play.certificate →
        IsLiftOfArena play.mover keys play.others play.order game arena play.certificate lifted →
        IsInOrder play.board play.keys → IsMachineByRounds play m →
        IsMachineOf play.board play.mover keys game lifted m }
{}
