//! A law (theorem).

ghost use Rattle.ps_game.specs.Games.{ParityGame, IsGame};
ghost use Rattle.ps_zielonka.specs.Divisions.{Division};

/// Player 0 holds a region of the game by a table of moves, and player 1 holds all other vertices by another. This is
/// about games, not calls, which may be out of memory.
pub fn each_game_is_divided()
    ensures { (game : ParityGame) → IsGame game → Division game }
{}
