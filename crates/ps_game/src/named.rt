//! Games whose vertices have ids and names.

ghost use Rattle.std.specs.Prelude.{◌≡◌, ◌≢◌, ◌<◌, ◌≤◌, length, map, vec_len, slice_index, slice_index_or, None, Some};
ghost use Rattle.std.specs.List.{All, AllPairs};
ghost use Rattle.std.specs.Option.{option_copied};
ghost use Rattle.ps_game.specs.Games.{NamedGameData, IsNamedGame, HasNoQuote, vertex_count};
ghost use Rattle.ps_game.specs.Names.{name_bytes, with_none};

use crate::games::Game;
use crate::names::Names;
use std::marker::Model;

/// A game with an id and an optional name, without `"`, for each vertex. Names are stored only up to the last vertex
/// that has one.
#[derive(Drop)]
pub struct NamedGame {
    game: Game,
    ids: Vec<u64>,
    names: GivenNames,
}

/// The names of a game's first vertices.
#[derive(Drop)]
pub(crate) enum GivenNames {
    /// A name or none for each.
    Optional(Vec<Option<Vec<u8>>>),
    /// A name for each.
    All(Names),
}

impl Model for NamedGame {
    ghost use Rattle.std.specs.Prelude.{length};
    ghost use Rattle.ps_game.specs.Games.{IsNamedGame, NamedGameData};
    ghost use Rattle.ps_game.specs.GivenNames.{given};
    ghost use Rattle.ps_game.specs.Names.{with_none};

    ghost Value = { NamedGameData };

    ghost view = { λ n. record {
      game = n.game;
      ids = n.ids.items;
      names = with_none (length n.ids.items) (given n.names);
    } };

    ghost invariant = { λ n. IsNamedGame (record {
      game = n.game;
      ids = n.ids.items;
      names = with_none (length n.ids.items) (given n.names);
    }) };
}

impl NamedGame {
    /// A game with ids and optional names, in the order of its vertices.
    pub fn new(game: Game, ids: Vec<u64>, names: Vec<Option<Vec<u8>>>) -> Self
        requires id_each { vec_len ids ≡ vertex_count game }
        requires name_each { vec_len names ≡ vertex_count game }
        requires ids_differ { AllPairs (λ x y. x ≢ y) ids.items }
        requires names_plain { All HasNoQuote (map name_bytes names.items) }
        ensures game { result.game ≡ game }
        ensures ids { result.ids ≡ ids.items }
        ensures names { result.names ≡ map name_bytes names.items }
    {
        NamedGame::with_first_names(game, ids, names)
    }

    /// A game with ids for all vertices, and names for the first ones only.
    pub fn with_first_names(game: Game, ids: Vec<u64>, names: Vec<Option<Vec<u8>>>) -> Self
        requires id_each { vec_len ids ≡ vertex_count game }
        requires names_of_vertices { vec_len names ≤ vertex_count game }
        requires ids_differ { AllPairs (λ x y. x ≢ y) ids.items }
        requires names_plain { All HasNoQuote (map name_bytes names.items) }
        ensures game { result.game ≡ game }
        ensures ids { result.ids ≡ ids.items }
        ensures names { result.names ≡ with_none (vertex_count game) (map name_bytes names.items) }
    {
        NamedGame {
            game,
            ids,
            names: GivenNames::Optional(names),
        }
    }

    /// A game with ids and names, in the order of its vertices.
    pub fn with_names(game: Game, ids: Vec<u64>, names: Names) -> Self
        requires id_each { vec_len ids ≡ vertex_count game }
        requires name_each { length names ≡ vertex_count game }
        requires ids_differ { AllPairs (λ x y. x ≢ y) ids.items }
        requires names_plain { All HasNoQuote (map Some names) }
        ensures game { result.game ≡ game }
        ensures ids { result.ids ≡ ids.items }
        ensures names { result.names ≡ map Some names }
    {
        NamedGame {
            game,
            ids,
            names: GivenNames::All(names),
        }
    }

    /// The game without its ids and names.
    pub fn game(&self) -> &Game
        ensures game { result.now ≡ self.now.game }
        ensures well_formed { IsNamedGame self.now }
    {
        &self.game
    }

    /// The parts fit: the game is well formed, its ids differ, and no name has a quote. The prover learns it here.
    pub fn parts_fit(&self)
        ensures { IsNamedGame self.now }
    {
        self.game();
    }

    /// The id of a vertex.
    pub fn id(&self, vertex: usize) -> u64
        requires { vertex < vertex_count self.now.game }
        ensures { result ≡ slice_index self.now.ids vertex }
    {
        self.ids[vertex]
    }

    /// The name of a vertex, if it has one.
    pub fn name(&self, vertex: usize) -> Option<&[u8]>
        requires { vertex < vertex_count self.now.game }
        ensures { option_copied result ≡ slice_index_or self.now.names vertex None }
    {
        match &self.names {
            GivenNames::All(names) => names.get(vertex),
            GivenNames::Optional(names) => match names.get(vertex) {
                Some(Some(name)) => Some(name.as_slice()),
                _ => None,
            },
        }
    }
}
