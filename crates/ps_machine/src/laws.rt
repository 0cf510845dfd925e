//! Laws about games of automata, their certificates and their machines.

ghost use Rattle.std.specs.Prelude.{◌≡◌, ℕ, ◌<◌, ◌≤◌, List, Ok, length};
ghost use Rattle.ps_hoa.specs.Files.{FileData};
ghost use Rattle.ps_hoa.specs.Sound.{AreNames, IsSoundFile};
ghost use Rattle.ps_automaton.specs.Answers.{IsAdmitted};
ghost use Rattle.ps_automaton.specs.Automata.{AutomatonData, IsBuiltFrom};
ghost use Rattle.ps_automaton.specs.Chains.{Chain};
ghost use Rattle.ps_game.specs.Games.{IsGame, NamedGameData, ParityGame};
ghost use Rattle.ps_certificate.specs.Certificates.{CertificateData, Fits, IsValid};
ghost use Rattle.ps_machine.specs.Behaviours.{Behaviour, IsMachine, LassosWon};
ghost use Rattle.ps_machine.specs.Behaving.{BehavesAs};
ghost use Rattle.ps_machine.specs.Boards.{Board, IsGameOf};
ghost use Rattle.ps_machine.specs.BuiltBoards.{board_of};
ghost use Rattle.ps_machine.specs.Extracting.{HasPropositions, IsMachineOf};
ghost use Rattle.ps_machine.specs.FileGames.{IsGameOfFile, board_of_file};
ghost use Rattle.ps_machine.specs.Keys.{mover_of};
ghost use Rattle.ps_machine.specs.declared.key.Key.{Key};
ghost use Rattle.ps_machine.specs.declared.key.Order.{Order};

/// The winner of vertex 0 wins each word of the machine of a valid certificate of an automaton's game: the automaton
/// accepts all of them if it is player 0, else none.
pub fn lassos_won()
    ensures { (file : FileData) (chain : Chain) (a : AutomatonData) (order : Order) (keys : List Key)
        (game : ParityGame) (certificate : CertificateData) (m : Behaviour) →
        IsBuiltFrom file chain a → IsGameOf (board_of order a) (mover_of order) keys game → Fits game certificate →
        IsValid game certificate →
        IsMachine m → HasPropositions a.names (board_of order a) m →
        IsMachineOf (board_of order a) (mover_of order) keys game certificate m → LassosWon file m }
{}

/// `lassos_won` for the game of a file, whichever of its automata is taken.
pub fn lassos_of_file_won()
    ensures { (order : Order) (file : FileData) (game : NamedGameData) (is_game : IsGameOfFile order file game)
        (certificate : CertificateData) (m : Behaviour) → Fits game.game certificate → IsValid game.game certificate →
        IsMachine m → HasPropositions file.names (board_of_file order file is_game.auto) m →
        IsMachineOf (board_of_file order file is_game.auto) (mover_of order) is_game.keys game.game certificate m →
        LassosWon file m }
{}

/// An automaton with given owners of its propositions (a board) has at most one game and list of keys.
pub fn one_game()
    ensures { (board : Board) (mover : ℕ) (keys others : List Key) (game other : ParityGame) →
        IsGameOf board mover keys game → IsGameOf board mover others other → (keys ≡ others) × (game ≡ other) }
{}

/// For each order of moves, a file has at most one game, names and ids included. Its automata may differ, but only
/// where no play leads.
pub fn one_game_of_file()
    ensures { (order : Order) (file : FileData) (game other : NamedGameData) → IsGameOfFile order file game →
        IsGameOfFile order file other → game ≡ other }
{}

/// Each admitted file has a game for each order of moves.
pub fn game_is_there()
    ensures { (order : Order) (file : FileData) → IsSoundFile file → IsAdmitted file →
        (game : NamedGameData) × IsGameOfFile order file game }
{}

/// The game that a file defines is one: each vertex has the owner 0 or 1, and at least one successor; its successors
/// are different vertices of the game.
pub fn game_of_file_is_game()
    ensures { (order : Order) (file : FileData) (game : NamedGameData) → IsGameOfFile order file game →
        IsGame game.game }
{}

/// Each valid certificate of an automaton's game has a machine whose propositions have the given names.
pub fn machine_is_there()
    ensures { (names : List (List ℕ)) (board : Board) (mover : ℕ) (keys : List Key) (game : ParityGame)
        (certificate : CertificateData) →
        length names ≤ 64 → AreNames names → length names ≡ board.propositions → mover < 2 →
        IsGameOf board mover keys game → Fits game certificate → IsValid game certificate →
        (m : Behaviour) × IsMachine m × HasPropositions names board m ×
        IsMachineOf board mover keys game certificate m }
{}

/// A certificate of an automaton's game has at most one machine: any two have the same propositions and player, and
/// take the same step from each memory state, at every letter that they read.
pub fn one_machine()
    ensures { (names : List (List ℕ)) (board : Board) (mover : ℕ) (keys : List Key) (game : ParityGame)
        (certificate : CertificateData) → IsGameOf board mover keys game → (m o : Behaviour) →
        IsMachine m → IsMachine o → HasPropositions names board m → HasPropositions names board o →
        IsMachineOf board mover keys game certificate m → IsMachineOf board mover keys game certificate o →
        BehavesAs m o }
{}

/// A certificate of a file's game has at most one machine, although the file's automata may differ where no play leads.
pub fn one_machine_of_file()
    ensures { (order : Order) (file : FileData) (game : NamedGameData) (first second : IsGameOfFile order file game)
        (certificate : CertificateData) (m o : Behaviour) → IsMachine m → IsMachine o →
        HasPropositions file.names (board_of_file order file first.auto) m →
        HasPropositions file.names (board_of_file order file second.auto) o →
        IsMachineOf (board_of_file order file first.auto) (mover_of order) first.keys game.game certificate m →
        IsMachineOf (board_of_file order file second.auto) (mover_of order) second.keys game.game certificate o →
        BehavesAs m o }
{}
