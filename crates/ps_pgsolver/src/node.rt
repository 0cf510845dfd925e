//! Nodes of game texts.

ghost use Rattle.std.specs.Prelude.{◌≡◌, ◌++◌, ◌∷◌, ◌<◌, ◌≤◌, [], List, true, OnOk, OnErr, IfOk, Contains, is_some};
ghost use Rattle.std.specs.Prelude.{length, map, vec_len, vec_capacity};
ghost use Rattle.ps_game.specs.Names.{name_bytes, with_none};
ghost use Rattle.ps_pgsolver.specs.GamesOf.{named_game_of};
ghost use Rattle.ps_pgsolver.specs.Inner.Kept.{AreKept, nodes_kept, node_with, names_with};
ghost use Rattle.ps_pgsolver.specs.Nodes.{NodeData, IsReadNode, AreNodes, KnowsAll, ids_of, is_member, knows_all};

use ps_game::{NamedGame, Player, Vertices};
use ps_ids::Ids;
use std::alloc::{AllocError, Global};
use std::marker::Model;

/// A node without its successors.
#[derive(Drop)]
pub struct Node {
    /// Its id, which no other node has.
    pub id: u64,
    pub priority: u64,
    pub owner: Player,
    /// Its name, without the quotes.
    pub name: Option<Vec<u8>>,
}

/// The nodes of a text: their ids, their vertices (with ids for successors), and their names up to the last one that
/// there is.
#[derive(Drop)]
pub struct Nodes {
    ids: Ids,
    vertices: Vertices,
    names: Vec<Option<Vec<u8>>>,
}

impl Model for Nodes {
    ghost Value = { List NodeData };

    ghost view = { λ n. nodes_kept n.ids n.vertices (with_none (length n.ids) (map name_bytes n.names.items)) };

    ghost invariant = { λ n. AreKept n.ids n.vertices (with_none (length n.ids) (map name_bytes n.names.items)) };
}

impl Nodes {
    /// No nodes. Fails if out of memory.
    pub fn new(alloc: Global) -> Result<Self, AllocError>
        ensures { IfOk result (λ nodes. nodes ≡ []) }
    {
        let vertices = Vertices::new(alloc)?;
        Ok(Nodes {
            ids: Ids::new(alloc),
            vertices,
            names: Vec::new(alloc),
        })
    }

    /// The ids, in the order of the nodes.
    pub fn ids(&self) -> &Ids
        ensures ids { result.now ≡ ids_of self.now }
        ensures well_formed { AreNodes self.now }
    {
        &self.ids
    }

    /// Whether a node has this id.
    pub fn has(&self, id: u64) -> bool
        ensures { result ≡ is_member (ids_of self.now) id }
    {
        self.ids.has(id)
    }

    /// Whether each successor is the id of a node.
    pub fn know_successors(&self) -> bool
        ensures { result ≡ knows_all (ids_of self.now) self.now }
    {
        self.vertices.know_successors(&self.ids)
    }

    /// Appends a node with a new id. Fails if out of memory.
    pub fn push(&mut self, node: Node, successors: &[usize]) -> Result<(), AllocError>
        requires new { ¬ Contains (ids_of self.old) node.id }
        requires node { IsReadNode (node_with node successors.now) }
        ensures { OnOk result (self.new ≡ self.old ++ node_with node successors.now ∷ []) }
    {
        let count = self.vertices.len();
        make_room(&mut self.names, count, node.name.is_some())?;
        self.vertices.push(node.owner, node.priority, successors)?;
        if let Err(refused) = self.ids.push(node.id) {
            self.vertices.truncate(count);
            return Err(refused);
        }
        keep_name(&mut self.names, node.name);
        Ok(())
    }

    /// The game of these nodes. Fails if out of memory.
    pub fn into_game(self, alloc: Global) -> Result<NamedGame, AllocError>
        requires { KnowsAll (ids_of self) self }
        ensures { IfOk result (λ named. named ≡ named_game_of self) }
    {
        let Nodes {
            ids,
            mut vertices,
            names,
        } = self;
        vertices.resolve(&ids);
        let game = vertices.into_game(alloc)?;
        Ok(NamedGame::with_first_names(game, ids.into_list(), names))
    }
}

/// If the next node has a name, reserves memory for it, after an empty one for each node before it without a name.
fn make_room(
    names: &mut Vec<Option<Vec<u8>>>,
    count: usize,
    is_named: bool,
) -> Result<(), AllocError>
    requires { vec_len names.old ≤ count }
    ensures few { vec_len names.new ≤ count }
    ensures same { with_none count (map name_bytes names.new.items) ≡ with_none count (map name_bytes names.old.items) }
    ensures full { OnOk result (is_named ≡ true → vec_len names.new ≡ count) }
    ensures room { OnOk result (is_named ≡ true → vec_len names.new < vec_capacity names.new) }
{
    if !is_named {
        return Ok(());
    }
    'pad: while names.len() < count {
        names.push(None)?;
    }
    names.reserve(1)
}

/// Appends a name, for which there is memory.
fn keep_name(names: &mut Vec<Option<Vec<u8>>>, name: Option<Vec<u8>>)
    requires { is_some name ≡ true → vec_len names.old < vec_capacity names.old }
    ensures { names.new.items ≡ names_with names.old.items name }
{
    if name.is_some() {
        names.push_reserved(name);
    }
}
