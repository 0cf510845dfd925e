//! The game of a text's nodes.

ghost use Rattle.std.specs.Prelude.{◌≡◌, IfOk, IfErr};
ghost use Rattle.ps_text.specs.declared.faults.Fault.TheVariants as faults;
ghost use Rattle.ps_pgsolver.specs.GamesOf.{named_game_of};
ghost use Rattle.ps_pgsolver.specs.Nodes.{KnowsAll, ids_of};

use crate::fault::PgFault;
use crate::node::Nodes;
use ps_game::NamedGame;
use std::alloc::Global;

/// The game of the nodes, with their ids and names. Fails if out of memory.
pub fn named_game(alloc: Global, nodes: Nodes) -> Result<NamedGame, PgFault>
    requires { KnowsAll (ids_of nodes) nodes }
    ensures value { IfOk result (λ named. named ≡ named_game_of nodes) }
    ensures memory { IfErr result (λ fault. fault ≡ faults.OutOfMemory) }
{
    Ok(nodes.into_game(alloc)?)
}
