//! The machine of a certificate.

ghost use Rattle.std.specs.Prelude.{◌≡◌, ◌<◌, ◌≤◌, ℕ, List, IfOk, OnOk, length, map, option_copied};
ghost use Rattle.ps_automaton.specs.Automata.{IsBuiltFrom};
ghost use Rattle.ps_automaton.specs.Chains.{Chain};
ghost use Rattle.ps_certificate.specs.Certificates.{Fits, IsValid};
ghost use Rattle.ps_game.specs.Games.{ParityGame, vertex_count};
ghost use Rattle.ps_hoa.specs.Files.{FileData};
ghost use Rattle.ps_hoa.specs.Memory.{bytes_of};
ghost use Rattle.ps_hoa.specs.Sound.{AreNames};
ghost use Rattle.ps_machine.specs.Inner.Assembling.{HasRoles};
ghost use Rattle.ps_machine.specs.Behaviours.{LassosWon};
ghost use Rattle.ps_machine.specs.BitMachines.{bit_behaviour, nodes_of};
ghost use Rattle.ps_machine.specs.BitParts.{AreBitPartsOf, own_propositions};
ghost use Rattle.ps_machine.specs.Boards.{IsGameOf};
ghost use Rattle.ps_machine.specs.BuiltBoards.{board_of};
ghost use Rattle.ps_machine.specs.Dividing.{HasClasses};
ghost use Rattle.ps_machine.specs.Inner.Certificates.{IsValidFor};
ghost use Rattle.ps_machine.specs.Inner.Drawing.{AreMemories, AreUsed};
ghost use Rattle.ps_machine.specs.Extracting.{HasPropositions, IsMachineOf};
ghost use Rattle.ps_machine.specs.Keys.{mover_of};
ghost use Rattle.ps_machine.specs.Machines.{behaviour};
ghost use Rattle.ps_machine.specs.Inner.Planning.{AreDividedBy, AreDrawnBy, AreKnownBy, AreRowsBy, IsPlanned, board_by};
ghost use Rattle.ps_machine.specs.declared.key.Key.{Key};

use crate::bit_machine::{BitMachine, BitParts};
use crate::divided::Divided;
use crate::drawing::{Drawing, Plan};
use crate::game::AutomatonGame;
use crate::key::{Key, Order};
use crate::machine::{Machine, MachineParts, Propositions};
use crate::memories::{Memories, remembered};
use crate::moves::{first_mask, is_first};
use crate::used::used_vertices;
use indexmap::IndexSet;
use ps_automaton::Automaton;
use ps_certificate::Certificate;
use ps_diagram::{Node, Store};
use ps_game::{Game, NamedGame, Player};
use std::alloc::{AllocError, Global};

/// Builds the machine of the player who wins vertex 0, by the moves of a valid certificate. It remembers the current
/// vertex if the winner moves first, and else only the state of the automaton. The automaton accepts every word of a
/// machine of player 0, and none of one of player 1. To get the keys of the vertices, the game is built again; a caller
/// that has them can call `machine_of_certificate`. Fails if out of memory.
pub fn extract(
    alloc: Global,
    automaton: &Automaton,
    order: Order,
    game: &NamedGame,
    certificate: &Certificate,
) -> Result<Machine, AllocError>
    requires game { (keys : List Key) × IsGameOf (board_of order automaton.now) (mover_of order) keys game.now.game }
    requires fits { Fits game.now.game certificate.now }
    requires valid { IsValid game.now.game certificate.now }
    ensures machine { IfOk result (λ m. (keys : List Key) → IsGameOf (board_of order automaton.now) (mover_of order)
        keys game.now.game →
        IsMachineOf (board_of order automaton.now) (mover_of order) keys game.now.game certificate.now (behaviour m)) }
    ensures propositions { IfOk result (λ m. HasPropositions automaton.now.names (board_of order automaton.now)
        (behaviour m)) }
    ensures won { IfOk result (λ m. (file : FileData) (chain : Chain) → IsBuiltFrom file chain automaton.now →
        LassosWon file (behaviour m)) }
{
    let keyed = AutomatonGame::build(alloc, automaton, order)?;
    machine_of_certificate(alloc, automaton, order, &keyed, certificate)
}

/// Builds the same machine from a game with its keys. Fails if out of memory.
pub fn machine_of_certificate(
    alloc: Global,
    automaton: &Automaton,
    order: Order,
    game: &AutomatonGame,
    certificate: &Certificate,
) -> Result<Machine, AllocError>
    requires game { IsGameOf (board_of order automaton.now) (mover_of order) game.now.keys.items game.now.game.game }
    requires classes { HasClasses order automaton.now game.now }
    requires fits { Fits game.now.game.game certificate.now }
    requires valid { IsValid game.now.game.game certificate.now }
    ensures machine { IfOk result (λ m. IsMachineOf (board_of order automaton.now) (mover_of order) game.now.keys.items
        game.now.game.game certificate.now (behaviour m)) }
    ensures propositions { IfOk result (λ m. HasPropositions automaton.now.names (board_of order automaton.now)
        (behaviour m)) }
    ensures won { IfOk result (λ m. (file : FileData) (chain : Chain) → IsBuiltFrom file chain automaton.now →
        LassosWon file (behaviour m)) }
{
    let moves_first = order.mover().number() == certificate.winner(0);
    let memories = memories_of(
        alloc,
        &game.keys,
        game.game.game(),
        certificate,
        moves_first,
    )?;
    let plan = Plan {
        order,
        automaton,
        game: game.game.game(),
        keys: &game.keys,
        certificate,
        moves_first,
        memories: &memories,
    };
    machine_by(alloc, &plan, game.divided.as_ref())
}

/// Makes the machine of a player from its diagrams, one for each bit of its output letters, with the automaton's
/// propositions. Fails if out of memory.
pub fn machine_of_bits(
    alloc: Global,
    automaton: &Automaton,
    order: Order,
    player: Player,
    moves_first: bool,
    parts: BitParts,
) -> Result<BitMachine, AllocError>
    requires player { player < 2 }
    requires parts { AreBitPartsOf moves_first (board_of order automaton.now) parts }
    ensures player { IfOk result (λ m. m.player ≡ player) }
    ensures first { IfOk result (λ m. m.is_first ≡ moves_first) }
    ensures store { IfOk result (λ m. m.store ≡ parts.store) }
    ensures nodes { IfOk result (λ m. m.nodes ≡ parts.nodes.items) }
    ensures bits { IfOk result (λ m. m.bits ≡ map nodes_of parts.bits.items) }
    ensures outputs { IfOk result (λ m. m.outputs ≡ own_propositions moves_first (board_of order automaton.now)) }
    ensures propositions { IfOk result (λ m. HasPropositions automaton.now.names (board_of order automaton.now)
        (bit_behaviour m)) }
{
    let propositions = roles(alloc, automaton, order, moves_first)?;
    Ok(BitMachine::new(player, moves_first, propositions, parts))
}

/// The memory states of the winner of vertex 0, for the vertices that its moves can reach.
fn memories_of(
    alloc: Global,
    keys: &[Key],
    game: &Game,
    certificate: &Certificate,
    moves_first: bool,
) -> Result<Memories, AllocError>
    requires valid { IsValidFor game.now certificate.now }
    requires keys { length keys.now ≡ vertex_count game.now }
    ensures { IfOk result (λ memories. (used : List ℕ) × AreUsed game.now certificate.now used ×
        AreMemories moves_first keys.now used memories.kept.items memories.anchors.keys) }
{
    let used = used_vertices(alloc, game, certificate)?;
    remembered(alloc, keys, &used, moves_first)
}

fn machine_by(
    alloc: Global,
    plan: &Plan<'_>,
    divided: Option<&Divided>,
) -> Result<Machine, AllocError>
    requires plan { IsPlanned plan.now }
    requires divided { AreKnownBy plan.now (option_copied divided) }
    ensures machine { IfOk result (λ m. (game : ParityGame)
        → IsGameOf (board_by plan.now) (mover_of plan.now.order) plan.now.keys.now game
        → IsMachineOf (board_by plan.now) (mover_of plan.now.order) plan.now.keys.now game plan.now.certificate.now
        (behaviour m)) }
    ensures propositions { IfOk result
        (λ m. HasPropositions plan.now.automaton.now.names (board_by plan.now) (behaviour m)) }
    ensures won { IfOk result (λ m. (file : FileData) (chain : Chain) → IsBuiltFrom file chain plan.now.automaton.now →
        LassosWon file (behaviour m)) }
{
    let diagrams = draw(alloc, plan, divided)?;
    let propositions = roles(alloc, plan.automaton, plan.order, plan.moves_first)?;
    let player = Player::of_number(plan.certificate.winner(0));
    Ok(Machine::new(player, plan.moves_first, propositions, diagrams))
}

/// Makes the diagrams of all memory states, and their rows. Letters are divided here if no classes are known.
fn draw(
    alloc: Global,
    plan: &Plan<'_>,
    divided: Option<&Divided>,
) -> Result<MachineParts, AllocError>
    requires plan { IsPlanned plan.now }
    requires divided { AreKnownBy plan.now (option_copied divided) }
    ensures letters { IfOk result (λ made. made.store.propositions ≡ length plan.now.automaton.now.names) }
    ensures drawn { IfOk result (λ made. AreDrawnBy plan.now made.store made.rows.keys made.nodes.items
        (length plan.now.memories.now.kept.items)) }
{
    let mut drawing = Drawing {
        store: Store::new(alloc, plan.automaton.store().propositions()),
        rows: IndexSet::new(alloc),
        places: Vec::new(alloc),
    };
    let nodes = match divided {
        Some(divided) => nodes_of(alloc, plan, divided, &mut drawing)?,
        None => nodes_by_dividing(alloc, plan, &mut drawing)?,
    };
    Ok(MachineParts {
        store: drawing.store,
        nodes,
        rows: drawing.rows,
    })
}

/// The diagrams of all memory states, from the classes that are known.
fn nodes_of(
    alloc: Global,
    plan: &Plan<'_>,
    divided: &Divided,
    drawing: &mut Drawing,
) -> Result<Vec<Node>, AllocError>
    requires plan { IsPlanned plan.now }
    requires divided { AreDividedBy plan.now divided.now }
    requires letters { drawing.old.store.propositions ≡ length plan.now.automaton.now.names }
    requires rows { AreRowsBy plan.now drawing.old.rows.keys }
    ensures letters { OnOk result (drawing.new.store.propositions ≡ length plan.now.automaton.now.names) }
    ensures drawn { IfOk result (λ nodes. AreDrawnBy plan.now drawing.new.store drawing.new.rows.keys nodes.items
        (length plan.now.memories.now.kept.items)) }
{
    let mut nodes = Vec::with_capacity(alloc, plan.memories.kept.len())?;
    for vertex in &plan.memories.kept {
        let state = plan.state_at(*vertex);
        let classes = divided.of(state);
        nodes.push(drawing.node(alloc, plan, &divided.store, classes, *vertex, state)?)?;
    }
    Ok(nodes)
}

/// The same, after dividing the letters of each memory state's automaton state.
fn nodes_by_dividing(
    alloc: Global,
    plan: &Plan<'_>,
    drawing: &mut Drawing,
) -> Result<Vec<Node>, AllocError>
    requires plan { IsPlanned plan.now }
    requires letters { drawing.old.store.propositions ≡ length plan.now.automaton.now.names }
    requires rows { AreRowsBy plan.now drawing.old.rows.keys }
    ensures letters { OnOk result (drawing.new.store.propositions ≡ length plan.now.automaton.now.names) }
    ensures drawn { IfOk result (λ nodes. AreDrawnBy plan.now drawing.new.store drawing.new.rows.keys nodes.items
        (length plan.now.memories.now.kept.items)) }
{
    let mask = first_mask(plan.automaton, plan.order);
    let mut store = plan.automaton.store().copy()?;
    let mut nodes = Vec::with_capacity(alloc, plan.memories.kept.len())?;
    for vertex in &plan.memories.kept {
        nodes.push(drawing.node_by_dividing(alloc, plan, &mut store, mask, *vertex)?)?;
    }
    Ok(nodes)
}

/// The propositions that a machine reads, and those that it outputs.
fn roles(
    alloc: Global,
    automaton: &Automaton,
    order: Order,
    moves_first: bool,
) -> Result<Propositions, AllocError>
    ensures few { length automaton.now.names ≤ 64 }
    ensures sound { AreNames automaton.now.names }
    ensures names { IfOk result (λ p. map bytes_of p.names.items ≡ automaton.now.names) }
    ensures roles { IfOk result (λ p. HasRoles moves_first (board_of order automaton.now) p.inputs.items
        p.outputs.items) }
{
    let mut inputs = Vec::new(alloc);
    let mut outputs = Vec::new(alloc);
    for proposition in 0..automaton.names().len() {
        let proposition = proposition as u32;
        if is_first(order, automaton.controllable(), proposition) == moves_first {
            outputs.push(proposition)?;
        } else {
            inputs.push(proposition)?;
        }
    }
    Ok(Propositions {
        names: automaton.names().to_vec(alloc)?,
        inputs,
        outputs,
    })
}
