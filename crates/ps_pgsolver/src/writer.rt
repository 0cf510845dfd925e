//! The writer of game texts.

ghost use Rattle.std.specs.Prelude.{◌≡◌, ◌++◌, ◌<◌, ◌≤◌, decimal, OnOk, IfOk, Ok, None, slice_index, slice_index_or};
ghost use Rattle.std.specs.Prelude.{vec_len, option_copied};
ghost use Rattle.std.specs.List.{All};
ghost use Rattle.ps_game.specs.Games.{IsNamedGame, vertex_count, priority_of, successors_of, no_vertex};
ghost use Rattle.ps_game.specs.Plays.{greatest};
ghost use Rattle.ps_pgsolver.specs.Reading.{IsGameAnswer, text_limit};
ghost use Rattle.ps_pgsolver.specs.Written.{IsWord, list_text, name_text, vertex_line, vertex_lines, head_text};
ghost use Rattle.ps_pgsolver.specs.Written.{game_text};

use ps_game::{Arena, NamedGame};
use ps_text::numbers::write_number;
use std::alloc::{AllocError, Global};

/// A line with the greatest id, and one for each vertex. Fails if out of memory.
pub fn write(alloc: Global, game: &NamedGame) -> Result<Vec<u8>, AllocError>
    requires { 0 < vertex_count game.now.game }
    ensures bytes { IfOk result (λ bytes. bytes.items ≡ game_text game.now) }
    ensures read_again { IfOk result (λ bytes. vec_len bytes ≤ text_limit → IsGameAnswer bytes.items (Ok game.now)) }
{
    let mut out = Vec::new(alloc);
    write_head(&mut out, greatest_id(game))?;
    write_vertices(&mut out, game)?;
    Ok(out)
}

fn greatest_id(game: &NamedGame) -> u64
    ensures { result ≡ greatest game.now.ids }
{
    let mut most = 0;
    for vertex in 0..game.game().count() {
        most = game.id(vertex).max(most);
    }
    most
}

/// Writes `parity K;`, where K is the greatest id.
fn write_head(out: &mut Vec<u8>, id: u64) -> Result<(), AllocError>
    ensures bytes { OnOk result (out.new.items ≡ out.old.items ++ head_text id) }
    ensures word { IsWord id }
{
    out.extend_from_slice(b"parity ")?;
    write_number(out, id)?;
    out.extend_from_slice(b";\n")
}

fn write_vertices(out: &mut Vec<u8>, game: &NamedGame) -> Result<(), AllocError>
    ensures bytes { OnOk result (out.new.items ≡ out.old.items ++
        vertex_lines game.now.ids game.now.names 0 game.now.game) }
    ensures ids { OnOk result (All IsWord game.now.ids) }
    ensures priorities { OnOk result (All (λ vertex. IsWord vertex.priority) game.now.game) }
    ensures well_formed { OnOk result (IsNamedGame game.now) }
{
    for vertex in 0..game.game().count() {
        write_vertex(out, game, vertex)?;
    }
    Ok(())
}

fn write_vertex(out: &mut Vec<u8>, named: &NamedGame, vertex: usize) -> Result<(), AllocError>
    requires { vertex < vertex_count named.now.game }
    ensures bytes { OnOk result (out.new.items ≡ out.old.items ++
        vertex_line named.now.ids (slice_index named.now.ids vertex) (slice_index_or named.now.game vertex no_vertex)
        (slice_index_or named.now.names vertex None)) }
    ensures id { OnOk result (IsWord (slice_index named.now.ids vertex)) }
    ensures priority { OnOk result (IsWord (priority_of named.now.game vertex)) }
{
    let game = named.game();
    write_number(out, named.id(vertex))?;
    out.push(b' ')?;
    write_number(out, game.priority(vertex))?;
    out.push(b' ')?;
    write_number(out, u64::from(game.owner(vertex)))?;
    out.push(b' ')?;
    write_successors(out, named, vertex)?;
    write_name(out, named.name(vertex))?;
    out.extend_from_slice(b";\n")?;
    Ok(())
}

fn write_successors(out: &mut Vec<u8>, named: &NamedGame, vertex: usize) -> Result<(), AllocError>
    requires { vertex < vertex_count named.now.game }
    ensures { OnOk result (out.new.items ≡ out.old.items ++ list_text named.now.ids
        (successors_of named.now.game vertex)) }
{
    let game = named.game();
    write_number(out, named.id(game.successor(vertex, 0)))?;
    for number in 1..game.degree(vertex) {
        out.push(b',')?;
        write_number(out, named.id(game.successor(vertex, number)))?;
    }
    Ok(())
}

fn write_name(out: &mut Vec<u8>, name: Option<&[u8]>) -> Result<(), AllocError>
    ensures { OnOk result (out.new.items ≡ out.old.items ++ name_text (option_copied name.entry)) }
{
    if let Some(bytes) = name {
        out.extend_from_slice(b" \"")?;
        out.extend_from_slice(bytes)?;
        out.push(b'"')?;
    }
    Ok(())
}
