//! Writes the two texts of a certificate.

ghost use Rattle.std.specs.Prelude.{◌≡◌, ◌++◌, ◌+◌, ◌∷◌, [], ◌<◌, ◌≤◌, length, decimal, replicate, OnOk, IfOk, IfSome};
ghost use Rattle.std.specs.Prelude.{Ok, slice_index, slice_index_or};
ghost use Rattle.std.specs.List.{All};
ghost use Rattle.ps_game.specs.Games.{vertex_count};
ghost use Rattle.ps_certificate.specs.Certificates.{Fits, no_entry};
ghost use Rattle.ps_certificate.specs.Texts.{ReadsCertificate, lost_by};
ghost use Rattle.ps_certificate.specs.Written.{IsWord, IsWritable, fields, pairs, line_with, entry_lines, counts_text};
ghost use Rattle.ps_certificate.specs.Written.{version_digit, head_text, certificate_text, compact_text};
ghost use Rattle.ps_certificate.specs.Inner.Writing.{IsTextOf};

use crate::certificate::Certificate;
use crate::entries::Entries;
use crate::row::Row;
use crate::zeros::leading_zeros;
use ps_game::{Arena, NamedGame, NonzeroCount, Player};
use ps_text::numbers::write_number;
use std::alloc::{AllocError, Global};

/// Forty zeros, each after a space.
const ZEROS: &[u8; 80] =
    b" 0 0 0 0 0 0 0 0 0 0 0 0 0 0 0 0 0 0 0 0 0 0 0 0 0 0 0 0 0 0 0 0 0 0 0 0 0 0 0 0";

/// The length of a vertex's line without its counts, if id and move have seven digits each.
const LINE: usize = 18;

/// The text of a certificate with all counts: the first line, the number of vertices, the odd and the even priorities,
/// and a line for each vertex. Fails if out of memory.
pub fn write(
    alloc: Global,
    certificate: &Certificate,
    game: &NamedGame,
) -> Result<Vec<u8>, AllocError>
    requires { Fits game.now.game certificate.now }
    ensures bytes { IfOk result (λ bytes. bytes.items ≡ certificate_text game.now certificate.now) }
    ensures read_again { IfOk result (λ bytes. ReadsCertificate game.now bytes.items (Ok certificate.now)) }
{
    write_text(alloc, certificate, game, false)
}

/// The compact text, which has only the nonzero counts, each after its priority. Fails if out of memory.
pub fn write_compact(
    alloc: Global,
    certificate: &Certificate,
    game: &NamedGame,
) -> Result<Vec<u8>, AllocError>
    requires { Fits game.now.game certificate.now }
    ensures bytes { IfOk result (λ bytes. bytes.items ≡ compact_text game.now certificate.now) }
    ensures read_again { IfOk result (λ bytes. ReadsCertificate game.now bytes.items (Ok certificate.now)) }
{
    write_text(alloc, certificate, game, true)
}

fn write_text(
    alloc: Global,
    certificate: &Certificate,
    game: &NamedGame,
    compact: bool,
) -> Result<Vec<u8>, AllocError>
    requires { Fits game.now.game certificate.now }
    ensures { IfOk result (λ bytes. IsTextOf compact game.now certificate.now bytes.items) }
{
    let Certificate { odd, even, entries } = certificate;
    let mut out = Vec::with_capacity(alloc, room_for(entries, compact))?;
    write_head(&mut out, game.game().count(), certificate, compact)?;
    let mut row = Vec::new(alloc);
    write_entries(&mut out, &mut row, game, entries, odd, even, compact)?;
    Ok(out)
}

/// An estimate of the text's length, so that the buffer seldom grows.
fn room_for(entries: &Entries, compact: bool) -> usize {
    let mut room: usize = 0;
    for vertex in 0..entries.len() {
        let counts = if compact {
            0
        } else {
            entries.counts(vertex).len()
        };
        room = room
            .saturating_add(LINE)
            .saturating_add(counts.saturating_mul(2));
    }
    room
}

/// Writes the lines before those of the vertices.
fn write_head(
    out: &mut Vec<u8>,
    count: usize,
    certificate: &Certificate,
    compact: bool,
) -> Result<(), AllocError>
    ensures bytes { OnOk result (out.new.items ≡ out.old.items ++
        head_text compact count certificate.now.odd certificate.now.even) }
    ensures words { OnOk result (IsWord count × All IsWord certificate.now.odd × All IsWord certificate.now.even) }
{
    out.extend_from_slice(b"psyncert ")?;
    out.push(version_digit(compact))?;
    out.extend_from_slice(b"\nvertices ")?;
    write_number(out, count as u64)?;
    out.extend_from_slice(b"\nodd")?;
    write_fields(out, &certificate.odd)?;
    out.extend_from_slice(b"\neven")?;
    write_fields(out, &certificate.even)?;
    out.push(b'\n')?;
    Ok(())
}

/// 1 for a plain text, 2 for a compact one.
fn version_digit(compact: bool) -> u8
    ensures { result ≡ version_digit compact }
{
    if compact { b'2' } else { b'1' }
}

/// Writes the lines of all vertices; `row` is overwritten.
fn write_entries(
    out: &mut Vec<u8>,
    row: &mut Vec<u64>,
    game: &NamedGame,
    entries: &Entries,
    odd: &[u64],
    even: &[u64],
    compact: bool,
) -> Result<(), AllocError>
    requires each { length entries.now ≡ vertex_count game.now.game }
    requires ids { length game.now.ids ≡ length entries.now }
    requires writable { All (IsWritable (vertex_count game.now.game) odd.now even.now) entries.now }
    ensures bytes { OnOk result (out.new.items ≡ out.old.items ++
        entry_lines compact odd.now even.now game.now.ids 0 entries.now) }
    ensures ids { OnOk result (All IsWord game.now.ids) }
    ensures counts { OnOk result (All (λ entry. All IsWord entry.counts) entries.now) }
{
    for vertex in 0..entries.len() {
        let winner = Player::of_number(entries.winner(vertex));
        let priorities = lost_by(odd, even, winner);
        write_entry(out, row, game, entries, vertex, priorities, compact)?;
    }
    Ok(())
}

fn lost_by<'a>(odd: &'a [u64], even: &'a [u64], player: Player) -> &'a [u64]
    ensures { result.now ≡ lost_by odd.now even.now player }
{
    if player == Player::EVEN { odd } else { even }
}

/// Writes the line of a vertex, given the priorities that oppose its winner; `row` is overwritten.
fn write_entry(
    out: &mut Vec<u8>,
    row: &mut Vec<u64>,
    game: &NamedGame,
    entries: &Entries,
    vertex: usize,
    priorities: &[u64],
    compact: bool,
) -> Result<(), AllocError>
    requires entry { vertex < length entries.now }
    requires vertex { vertex < vertex_count game.now.game }
    requires winner { (slice_index_or entries.now vertex no_entry).winner < 2 }
    requires choice { IfSome (slice_index_or entries.now vertex no_entry).choice (λ w. w < vertex_count game.now.game) }
    requires counts { length (slice_index_or entries.now vertex no_entry).counts ≡ length priorities.now }
    ensures bytes { OnOk result (out.new.items ≡ out.old.items ++ line_with compact priorities.now game.now.ids
        (slice_index game.now.ids vertex) (slice_index_or entries.now vertex no_entry)) }
    ensures id { OnOk result (IsWord (slice_index game.now.ids vertex)) }
    ensures counts { OnOk result (All IsWord (slice_index_or entries.now vertex no_entry).counts) }
{
    write_number(out, game.id(vertex))?;
    out.extend_from_slice(&[b' ', b'0' + entries.winner(vertex), b' '])?;
    match entries.choice(vertex) {
        Some(successor) => write_number(out, game.id(successor))?,
        None => out.push(b'-')?,
    }
    write_counts(out, row, priorities, &entries.counts(vertex), compact)?;
    out.push(b'\n')?;
    Ok(())
}

/// Writes the counts of a vertex; in a plain text, they are first copied into `row`.
fn write_counts(
    out: &mut Vec<u8>,
    row: &mut Vec<u64>,
    priorities: &[u64],
    counts: &Row<'_>,
    compact: bool,
) -> Result<(), AllocError>
    requires { length counts.now ≡ length priorities.now }
    ensures bytes { OnOk result (out.new.items ≡ out.old.items ++ counts_text compact priorities.now counts.now) }
    ensures words { OnOk result (All IsWord counts.now) }
{
    if compact {
        write_pairs(out, priorities, counts)
    } else {
        counts.copy_into(row)?;
        write_fields(out, row)
    }
}

/// Writes the nonzero counts, each after its priority.
fn write_pairs(out: &mut Vec<u8>, priorities: &[u64], counts: &Row<'_>) -> Result<(), AllocError>
    requires { length counts.now ≡ length priorities.now }
    ensures bytes { OnOk result (out.new.items ≡ out.old.items ++ pairs priorities.now counts.now) }
    ensures words { OnOk result (All IsWord counts.now) }
{
    for number in 0..counts.placed.list.len() {
        let NonzeroCount { place, count } = counts.placed.list[number];
        if count != 0 {
            write_pair(out, priorities[place], count)?;
        }
    }
    Ok(())
}

/// Writes a space, a priority, a colon and its count.
fn write_pair(out: &mut Vec<u8>, priority: u64, count: u64) -> Result<(), AllocError>
    ensures { OnOk result (out.new.items ≡ out.old.items ++ 32 ∷ decimal priority ++ 58 ∷ decimal count) }
{
    out.push(b' ')?;
    write_number(out, priority)?;
    out.push(b':')?;
    write_number(out, count)
}

/// Writes numbers, each after a space. Most are 0, so up to 40 zeros are written in one step.
fn write_fields(out: &mut Vec<u8>, numbers: &[u64]) -> Result<(), AllocError>
    ensures bytes { OnOk result (out.new.items ≡ out.old.items ++ fields numbers.now) }
    ensures words { OnOk result (All IsWord numbers.now) }
{
    let mut place = 0;
    while place < numbers.len() {
        let zeros = leading_zeros(&numbers[place..], ZEROS.len() / 2);
        if zeros > 0 {
            write_zeros(out, zeros)?;
            place += zeros;
        } else {
            write_field(out, numbers[place])?;
            place += 1;
        }
    }
    Ok(())
}

fn write_zeros(out: &mut Vec<u8>, zeros: usize) -> Result<(), AllocError>
    requires { zeros ≤ 40 }
    ensures { OnOk result (out.new.items ≡ out.old.items ++ fields (replicate zeros 0)) }
{
    out.extend_from_slice(&ZEROS[..2 * zeros])?;
    Ok(())
}

fn write_field(out: &mut Vec<u8>, number: u64) -> Result<(), AllocError>
    ensures { OnOk result (out.new.items ≡ out.old.items ++ 32 ∷ decimal number) }
{
    out.push(b' ')?;
    write_number(out, number)
}
