//! Parsing the text of a certificate.

ghost use Rattle.std.specs.Prelude.{◌≡◌, ℕ, List, Result, IfOk, length};
ghost use Rattle.std.specs.List.Sorted.{IsStrictlyIncreasing};
ghost use Rattle.ps_text.specs.Answers.{Found};
ghost use Rattle.ps_game.specs.Games.{NamedGameData};
ghost use Rattle.ps_game.specs.Ranking.{ListsPriorities};
ghost use Rattle.ps_certificate.specs.Certificates.{CertificateData, Fits};
ghost use Rattle.ps_certificate.specs.Inner.Reading.{Tells, TellsHead, TellsEntries};
ghost use Rattle.ps_certificate.specs.Texts as parts;
ghost use Rattle.ps_certificate.specs.Texts.{ReadsCertificate, IsCertificateAnswer};
ghost use Rattle.ps_certificate.specs.declared.fault.CertCause.{CertCause};

use crate::certificate::Certificate;
use crate::counts::Counts;
use crate::entries::Entries;
use crate::fault::{CertCause, CertFault};
use crate::fields::{choice, exactly, priorities, version, winner};
use crate::pairs::counts_for;
use crate::places::Places;
use crate::rising::Rising;
use ps_game::{Arena, NamedGame, Player, priorities_of};
use ps_ids::Ids;
use ps_text::cursor::Cursor;
use std::alloc::{AllocError, Global};

/// What is known of the game before the text is read.
#[derive(Drop)]
struct Known<'a> {
    odd: Vec<u64>,
    even: Vec<u64>,
    ids: Places<'a>,
    ghost odd_rises: { IsStrictlyIncreasing odd.items },
    ghost even_rises: { IsStrictlyIncreasing even.items },
}

impl<'a> Known<'a> {
    /// The priorities that oppose a player, ascending.
    fn lost_by(&self, player: Player) -> Rising<'_>
        ensures { result.list.now ≡ parts.lost_by self.now.odd.items self.now.even.items player }
    {
        let list = if player == Player::EVEN {
            self.odd.as_slice()
        } else {
            self.even.as_slice()
        };
        Rising { list }
    }
}

/// The ids of a game's vertices, and the index of each. Fails if out of memory.
pub fn ids_of(alloc: Global, game: &NamedGame) -> Result<Ids, AllocError>
    ensures { IfOk result (λ ids. ids ≡ game.now.ids) }
{
    let mut ids = Ids::new(alloc);
    for vertex in 0..game.game().count() {
        ids.push(game.id(vertex))?;
    }
    Ok(ids)
}

/// Parses the lines before those of the vertices. Returns whether the text is compact.
fn head(cursor: &mut Cursor, known: &Known<'_>, count: usize) -> Result<bool, CertFault>
    ensures { (ids : List ℕ) → count ≡ length ids → TellsHead known.now.odd.items known.now.even.items ids cursor.old
        result cursor.new }
{
    cursor.word(b"psyncert ", CertCause::Syntax)?;
    let compact = version(cursor)?;
    cursor.word(b"\nvertices ", CertCause::Syntax)?;
    exactly(cursor, count as u64)?;
    cursor.word(b"\nodd", CertCause::Syntax)?;
    priorities(cursor, &known.odd)?;
    cursor.word(b"even", CertCause::Syntax)?;
    priorities(cursor, &known.even)?;
    Ok(compact)
}

#[derive(Clone, Copy)]
struct Won {
    winner: Player,
    choice: Option<usize>,
}

/// Parses the line of the vertex with this id; its counts replace `counts`.
fn entry(
    cursor: &mut Cursor,
    known: &Known<'_>,
    compact: bool,
    id: u64,
    counts: &mut Counts,
) -> Result<Won, CertFault>
    ensures { Tells (λ won. record { winner = won.winner; choice = won.choice; counts = counts.new })
        (parts.entry compact known.now.odd.items known.now.even.items known.now.ids id) cursor.old result cursor.new }
{
    exactly(cursor, id)?;
    cursor.byte(b' ', CertCause::Syntax)?;
    let winner = winner(cursor)?;
    cursor.byte(b' ', CertCause::Syntax)?;
    let choice = choice(cursor, &known.ids)?;
    let priorities = known.lost_by(winner);
    counts_for(cursor, priorities, compact, counts)?;
    Ok(Won { winner, choice })
}

/// Parses the lines of all vertices.
fn entries(
    alloc: Global,
    cursor: &mut Cursor,
    known: &Known<'_>,
    compact: bool,
    game: &NamedGame,
) -> Result<Entries, CertFault>
    ensures { Tells (λ es. es) (parts.entries compact known.now.odd.items known.now.even.items known.now.ids
        game.now.ids) cursor.old result cursor.new }
{
    let vertices = game.game().count();
    let mut entries = Entries::with_capacity(alloc, vertices)?;
    let mut counts = Counts::new(alloc);
    for vertex in 0..vertices {
        let won = entry(cursor, known, compact, game.id(vertex), &mut counts)?;
        entries.push_row(won.winner, won.choice, &counts.row())?;
    }
    Ok(entries)
}

fn entries_of(
    alloc: Global,
    text: &[u8],
    known: &Known<'_>,
    game: &NamedGame,
) -> Result<Entries, CertFault>
    requires { known.now.ids ≡ game.now.ids }
    ensures { TellsEntries known.now.odd.items known.now.even.items game.now.ids text.now result }
{
    let mut cursor = Cursor::new(text);
    let compact = head(&mut cursor, known, game.game().count())?;
    let entries = entries(alloc, &mut cursor, known, compact, game)?;
    if cursor.is_at_end() {
        Ok(entries)
    } else {
        Err(cursor.refusal(CertCause::Syntax))
    }
}

/// Parses the text of a certificate of a game, plain or compact. A move in the text is the id of a vertex, of which the
/// certificate has the index.
///
/// # Errors
///
/// [`CertFault::Text`] with the first error of the text and its offset, or out of memory.
pub fn read(alloc: Global, text: &[u8], game: &NamedGame) -> Result<Certificate, CertFault>
    ensures exact { IsCertificateAnswer game.now text.now result }
    ensures fits { IfOk result (Fits game.now.game) }
{
    let known = Known {
        odd: priorities_of(alloc, game.game(), 1)?,
        even: priorities_of(alloc, game.game(), 0)?,
        ids: Places::of(alloc, game)?,
    };
    let entries = entries_of(alloc, text, &known, game)?;
    let Known { odd, even, ids: _ } = known;
    Ok(Certificate { odd, even, entries })
}

/// For a given game, a text has at most one answer: a certificate or an error.
pub fn certificate_text_has_one_answer()
    ensures { (game : NamedGameData) (text : List ℕ) (answer other : Result CertificateData (Found CertCause)) →
        ReadsCertificate game text answer → ReadsCertificate game text other → answer ≡ other }
{}

/// For a given game, each text has an answer. This is about texts, not calls, so out of memory is none.
pub fn certificate_text_has_some_answer()
    ensures { (game : NamedGameData) (text : List ℕ) → (answer : Result CertificateData (Found CertCause)) ×
        ReadsCertificate game text answer }
{}
