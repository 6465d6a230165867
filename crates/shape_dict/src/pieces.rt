//! A dictionary whose patterns lie in several lists, its pieces, as threads that count make them.
ghost use Rattle.std.specs.Prelude.{◌≡◌, ◌<◌, ◌^◌, ◌++◌, OnOk, IfOk, length};
ghost use Rattle.shape_dict.specs.Contents.{squares_of};
ghost use Rattle.shape_dict.specs.Pieces.{entries_in};
ghost use Rattle.shape_dict.specs.Text.{header_of, header_text, diamonds_counted};

use crate::dictionaries::Dictionary;
use crate::entries::{Entry, Text};
use crate::faults::DictFault;
use crate::kinds::count_of;
use crate::parts::{made_parts, push_made};
use crate::texts::push_header;
use shape_core::Kind;
use std::alloc::{AllocError, Global};
use std::marker::Model;
use std::thread::Threads;

/// How many entries several lists have together.
fn length_of(pieces: &[Vec<Entry>]) -> usize
    requires { length (entries_in pieces.now) < 2 ^ 63 }
    ensures { result ≡ length (entries_in pieces.now) }
{
    let mut len = 0;
    for piece in pieces {
        len += piece.len();
    }
    len
}

/// How many squares several lists have together.
fn squares_in(pieces: &[Vec<Entry>]) -> u64
    requires { length (entries_in pieces.now) < 2 ^ 63 }
    ensures { result ≡ length (squares_of (entries_in pieces.now)) }
{
    let mut squares = 0;
    for piece in pieces {
        squares += count_of(Kind::Square, piece.as_slice());
    }
    squares
}

/// Appends the entries of several lists to one, list after list.
fn append_pieces(entries: &mut Vec<Entry>, pieces: Vec<Vec<Entry>>) -> Result<(), AllocError>
    ensures { OnOk result (entries.new.items ≡ entries.old.items ++ entries_in pieces.items) }
{
    for piece in pieces {
        entries.extend_from_slice(piece.as_slice())?;
    }
    Ok(())
}

/// A dictionary whose patterns lie in several lists, one after another: each thread that sorts
/// patterns makes a list of its own, and the text is made without copying them into one list.
/// Contracts see what they see of a `Dictionary`.
#[derive(Debug, Drop)]
pub struct PieceDictionary {
    games: u64,
    moves: u64,
    pieces: Vec<Vec<Entry>>,
    counts_diamonds: bool,
}

impl Model for PieceDictionary {
    ghost use Rattle.shape_dict.specs.Contents.{Contents, IsDictionary};
    ghost use Rattle.shape_dict.specs.Pieces.{entries_in};

    ghost Value = { Contents };

    ghost view = { λ d. record {
      games = d.games;
      moves = d.moves;
      entries = entries_in d.pieces.items;
      counts_diamonds = d.counts_diamonds;
    } };

    ghost invariant = { λ d. IsDictionary (record {
      games = d.games;
      moves = d.moves;
      entries = entries_in d.pieces.items;
      counts_diamonds = d.counts_diamonds;
    }) };
}

impl PieceDictionary {
    ghost use Rattle.std.specs.Prelude.{◌≡◌, IfOk, IfErr, length};
    ghost use Rattle.shape_dict.specs.Contents.{IsDictionary};
    ghost use Rattle.shape_dict.specs.Parts.{joined};
    ghost use Rattle.shape_dict.specs.Pieces.{entries_in};
    ghost use Rattle.shape_dict.specs.Text.{text_of};
    ghost use Rattle.shape_dict.specs.declared.faults.DictFault.TheVariants as fault;

    /// Makes a dictionary whose entries are those of the lists `pieces`, one list after another.
    /// They must be what `Dictionary::new` asks for: words rise, and games, moves and counts fit
    /// together. It takes no memory.
    pub fn new(
        games: u64,
        moves: u64,
        pieces: Vec<Vec<Entry>>,
        counts_diamonds: bool,
    ) -> PieceDictionary
        requires { IsDictionary (record {
          games = games;
          moves = moves;
          entries = entries_in pieces.items;
          counts_diamonds = counts_diamonds;
        }) }
        ensures { result ≡ record {
          games = games;
          moves = moves;
          entries = entries_in pieces.items;
          counts_diamonds = counts_diamonds;
        } }
    {
        PieceDictionary {
            games,
            moves,
            pieces,
            counts_diamonds,
        }
    }

    /// How many games were counted.
    pub fn games(&self) -> u64
        ensures { result ≡ self.now.games }
    {
        self.games
    }

    /// How many moves onto empty points these games have.
    pub fn moves(&self) -> u64
        ensures { result ≡ self.now.moves }
    {
        self.moves
    }

    /// The lists of the patterns, whose words rise within each list and from list to list.
    pub fn pieces(&self) -> &[Vec<Entry>]
        ensures value { entries_in result.now ≡ self.now.entries }
        ensures dictionary { IsDictionary self.now }
    {
        self.pieces.as_slice()
    }

    /// How many patterns there are.
    pub fn len(&self) -> usize
        ensures { result ≡ length self.now.entries }
    {
        length_of(self.pieces())
    }

    /// Turns it into a `Dictionary`, with its patterns in one list. It takes memory for that list.
    ///
    /// # Errors
    ///
    /// `AllocError` if memory was refused.
    pub fn into_dictionary(self, alloc: Global) -> Result<Dictionary, AllocError>
        ensures { IfOk result (λ dictionary. dictionary ≡ self) }
    {
        let mut entries = Vec::with_capacity(alloc, self.len())?;
        append_pieces(&mut entries, self.pieces)?;
        Ok(Dictionary::new(self.games, self.moves, entries, self.counts_diamonds))
    }

    /// Makes a text of the dictionary in parts, to be read one after another: the same bytes as
    /// `Dictionary::write` appends. The first part is the header. The others have the lines of the
    /// patterns in their order, and are at most `threads`, or one if that is 0. They are made at
    /// the same time, each in a thread of its own if one can be started, else in the caller's; a
    /// text of 65,536 patterns or fewer is made in the caller's. The call returns once all are
    /// made. It takes memory for the text, and for each thread.
    ///
    /// # Errors
    ///
    /// `Memory` if memory for the text was refused. The dictionary stays as it is.
    pub fn parts<R: Threads + Sync>(
        &self,
        rt: &R,
        alloc: Global,
        text: Text,
        threads: usize,
    ) -> Result<Vec<Vec<u8>>, DictFault>
        ensures ok { IfOk result (λ parts. joined parts.items ≡ text_of text self.now) }
        ensures fault { IfErr result (λ found. found ≡ fault.Memory) }
    {
        let mut parts = Vec::new(alloc);
        parts.push(header_part(alloc, text, self)?)?;
        push_made(
            &mut parts,
            made_parts(rt, alloc, text, self.pieces(), self.len(), threads)?,
        )?;
        Ok(parts)
    }
}

/// Returns how many squares a dictionary has, and how many diamonds, or None if it does not count
/// them. If it does not, all patterns are squares, and none is looked at. Else the squares are
/// counted in one pass over the patterns, and the rest are diamonds.
fn counts_of(dictionary: &PieceDictionary) -> (u64, Option<u64>)
    ensures squares { result.0 ≡ length (squares_of dictionary.now.entries) }
    ensures diamonds { result.1
        ≡ diamonds_counted dictionary.now.counts_diamonds dictionary.now.entries }
{
    let all = dictionary.len() as u64;
    let pieces = dictionary.pieces();
    if !dictionary.counts_diamonds {
        return (all, None);
    }
    let squares = squares_in(pieces);
    (squares, Some(all - squares))
}

/// Returns the header of the dictionary's text in the format `text`.
fn header_part(
    alloc: Global,
    text: Text,
    dictionary: &PieceDictionary,
) -> Result<Vec<u8>, AllocError>
    ensures { IfOk result (λ part. part.items ≡ header_text (header_of text dictionary.now)) }
{
    let (squares, diamonds) = counts_of(dictionary);
    let mut part = Vec::new(alloc);
    push_header(
        &mut part,
        text,
        dictionary.games,
        dictionary.moves,
        squares,
        diamonds,
    )?;
    Ok(part)
}
