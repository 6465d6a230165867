//! A dictionary of patterns: how often each was there and was played in a number of games.
ghost use Rattle.std.specs.Prelude.{◌≡◌, ◌++◌, OnOk, length};
ghost use Rattle.shape_dict.specs.Contents.{squares_of};
ghost use Rattle.shape_dict.specs.Text.{text_of, header_of, header_text, diamonds_counted};
ghost use Rattle.shape_dict.specs.Writing.{Begins};

use crate::entries::{Entry, Text};
use crate::faults::DictFault;
use crate::finding::find_entry;
use crate::joining::{merge, sum_of};
use crate::kinds::count_of;
use crate::pieces::PieceDictionary;
use crate::texts::{push_entries, push_header};
use shape_core::{Kind, Shape};
use std::alloc::{AllocError, Global};
use std::marker::Model;

/// How often each pattern was there and was played in a number of games, with the number of these
/// games and of their moves.
#[derive(Debug, Drop)]
pub struct Dictionary {
    games: u64,
    moves: u64,
    entries: Vec<Entry>,
    counts_diamonds: bool,
}

impl Model for Dictionary {
    ghost use Rattle.shape_dict.specs.Contents.{Contents, IsDictionary};

    ghost Value = { Contents };

    ghost view = { λ d. record {
      games = d.games;
      moves = d.moves;
      entries = d.entries.items;
      counts_diamonds = d.counts_diamonds;
    } };

    ghost invariant = { λ d. IsDictionary (record {
      games = d.games;
      moves = d.moves;
      entries = d.entries.items;
      counts_diamonds = d.counts_diamonds;
    }) };
}

impl Dictionary {
    ghost use Rattle.std.specs.Prelude.{◌≡◌, ◌++◌, OnOk, IfOk, IfErr};
    ghost use Rattle.shape_dict.specs.Text.{text_of};
    ghost use Rattle.shape_dict.specs.declared.faults.DictFault.TheVariants as fault;
    ghost use Rattle.shape_dict.specs.Contents.{IsDictionary, entry_of};
    ghost use Rattle.shape_dict.specs.Join.{IsJoin, IsOverflow, IsJoinFault};

    /// Makes a dictionary from its numbers of games and of moves and its entries. The entries'
    /// words must rise, each pattern must have been there once or more and played at most as often,
    /// and its first game, if that is known, must be below `games`. The squares must have been
    /// played `moves` times in all, and so must the diamonds if `counts_diamonds`; else no entry
    /// may be a diamond. With no games there are no moves. It takes no memory.
    pub fn new(games: u64, moves: u64, entries: Vec<Entry>, counts_diamonds: bool) -> Dictionary
        requires { IsDictionary (record {
          games = games;
          moves = moves;
          entries = entries.items;
          counts_diamonds = counts_diamonds;
        }) }
        ensures { result ≡ record {
          games = games;
          moves = moves;
          entries = entries.items;
          counts_diamonds = counts_diamonds;
        } }
    {
        Dictionary {
            games,
            moves,
            entries,
            counts_diamonds,
        }
    }

    /// How many games were counted.
    pub fn games(&self) -> u64
        ensures { result ≡ self.now.games }
    {
        self.games
    }

    /// How many moves onto empty points these games have.
    pub fn moves(&self) -> u64
        ensures { result ≡ self.now.moves }
    {
        self.moves
    }

    /// The entries of the patterns, in the order of their words.
    pub fn entries(&self) -> &[Entry]
        ensures value { result.now ≡ self.now.entries }
        ensures dictionary { IsDictionary self.now }
    {
        self.entries.as_slice()
    }

    /// Whether diamonds are counted as well as squares.
    pub fn counts_diamonds(&self) -> bool
        ensures { result ≡ self.now.counts_diamonds }
    {
        self.counts_diamonds
    }

    /// Turns the dictionary into a `PieceDictionary`, which can have its entries in several lists:
    /// here they are in one. It takes memory for the outer list of that one list, and copies no
    /// entry.
    ///
    /// # Errors
    ///
    /// `AllocError` if memory was refused.
    pub fn into_pieces(self, alloc: Global) -> Result<PieceDictionary, AllocError>
        ensures { IfOk result (λ pieces. pieces ≡ self) }
    {
        let mut pieces = Vec::new(alloc);
        pieces.push(self.entries)?;
        Ok(PieceDictionary::new(self.games, self.moves, pieces, self.counts_diamonds))
    }

    /// Returns the entry of the pattern `shape`, or None if the dictionary does not have the
    /// pattern. It takes no memory.
    pub fn find(&self, shape: Shape) -> Option<Entry>
        ensures { result ≡ entry_of shape self.now.entries }
    {
        find_entry(self.entries.as_slice(), shape)
    }

    /// Joins two dictionaries into a new one: the games of `right` follow those of `left`, and all
    /// counts are sums. A pattern that `left` has keeps its first game from there, known or
    /// unknown. A pattern that `right` alone has keeps its first game, with the number of `left`'s
    /// games added to it.
    ///
    /// # Errors
    ///
    /// `MixedKinds` exactly if one counts diamonds and the other does not. Else `Overflow` if a sum
    /// is over 2^64 - 1, and `Memory` if memory was refused. Memory is asked for only if the sum of
    /// the games and that of the moves are 2^64 - 1 at most. Both dictionaries stay as they are.
    pub fn join(
        alloc: Global,
        left: &Dictionary,
        right: &Dictionary,
    ) -> Result<Dictionary, DictFault>
        ensures ok { IfOk result (IsJoin left.now right.now) }
        ensures kinds { OnOk result (left.now.counts_diamonds ≡ right.now.counts_diamonds) }
        ensures fits { OnOk result (IsOverflow left.now right.now → ⊥) }
        ensures fault { IfErr result (IsJoinFault left.now right.now) }
    {
        if left.counts_diamonds() != right.counts_diamonds() {
            return Err(DictFault::MixedKinds);
        }
        let games = sum_of(left.games(), right.games())?;
        let moves = sum_of(left.moves(), right.moves())?;
        let entries = merge(alloc, left.games(), left.entries(), right.entries())?;
        Ok(Dictionary::new(games, moves, entries, left.counts_diamonds()))
    }

    /// Appends this dictionary to `out`, in the format `text`: text 1 has the squares alone, text 2
    /// the diamonds too, and text 3 also the first game that had each pattern.
    ///
    /// # Errors
    ///
    /// `Memory` if memory for the text was refused: `out` is then as it was.
    pub fn write(&self, text: Text, out: &mut Vec<u8>) -> Result<(), DictFault>
        ensures ok { OnOk result (out.new.items ≡ out.old.items ++ text_of text self.now) }
        ensures err { IfErr result (λ found. (found ≡ fault.Memory)
            × (out.new.items ≡ out.old.items)) }
    {
        let start = out.len();
        if let Err(error) = append(self, text, out) {
            out.truncate(start);
            return Err(error.into());
        }
        Ok(())
    }
}

/// Returns how many squares a dictionary has, and how many diamonds, or None if it does not count
/// them. If it does not, all entries are squares, and none is looked at. Else the squares are
/// counted in one pass over the entries, and the rest are diamonds.
fn counts_of(dictionary: &Dictionary) -> (u64, Option<u64>)
    ensures squares { result.0 ≡ length (squares_of dictionary.now.entries) }
    ensures diamonds { result.1
        ≡ diamonds_counted dictionary.now.counts_diamonds dictionary.now.entries }
{
    let entries = dictionary.entries();
    let all = entries.len() as u64;
    if !dictionary.counts_diamonds() {
        return (all, None);
    }
    let squares = count_of(Kind::Square, entries);
    (squares, Some(all - squares))
}

/// Appends the header of the dictionary's text to `out`, or only a part of it if memory was
/// refused.
fn append_header(dictionary: &Dictionary, text: Text, out: &mut Vec<u8>) -> Result<(), AllocError>
    ensures ok { OnOk result (out.new.items
        ≡ out.old.items ++ header_text (header_of text dictionary.now)) }
    ensures begins { Begins out.old.items out.new.items }
{
    let (squares, diamonds) = counts_of(dictionary);
    push_header(
        out,
        text,
        dictionary.games(),
        dictionary.moves(),
        squares,
        diamonds,
    )
}

/// Appends the dictionary's whole text to `out`, or only a part of it if memory was refused.
fn append(dictionary: &Dictionary, text: Text, out: &mut Vec<u8>) -> Result<(), AllocError>
    ensures ok { OnOk result (out.new.items ≡ out.old.items ++ text_of text dictionary.now) }
    ensures begins { Begins out.old.items out.new.items }
{
    append_header(dictionary, text, out)?;
    push_entries(out, text, dictionary.entries())
}
