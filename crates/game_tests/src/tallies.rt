//! Games and a collection counted on one thread, with counts worked out by their definition.
use go_record::{Kind, Record, read_record};
use plain_core::{count_plain, tally_plain};
use sgf_core::{SgfFault, Tree, Trees};
use shape_core::Kinds;
use shape_dict::Entry;
use std::alloc::Global;
use std::test::Fail;
use tally_core::{Report, TallyFault, Walk};

/// A pattern's word, how often it was there, how often it was played, and the first game that has
/// it, if that is known.
type Row = (u64, u64, u64, Option<u64>);

/// What is counted of one black and one white move, on a board of two points.
const OF_TWO_STONES: [Row; 4] = [
    (0x3fff3fcffffff, 2, 1, None),
    (0x3fffbfcffffff, 1, 1, None),
    (0x7ffcffcffffff, 2, 1, None),
    (0x7ffeffcffffff, 1, 1, None),
];

/// What is counted of a game of one point, and of those two stones after it.
const OF_BOTH_GAMES: [Row; 6] = [
    (0x3fff3fcffffff, 2, 1, Some(1)),
    (0x3fffbfcffffff, 1, 1, Some(1)),
    (0x3fffffcffffff, 1, 1, Some(0)),
    (0x7ffcffcffffff, 2, 1, Some(1)),
    (0x7ffeffcffffff, 1, 1, Some(1)),
    (0x7fffffcffffff, 1, 1, Some(0)),
];

/// Whether the entries have these words, counts and first games.
fn are(entries: &[Entry], wanted: &[Row]) -> bool {
    for (entry, wanted) in entries.iter().zip(wanted) {
        let word = entry.shape.word().bits();
        if (word, entry.there, entry.played, entry.first.get()) != *wanted {
            return false;
        }
    }
    entries.len() == wanted.len()
}

/// Returns the record of a tree. None if it is of another game, or has a fault, or memory was
/// refused.
fn record_of(alloc: Global, tree: &Tree<'_>) -> Option<Record> {
    match read_record(alloc, tree) {
        Ok(Kind::Go(game)) => Some(game),
        Ok(Kind::Other) | Err(_) => None,
    }
}

/// Returns the record of a game of one black and one white move, on a board of two points. None if
/// memory was refused.
fn two_stones(alloc: Global) -> Option<Record> {
    let mut trees = Trees::new(b"(;SZ[2:1];B[aa];W[ba])").ok()?;
    match trees.next_tree(alloc) {
        Ok(Some(tree)) => record_of(alloc, &tree),
        Ok(None) | Err(_) => None,
    }
}

/// Whether the tally of `two_stones` has its moves, its patterns and their counts.
fn is_tallied(alloc: Global, game: &Record) -> Result<bool, TallyFault> {
    let tally = tally_plain(alloc, Kinds::Both, game)?;
    Ok(tally.moves() == 2 && are(tally.entries(), &OF_TWO_STONES))
}

/// Whether the walk of `two_stones` finds its moves, and meets its patterns.
fn is_walked(walk: &mut Walk, game: &Record) -> Result<bool, TallyFault> {
    let moves = walk.walk(game)?;
    Ok(moves == 2 && walk.meetings().len() == 4)
}

/// The same of a new walk. If memory was refused to it, it walks the game once more.
fn is_walked_again(alloc: Global, game: &Record) -> bool {
    let mut walk = Walk::begin(alloc, Kinds::Both);
    let found = is_walked(&mut walk, game);
    found == Ok(true) || found == Err(TallyFault::Memory) && is_walked(&mut walk, game) == Ok(true)
}

/// Whether `two_stones` has its counts, by its tally and by its walk. A call to which memory was
/// refused is repeated once. None if memory for the record was refused.
fn game_is_counted(alloc: Global) -> Option<bool> {
    let game = two_stones(alloc)?;
    let found = is_tallied(alloc, &game);
    let tallied = found == Ok(true)
        || found == Err(TallyFault::Memory) && is_tallied(alloc, &game) == Ok(true);
    Some(tallied && is_walked_again(alloc, &game))
}

/// Whether counting a collection of both games, a tree of another game and a refused one gives its
/// moves, its patterns and its report.
fn collection_is_counted(alloc: Global) -> Result<bool, TallyFault> {
    let input = b"(;SZ[1];B[aa])(;GM[2])(;SZ[9];B[jj])(;SZ[2:1];B[aa];W[ba])";
    let counted = count_plain(alloc, Kinds::Both, input)?;
    let is_reported = counted.report
        == Report {
            games: 2,
            others: 1,
            refused: 1,
        };
    let dictionary = counted.dictionary.into_dictionary(alloc)?;
    Ok(is_reported && dictionary.moves() == 3 && are(dictionary.entries(), &OF_BOTH_GAMES))
}

/// With memory refused at any one request, each call gives these counts or says that memory was
/// refused, and gives them when it is repeated.
#[test]
fn counts_are_these_once_memory_is_there(rt: HostRuntime) {
    let alloc = rt.alloc();
    let game = game_is_counted(alloc);
    assert!(rt; game == Some(true) || game == None && game_is_counted(alloc) == Some(true));
    let found = collection_is_counted(alloc);
    let is_refused = found == Err(TallyFault::Memory);
    assert!(rt; found == Ok(true) || is_refused && collection_is_counted(alloc) == Ok(true));
}

#[test]
fn faults_have_texts(rt: HostRuntime) -> Result<(), Fail> {
    let (settings, memory) = (TallyFault::BadSettings, TallyFault::Memory);
    let (syntax, overflow) = (TallyFault::Sgf(SgfFault::NoValue(4)), TallyFault::Overflow);
    let texts = format!(in rt.alloc(); "{settings}, {memory}, {syntax}, {overflow}")?;
    let wanted = "F5 bad settings, F6 no memory, S3 no value at 4, F8 count too large";
    assert!(rt; texts.as_str() == wanted);
    Ok(())
}
