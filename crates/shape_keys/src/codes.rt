//! Words, which are the numbers of patterns, from the codes of their 25 cells.
ghost use Rattle.std.specs.Prelude.{◌≡◌, ◌<◌, ◌^◌, SomeIff, IfSome};
ghost use Rattle.shape_core.specs.Word.{sum_of, word_of};
ghost use Rattle.shape_core.specs.declared.words.Kind.TheVariants as kind;
ghost use Rattle.shape_keys.specs.Codes.{AreCodes};
ghost use Rattle.shape_keys.specs.Status.{number_of};
ghost use Rattle.shape_keys.specs.declared.statuses.Status.TheVariants as status;

use crate::statuses::Status;

/// The bit that a diamond's word has besides the 50 bits of its cells, and a square's word has not.
const DIAMOND: u64 = 1 << 50;

/// The greatest code: a cell off the board.
const OFF_BOARD: u8 = 3;

/// Returns the 50 bits of a word whose cells have these codes: two bits a cell, the first cell
/// lowest. None if a code is over 3. The cells are added from the last to the first: the sum from a
/// cell on is its code and four times the sum after it.
fn sum_of_codes(codes: &[u8; 25]) -> Option<u64>
    ensures sum { SomeIff result (AreCodes codes.now) (sum_of codes.now) }
    ensures small { IfSome result (λ sum. sum < 2 ^ 50) }
{
    let mut sum: u64 = 0;
    for place in 0..25 {
        let code = codes[24 - place];
        if code > OFF_BOARD {
            return None;
        }
        sum = 4 * sum + u64::from(code);
    }
    Some(sum)
}

/// Writes to `word` the word of the square whose cells have these codes, row by row from the top,
/// each row from the left: 0 empty, 1 black, 2 white, 3 off the board. Takes no memory.
///
/// Returns `Done` and writes the word. Returns `BadCode` exactly if a code is over 3; `word` stays
/// as it was then.
#[unsafe(no_mangle)]
pub extern "C" fn shapes_square(codes: &[u8; 25], word: &mut u64) -> u32
    ensures done { AreCodes codes.now → (result ≡ number_of status.Done)
        × (word.new ≡ word_of kind.Square codes.now) × (word.new < 2 ^ 51) }
    ensures code { (AreCodes codes.now → ⊥) → (result ≡ number_of status.BadCode)
        × (word.new ≡ word.old) }
{
    match sum_of_codes(codes) {
        Some(sum) => {
            *word = sum;
            Status::Done.number()
        }
        None => Status::BadCode.number(),
    }
}

/// Writes to `word` the word of the diamond whose cells have these codes, row by row from the top,
/// each row from the left: 0 empty, 1 black, 2 white, 3 off the board. Takes no memory.
///
/// Returns `Done` and writes the word. Returns `BadCode` exactly if a code is over 3; `word` stays
/// as it was then.
#[unsafe(no_mangle)]
pub extern "C" fn shapes_diamond(codes: &[u8; 25], word: &mut u64) -> u32
    ensures done { AreCodes codes.now → (result ≡ number_of status.Done)
        × (word.new ≡ word_of kind.Diamond codes.now) × (word.new < 2 ^ 51) }
    ensures code { (AreCodes codes.now → ⊥) → (result ≡ number_of status.BadCode)
        × (word.new ≡ word.old) }
{
    match sum_of_codes(codes) {
        Some(sum) => {
            *word = DIAMOND + sum;
            Status::Done.number()
        }
        None => Status::BadCode.number(),
    }
}
