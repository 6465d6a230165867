//! The patterns that are looked for.
ghost use Rattle.std.specs.Prelude.{◌≡◌, All};
ghost use Rattle.shape_core.specs.Word.{kind_of};
ghost use Rattle.shape_core.specs.declared.words.Kind.TheVariants as kind;
ghost use Rattle.shape_core.specs.declared.words.Kinds.TheVariants as kinds;

use shape_core::{Kind, Kinds, Shape};
use std::alloc::{AllocError, Global};
use std::marker::Model;

/// The patterns that a search looks for.
///
/// Contracts see the list of their canonical words, the numbers of the patterns.
#[derive(Debug, Drop)]
pub struct Wanted {
    /// The patterns, in rising order.
    words: Vec<Shape>,
    /// `Both` if there are diamonds among them, else `Squares`.
    kinds: Kinds,
}

impl Model for Wanted {
    ghost use Rattle.std.specs.Prelude.{ℕ, List};
    ghost use Rattle.hits_core.specs.Inner.Finding.{AreWanted};

    ghost Value = { List ℕ };

    ghost view = { λ w. w.words.items };

    ghost invariant = { λ w. AreWanted w.kinds w.words.items };
}

/// Returns the kinds among `words`: `Squares` if all are squares, else `Both`.
fn kinds_among(words: &[Shape]) -> Kinds
    ensures { result ≡ kinds.Squares → All (λ word. kind_of word ≡ kind.Square) words.now }
{
    for shape in words {
        match shape.word().kind() {
            Kind::Diamond => return Kinds::Both,
            Kind::Square => (),
        }
    }
    Kinds::Squares
}

impl Wanted {
    ghost use Rattle.std.specs.Prelude.{◌≡◌, ◌==◌, ◌∷◌, [], ℕ, false, filter, IfOk};
    ghost use Rattle.hits_core.specs.Wanted.{is_wanted};
    ghost use Rattle.hits_core.specs.Inner.Finding.{listed};

    /// Makes the set of the patterns in `words`, to be looked for. `words` may be in any order, and
    /// have a pattern more than once. It takes no memory.
    pub fn new(words: Vec<Shape>) -> Wanted
        ensures { (word : ℕ) → is_wanted result word ≡ is_wanted words.items word }
    {
        let mut words = words;
        words.sort_unstable();
        let kinds = kinds_among(&words);
        Wanted { words, kinds }
    }

    /// Makes the set that has `shape` alone. It takes memory for that.
    ///
    /// # Errors
    ///
    /// `AllocError` if memory was refused.
    pub fn one(alloc: Global, shape: Shape) -> Result<Wanted, AllocError>
        ensures { IfOk result (λ wanted. (word : ℕ) → is_wanted wanted word ≡ (shape == word)) }
    {
        Ok(Wanted::new(vec![in alloc; shape; 1]?))
    }

    /// Returns the kinds of pattern that have to be looked at: `Both` if a diamond is wanted, else
    /// `Squares`.
    pub(crate) fn kinds(&self) -> Kinds
        ensures { result ≡ kinds.Squares → (word : ℕ) → kind_of word ≡ kind.Diamond
            → is_wanted self.now word ≡ false }
    {
        self.kinds
    }

    /// Returns `shape` if it is one of the wanted patterns, else None.
    pub(crate) fn pick(&self, shape: Shape) -> Option<Shape>
        ensures { listed result ≡ filter (is_wanted self.now) (shape ∷ []) }
    {
        match self.words.binary_search(&shape) {
            Ok(_) => Some(shape),
            Err(_) => None,
        }
    }
}
