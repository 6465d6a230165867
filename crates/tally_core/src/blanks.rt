//! An empty field (a board that keeps its points' pattern words), kept to be copied for each game.
ghost use Rattle.std.specs.Prelude.{◌≡◌, IfOk, IfErr};
ghost use Rattle.tally_core.specs.Inner.Blank.{IsBlank};
ghost use Rattle.shape_core.specs.declared.words.Kinds.{Kinds};
ghost use Rattle.tally_core.specs.declared.faults.TallyFault.TheVariants as fault;

use crate::faults::TallyFault;
use go_board::Size;
use shape_core::{Field, Kinds};
use std::alloc::Global;
use std::marker::Model;

/// Makes empty fields, which are boards that keep the pattern words of their points. It keeps one
/// field of the size that was asked for last, since copying that is quicker than computing the
/// words of all points again.
#[derive(Drop)]
pub(crate) struct Blank {
    alloc: Global,
    kinds: Kinds,
    field: Option<Field>,
}

impl Model for Blank {
    ghost use Rattle.std.specs.Prelude.{IfSome};
    ghost use Rattle.shape_core.specs.declared.words.Kinds.{Kinds};
    ghost use Rattle.tally_core.specs.Inner.Blank.{IsBlank};

    ghost Value = { Kinds };

    ghost view = { λ b. b.kinds };

    ghost invariant = { λ b. IfSome b.field (IsBlank b.kinds) };
}

impl Blank {
    /// Makes a source of empty fields, which keep the words of these `kinds` of pattern. It takes
    /// no memory, and stores no field to copy yet: the first call of `field` makes one.
    pub fn new(alloc: Global, kinds: Kinds) -> Blank
        ensures { result ≡ kinds }
    {
        Blank {
            alloc,
            kinds,
            field: None,
        }
    }

    /// Returns the kinds of pattern (squares alone, or diamonds too) whose words the fields keep.
    pub fn kinds(&self) -> Kinds
        ensures { result ≡ self.now }
    {
        self.kinds
    }

    /// Returns an empty field of this `size`. It takes memory for each point of the board, and
    /// twice that if the last field had another size or there was none: then it also makes a new
    /// one to copy. `TallyFault::Memory` if memory was refused.
    pub fn field(&mut self, size: Size) -> Result<Field, TallyFault>
        ensures kinds { self.new ≡ self.old }
        ensures blank { IfOk result (IsBlank self.old) }
        ensures size { IfOk result (λ field. field.board.size ≡ size) }
        ensures fault { IfErr result (λ found. found ≡ fault.Memory) }
    {
        if let Some(blank) = &self.field {
            if blank.size() == size {
                return Ok(blank.copied(self.alloc)?);
            }
        }
        let blank = Field::with_kinds(self.alloc, size, self.kinds)?;
        let field = blank.copied(self.alloc)?;
        self.field = Some(blank);
        Ok(field)
    }
}
