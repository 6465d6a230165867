//! Laws of the texts of dictionaries, each the contract of a function that does nothing.
ghost use Rattle.std.specs.Prelude.{◌≡◌, ◌≢◌, ◌++◌, ℕ, List};
ghost use Rattle.shape_dict.specs.Contents.{Contents};
ghost use Rattle.shape_dict.specs.Reading.{IsTextOf, IsTextFault, IsFrontFault};
ghost use Rattle.shape_dict.specs.declared.faults.DictFault.{DictFault};
ghost use Rattle.shape_dict.specs.declared.faults.DictFault.TheVariants as fault;

/// States, for proofs, that a text is of one dictionary alone, and that no text is the beginning of
/// another one. It does nothing at run time.
pub fn texts_are_distinct()
    ensures { (one : Contents) → (other : Contents) → (text : List ℕ) → (other_text : List ℕ)
        → (after : List ℕ) → (other_after : List ℕ)
        → IsTextOf one text → IsTextOf other other_text → text ++ after ≡ other_text ++ other_after
        → (text ≡ other_text) × (one ≡ other) }
{}

/// States, for proofs, that bytes have no two faults besides `Memory`: neither as a whole text, nor
/// where a text is read from their front. It does nothing at run time.
pub fn texts_have_one_fault()
    ensures text { (bytes : List ℕ) → (one : DictFault) → (other : DictFault)
        → IsTextFault bytes one → IsTextFault bytes other
        → one ≢ fault.Memory → other ≢ fault.Memory → one ≡ other }
    ensures front { (bytes : List ℕ) → (one : DictFault) → (other : DictFault)
        → IsFrontFault bytes one → IsFrontFault bytes other
        → one ≢ fault.Memory → other ≢ fault.Memory → one ≡ other }
{}
