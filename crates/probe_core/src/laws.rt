//! Laws of calls and their histories (the calls that have ended, with their answers), for proofs in
//! the crates that use this one. Each is a function that does nothing, and its contract is the law.
//! In them the words of a table's slots are a plain list. A sequential table is one that takes
//! whole calls one after another.
ghost use Rattle.std.specs.Prelude.{◌≡◌, ℕ, ◌^◌, None, List, [], ◌∷◌, ◌++◌, slice_index_or};
ghost use Rattle.probe_core.specs.Machine.{Machine, follows, place_in};
ghost use Rattle.probe_core.specs.Sequential.{Table, Step, IsNumber};
ghost use Rattle.probe_core.specs.History.{Answered, content, IsRunFrom, IsLegal, AreWordsOf};
ghost use Rattle.probe_core.specs.World.{words_after};
ghost use Rattle.probe_core.specs.Placing.{IsOrderly, HaveGrown};
ghost use Rattle.probe_core.specs.Showing.{key_in, table_of, words_showing};
ghost use Rattle.probe_core.specs.Way.{IsOnWay, Tells};

use crate::orders::ProbeOrder;

/// Law of one step (a load or a compare-exchange) of a call. The words must be orderly: no key
/// comes after a free slot in its probe order. The slots that the call has probed before must hold
/// other keys. After the step either the call goes on and the words are as they were, or its answer
/// is right for a sequential table with the content that the words showed before, and leaves the
/// content that they show after it. The words are orderly again, and the slots that any other call
/// has probed before still hold other keys than its own. It takes no memory.
pub fn steps_tell_of_the_key<O: ProbeOrder>(_order: &O)
    ensures tells { (words : List ℕ) (machine : Machine) →
        IsOrderly (2 ^ O.exponent _order.now) (O.place_of _order.now) words →
        IsOnWay (2 ^ O.exponent _order.now) (O.place_of _order.now) words machine →
        Tells (2 ^ O.exponent _order.now) (O.place_of _order.now) words machine
        (follows (2 ^ O.exponent _order.now) machine (place_in (O.place_of _order.now) machine)
        (slice_index_or words (place_in (O.place_of _order.now) machine) 0)) }
    ensures orderly { (words : List ℕ) (machine : Machine) →
        IsOrderly (2 ^ O.exponent _order.now) (O.place_of _order.now) words →
        IsOnWay (2 ^ O.exponent _order.now) (O.place_of _order.now) words machine →
        IsOrderly (2 ^ O.exponent _order.now) (O.place_of _order.now)
        (words_after words machine (place_in (O.place_of _order.now) machine)) }
    ensures others { (words : List ℕ) (machine other : Machine) →
        IsOnWay (2 ^ O.exponent _order.now) (O.place_of _order.now) words other →
        IsOnWay (2 ^ O.exponent _order.now) (O.place_of _order.now)
        (words_after words machine (place_in (O.place_of _order.now) machine)) other }
{}

/// Law: if a call with an answer that a sequential table would give, from the content after a legal
/// history, is appended to that history, the new history is legal. (In a legal history a sequential
/// table gives each answer.) Its content is what the call leaves. It takes no memory.
pub fn legal_histories_go_on()
    ensures legal { (slots : ℕ) (history : List Answered) (entry : Answered) (new : Table) →
        IsLegal slots history →
        Step (content slots history) entry.call entry.answer new →
        IsLegal slots (history ++ entry ∷ []) }
    ensures content { (slots : ℕ) (history : List Answered) (entry : Answered) (new : Table) →
        Step (content slots history) entry.call entry.answer new →
        content slots (history ++ entry ∷ []) ≡ new }
{}

/// Law: the first part of a legal history (one whose answers a sequential table gives) is legal,
/// and the rest is what such a table does from there on. A number that a key has after the first
/// part is its number after the whole. If words show the content after the first part, and later
/// words that after the whole, free slots were taken in between, and no other word has changed. It
/// takes no memory.
pub fn longer_histories_keep_numbers()
    ensures front { (slots : ℕ) (front rest : List Answered) → IsLegal slots (front ++ rest)
        → IsLegal slots front }
    ensures rest { (slots : ℕ) (front rest : List Answered) → IsLegal slots (front ++ rest)
        → IsRunFrom (content slots front) rest }
    ensures numbers { (slots : ℕ) (front rest : List Answered) (key number : ℕ) →
        IsLegal slots (front ++ rest) →
        IsNumber (content slots front) key number →
        IsNumber (content slots (front ++ rest)) key number }
    ensures words { (slots : ℕ) (front rest : List Answered) (words later : List ℕ) →
        IsLegal slots (front ++ rest) →
        content slots front ≡ table_of words →
        content slots (front ++ rest) ≡ table_of later →
        HaveGrown words later }
{}

/// Law: after a legal history (one whose answers a sequential table gives) no key has two numbers.
/// It takes no memory.
pub fn keys_have_one_number()
    ensures { (slots : ℕ) (history : List Answered) (key p q : ℕ) →
        IsLegal slots history →
        IsNumber (content slots history) key p →
        IsNumber (content slots history) key q →
        p ≡ q }
{}

/// Law: the words of the slots and the table's content determine each other. The slot p has the key
/// x exactly if its word is x + 1. Words made from a table's content show that content, and the
/// words made from the content that some words show are those words again. It takes no memory.
pub fn words_are_of_what_they_show()
    ensures words { (words : List ℕ) (table : Table) → table ≡ table_of words
        → AreWordsOf words table }
    ensures at { (words : List ℕ) (p : ℕ)
        → slice_index_or (table_of words) p None ≡ key_in (slice_index_or words p 0) }
    ensures again { (words : List ℕ) → words_showing (table_of words) ≡ words }
    ensures made { (table : Table) → table_of (words_showing table) ≡ table }
{}
