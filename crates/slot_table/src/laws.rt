//! Laws of tables and their histories (their calls with the answers), for proofs in the crates that
//! use this one. Each is a function that does nothing, and its contract is the law, for any number
//! n of slots and any history.
ghost use Rattle.std.specs.Prelude.{◌≡◌, ◌≢◌, ℕ, ◌<◌, ◌≤◌, ◌↔◌, ◌⊎◌, List, None, Some, AllPairs};
ghost use Rattle.std.specs.Prelude.{[], ◌∷◌, ◌++◌, length, slice_index_or, Contains};
ghost use Rattle.probe_core.specs.declared.calls.Call.TheVariants.{Enter};
ghost use Rattle.probe_core.specs.declared.calls.Answer.TheVariants.{Number};
ghost use Rattle.probe_core.specs.Sequential.{IsNumber, IsFree, IsFull};
ghost use Rattle.slot_table.specs.declared.entries.Happened.{Happened};
ghost use Rattle.slot_table.specs.declared.entries.Happened.TheVariants.{Asked, Marked};
ghost use Rattle.slot_table.specs.History.{IsLegal, content_of, keys_of, least_at, IsAtMost};
ghost use Rattle.slot_table.specs.Passes.{Numbers, Known, IsPassOf, calls_of, Met};
ghost use Rattle.slot_table.specs.Stakes.{IsAsMuch, IsWhole, halved, half_of};

/// Law: the content of a table with n slots is a list of length n, with a key or None for each
/// number (slot). It takes no memory.
pub fn contents_have_n_places()
    ensures { (n : ℕ) (history : List Happened) → length (content_of n history) ≡ n }
{}

/// Law: a key has a number (a slot) exactly if the table's content has the key at that index, and
/// the number is free exactly if the content has None there. It takes no memory.
pub fn numbers_are_where_the_content_shows_them()
    ensures number { (n : ℕ) (history : List Happened) (key p : ℕ) → p < n →
        IsNumber (content_of n history) key p ↔
        (slice_index_or (content_of n history) p None ≡ Some key) }
    ensures free { (n : ℕ) (history : List Happened) (p : ℕ) → p < n →
        IsFree (content_of n history) p ↔
        (slice_index_or (content_of n history) p None ≡ None) }
{}

/// Law: after a legal history (one that a sequential table could have) no key has two numbers
/// (slots). It takes no memory.
pub fn a_key_has_one_number()
    ensures { (n : ℕ) (history : List Happened) (key p q : ℕ) → IsLegal n history →
        IsNumber (content_of n history) key p →
        IsNumber (content_of n history) key q →
        p ≡ q }
{}

/// Law: if a key has a number (a slot) after a history, the history has a call that entered the key
/// and was answered with that number. It takes no memory.
pub fn a_number_was_entered()
    ensures { (n : ℕ) (history : List Happened) (key number : ℕ) →
        IsNumber (content_of n history) key number →
        Contains history (Asked (Enter key) (Number number)) }
{}

/// Law: no number (slot) belongs to two keys. It takes no memory.
pub fn a_number_has_one_key()
    ensures { (n : ℕ) (history : List Happened) (key other p : ℕ) →
        IsNumber (content_of n history) key p →
        IsNumber (content_of n history) other p →
        key ≡ other }
{}

/// Law: the keys that have a number (a slot) are exactly the keys in the table's content. After a
/// legal history (one that a sequential table could have) they are all different. If no number is
/// free, there are n of them. It takes no memory.
pub fn a_full_table_has_n_different_keys()
    ensures numbered { (n : ℕ) (history : List Happened) (key : ℕ) →
        Contains (keys_of (content_of n history)) key ↔
        ((p : ℕ) × IsNumber (content_of n history) key p) }
    ensures different { (n : ℕ) (history : List Happened) → IsLegal n history →
        AllPairs (λ key other. key ≢ other) (keys_of (content_of n history)) }
    ensures full { (n : ℕ) (history : List Happened) → IsFull (content_of n history) →
        length (keys_of (content_of n history)) ≡ n }
{}

/// Law: splitting a pass (a caller's right to call the table) loses nothing of its stake (how much
/// of the whole right it is): the stakes of the two passes together are as much as the stake was.
/// It takes no memory.
pub fn a_split_loses_no_stake()
    ensures { (stake : List ℕ) → IsAsMuch (halved stake ++ half_of stake) stake }
{}

/// Law of stakes (parts of the right to call a table): "as much as" is transitive, sums of stakes
/// that are as much as one another are so too, and the order in a sum doesn't matter. It takes no
/// memory.
pub fn stakes_add_up()
    ensures through { (stake middle other : List ℕ) → IsAsMuch stake middle →
        IsAsMuch middle other → IsAsMuch stake other }
    ensures together { (stake other first next : List ℕ) → IsAsMuch stake first →
        IsAsMuch other next → IsAsMuch (stake ++ other) (first ++ next) }
    ensures turned { (stake other : List ℕ) → IsAsMuch (stake ++ other) (other ++ stake) }
{}

/// Law: the stake of a table's first pass is the whole right to call the table, and so is each
/// stake (part of that right) that is as much as a whole. It takes no memory.
pub fn as_much_as_the_whole_is_the_whole()
    ensures first { IsWhole (0 ∷ []) }
    ensures others { (stake whole : List ℕ) → IsAsMuch stake whole → IsWhole whole → IsWhole stake }
{}

/// Law: if two passes of a table (callers' rights to call it, which note their calls) were merged
/// by `meet`, the calls of the merged pass are those of both, and no others. It takes no memory.
pub fn a_met_pass_has_the_calls_of_both<O>()
    ensures { (numbers : Numbers O) (one other both : Known O) (happened : Happened) →
        IsPassOf numbers one → IsPassOf numbers other → Met numbers.slots one other both →
        Contains (calls_of both) happened ↔
        (Contains (calls_of one) happened ⊎ Contains (calls_of other) happened) }
{}

/// Law: the least game marked at a number (a slot) is at most `game` exactly if the history has a
/// mark there of `game` or of a lesser game. It takes no memory.
pub fn a_least_game_was_marked()
    ensures { (number game : ℕ) (history : List Happened) →
        IsAtMost (least_at number history) game ↔
        ((marked : ℕ) × (marked ≤ game) × Contains history (Marked number marked)) }
{}
