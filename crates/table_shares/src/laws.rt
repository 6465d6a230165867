//! Laws of shares (what workers have counted) over a table, for proofs in crates that use this one.
//! Each is a function that does nothing, and its contract is the law. In contracts `seen` and
//! `history` are lists of calls of the table with their answers.
ghost use Rattle.std.specs.Prelude.{◌≡◌, ◌≢◌, ℕ, List, AllPairs, All, Contains, length, Option};
ghost use Rattle.go_record.specs.Actions.{Actions};
ghost use Rattle.slot_table.specs.declared.entries.Happened.{Happened};
ghost use Rattle.slot_table.specs.History.{IsLegal, Keeps};
ghost use Rattle.gather_core.specs.declared.rows.Row.{Row};
ghost use Rattle.harvest_faults.specs.declared.faults.HarvestFault.TheVariants as fault;
ghost use Rattle.table_shares.specs.Adding.{HasGrown, IsKept, IsAddFault};
ghost use Rattle.table_shares.specs.Checking.{Stand};
ghost use Rattle.table_shares.specs.Confirming.{HasShape, IsConfirmation};
ghost use Rattle.gather_core.specs.Shares.{Held};

/// Law: if `confirm_full` answers `Full` for a table of n numbers (slots), there are more patterns
/// than numbers. The shares' rows have n different patterns, and `word`, the one that got no
/// number, is none of these. It takes no memory.
pub fn full_means_more_patterns_than_numbers()
    ensures { (n : ℕ) (seen : List Happened) (rows : List Row) (game word : ℕ) → IsLegal n seen →
        IsConfirmation n seen rows game word (fault.Full game word) →
        (keys : List ℕ) × (length keys ≡ n) × AllPairs (λ one other. one ≢ other) keys
        × All (HasShape rows) keys × (Contains keys word → ⊥) }
{}

/// Law: if each row of a share (one pattern's counts) is of the pattern that the table has in the
/// row's slot, that stays so after `Share::add` has added or refused a game. It takes no memory.
pub fn rows_still_stand()
    ensures added { (n : ℕ) (seen history : List Happened) (actions : Actions) (old new : Held) →
        Keeps n seen history → HasGrown n history actions old new → Stand n seen old.rows →
        Stand n history new.rows }
    ensures refused { (n : ℕ) (seen history : List Happened) (actions : Actions) (old new : Held) →
        Keeps n seen history → IsKept n history actions old new → Stand n seen old.rows →
        Stand n history new.rows }
{}

/// Law: if each row of a share (one pattern's counts) is of the pattern that the table has in the
/// row's slot, `Share::add` does not refuse a game with `Stranger`. It takes no memory.
pub fn rows_that_stand_are_no_strangers()
    ensures { (n : ℕ) (seen : List Happened) (game : ℕ) (actions : Actions) (old new : Held)
        (number : ℕ) (of_share of_table : Option ℕ) → Stand n seen new.rows →
        IsAddFault n seen game actions old new (fault.Stranger number of_share of_table) → ⊥ }
{}
