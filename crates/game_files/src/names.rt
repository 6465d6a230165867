//! Which names are those of files of games, and their order.
ghost use Rattle.std.specs.Prelude.{◌≡◌, ℕ, List};
ghost use Rattle.std.specs.List.Sorted.{IsStrictlySortedBy};
ghost use Rattle.std.specs.String.{string_cmp};
ghost use Rattle.game_files.specs.Names.{is_game_name, HasName};

/// Whether the name of a file ends in `.sgf`, in letters of any case. It takes no memory.
pub fn is_game_name(name: &str) -> bool
    ensures { result ≡ is_game_name name.now }
{
    let bytes = name.as_bytes();
    let ending = &bytes[bytes.len().saturating_sub(4)..];
    ending.eq_ignore_ascii_case(b".sgf")
}

/// Sorts names by their bytes, and leaves each name there once. A name that another one begins with
/// stands before that. It takes no memory.
pub fn sort_names(names: &mut Vec<String>)
    ensures sorted { IsStrictlySortedBy string_cmp names.new.items }
    ensures kept { (name : List ℕ) → HasName names.old.items name → HasName names.new.items name }
    ensures only { (name : List ℕ) → HasName names.new.items name → HasName names.old.items name }
{
    names.sort_unstable();
    names.dedup();
}
