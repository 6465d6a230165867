//! Laws of records and of their replay, each the contract of a function that does nothing.
ghost use Rattle.std.specs.Prelude.{◌≡◌, ◌≤◌, List, All, length, Ok};
ghost use Rattle.sgf_core.specs.Tree.{Node};
ghost use Rattle.sgf_core.specs.Counts.{value_count};
ghost use Rattle.go_board.specs.Extent.{Extent};
ghost use Rattle.go_board.specs.Position.{Position, AreSame};
ghost use Rattle.go_record.specs.Actions.{Actions, IsActionOn};
ghost use Rattle.go_record.specs.Replay.{Replays};
ghost use Rattle.go_record.specs.declared.actions.Action.{Action};
ghost use Rattle.go_record.specs.Record.{record_of};
ghost use Rattle.go_record.specs.declared.records.Kind.TheVariants as kind;

/// States for proofs that a record has no more actions than its main line has values. So a count of
/// actions over the games of a collection stays below the limit on the input's bytes.
pub fn few_actions()
    ensures { (nodes : List Node) (game : Actions) → record_of nodes ≡ Ok (kind.Go game)
        → length game.actions ≤ value_count nodes }
{}

/// States for proofs that a replay has one result, so that a game has one final position: if two
/// positions are the same on the board, they are the same there after the same actions.
pub fn replays_have_one_result()
    ensures { (size : Extent) (actions : List Action) (before again first second : Position) →
        All (IsActionOn size) actions →
        AreSame size before again →
        Replays size actions before first →
        Replays size actions again second →
        AreSame size first second }
{}
