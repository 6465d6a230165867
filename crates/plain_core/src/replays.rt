//! Walks a game (replays it and lists its patterns), and adds its patterns to the counts of all
//! games.
ghost use Rattle.std.specs.Prelude.{◌≡◌, ◌*◌, ◌≤◌, length, IfOk, IfErr, OnOk};
ghost use Rattle.plain_core.specs.Inner.Counter.{count_in, CountsGame, CountsMeetings, IsMeetingsFault};
ghost use Rattle.plain_core.specs.Inner.Counter.{GrowsBy, IsCountingFault};

use crate::counts::Counts;
use go_record::Record;
use shape_dict::{Entry, FirstGame};
use tally_core::{Meeting, TallyFault, Walk};

/// Adds the meetings of one game, each a pattern with its counts, to the counts of all games. A
/// pattern without counts gets `game` as its first game. `TallyFault::Memory` if memory was
/// refused, `TallyFault::Overflow` if a count would pass 2^64 - 1; the meetings before the one that
/// failed stay added.
pub(crate) fn count_meetings(
    counts: &mut Counts,
    meetings: &[Meeting],
    game: FirstGame,
) -> Result<(), TallyFault>
    ensures ok { OnOk result
        (CountsMeetings game meetings.now (count_in counts.old) (count_in counts.new)) }
    ensures fault { IfErr result (IsMeetingsFault game meetings.now (count_in counts.old)) }
{
    for (i, meeting) in meetings.iter().enumerate() {
        counts.expect(meetings, i);
        counts.add(Entry {
            shape: meeting.shape,
            there: meeting.there,
            played: meeting.played,
            first: game,
        })?;
    }
    Ok(())
}

/// Walks a game (replays it and lists its patterns), adds its patterns to `counts`, and returns how
/// many moves onto empty points it has. A pattern without counts gets `game` as its first game.
/// `TallyFault::Memory` if memory was refused, `TallyFault::Overflow` if a count would pass
/// 2^64 - 1 or the game has more actions than any input; some of its patterns may be counted then.
pub(crate) fn count_game(
    counts: &mut Counts,
    walk: &mut Walk,
    game_record: &Record,
    game: FirstGame,
) -> Result<u64, TallyFault>
    ensures counts { IfOk result
        (CountsGame walk.old.kinds game_record.now game (count_in counts.old) (count_in counts.new)) }
    ensures few { IfOk result (λ moves. moves ≤ length game_record.now.actions) }
    ensures grows { OnOk result
        (GrowsBy (5410 * length game_record.now.actions) (count_in counts.old) (count_in counts.new)) }
    ensures fault { IfErr result
        (IsCountingFault (5410 * length game_record.now.actions) (count_in counts.old)) }
    ensures kinds { walk.new.kinds ≡ walk.old.kinds }
{
    let moves = walk.walk(game_record)?;
    count_meetings(counts, walk.meetings(), game)?;
    Ok(moves)
}
