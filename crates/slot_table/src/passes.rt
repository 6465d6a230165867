//! Passes: a caller's right to call a table, and, for proofs, what it has seen of the table's
//! calls.
use crate::views::Place;
use std::marker::Model;

/// The right of one caller to call a table. It takes no memory.
///
/// Contracts see which table and order it is of, a history of the table (its calls with their
/// answers) as far as the pass has `seen` it, `mine`, the indices in that history of the pass's own
/// calls, and its `stake`, how much of the whole right to call the table it has. Passes are made by
/// the table's `new`, `split` and `meet` alone. The stakes of all passes of a table, with those
/// that were dropped, are the whole right. So a pass with the whole right has made all calls, and a
/// pass that was split has the whole again only once what it gave away was merged into it.
#[derive(Drop)]
pub struct Pass<O> {
    /// The right to load and change the table's words, and, for proofs, what was seen by it.
    pub(crate) seat: Place<O>,
}

impl<O> Model for Pass<O> {
    ghost use Rattle.std.specs.Prelude.{◌≡◌, [], IsSome};
    ghost use Rattle.slot_table.specs.Passes.{Known};

    ghost Value = { Known O };

    ghost view = { λ p. record {
      table = p.seat.table_id;
      order = p.seat.me.0.order;
      seen = p.seat.me.0.seen;
      mine = p.seat.me.0.mine;
      stake = p.seat.me.0.stake;
    } };

    ghost invariant = { λ p. (p.seat.me.1 ≡ []) × (p.seat.me.0.met ≡ [])
        × IsSome p.seat.me.0.order };
}
