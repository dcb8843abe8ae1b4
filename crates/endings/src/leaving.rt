// Who reads leaves: by a start, or a query of either kind.
ghost use Rattle.std.specs.Prelude.{ℕ, ◌<◌, T};
ghost use Rattle.names.specs.Sizes.{base};
ghost use Rattle.rules.specs.Tables.{txn, by_start, live_relaxed, any_query};
ghost use Rattle.endings.specs.Asked.{Trimmed, Gone, QueryGone};

use names::{RELAXED_KIND, Slot, Stamp, Txns, Versions};
use starts::Neighbours;

// Its row goes, and the versions go that none but it read. Answered are its start, and the neighbours of
// that start among those that stay.
pub fn leaves(txns: &mut Txns, versions: &mut Versions, slot: Slot) -> (Stamp, Neighbours)
    requires { Trimmed txns.old versions.old × (slot.0 < base.slots) × T (by_start (txn txns.old slot.0)) }
    ensures { Gone txns.old versions.old slot.0 txns.new versions.new result.0.0 result.1.below result.1.next }
{
    let start = rows::start(txns, slot);
    rows::leave(txns, slot);
    let beside = starts::beside(txns, start.0);
    rewrites::forget_all(versions, start, beside);
    (start, beside)
}

// A relaxed query leaves: nobody is in its set any more, its row goes, nothing is hidden from it, and
// the versions go that none but it read.
fn relaxed_leaves(txns: &mut Txns, versions: &mut Versions, query: Slot)
    requires { Trimmed txns.old versions.old × (query.0 < base.slots) × T (live_relaxed (txn txns.old query.0)) }
    ensures { QueryGone txns.old versions.old query.0 txns.new versions.new }
{
    notes::forget(txns, query);
    rows::leave(txns, query);
    let staying = starts::starts_in_order(txns);
    rewrites::reveal_all(versions, query, &staying);
}

// A query of either kind leaves. One that reads by a start has no set, and nothing is hidden from it.
pub fn query_leaves(txns: &mut Txns, versions: &mut Versions, query: Slot)
    requires { Trimmed txns.old versions.old × (query.0 < base.slots) × T (any_query (txn txns.old query.0)) }
    ensures { QueryGone txns.old versions.old query.0 txns.new versions.new }
{
    if rows::kind(txns, query) == RELAXED_KIND {
        relaxed_leaves(txns, versions, query);
    } else {
        leaves(txns, versions, query);
    }
}
