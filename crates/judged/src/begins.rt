// A begin.
ghost use Rattle.std.specs.Prelude.{◌≡◌};
ghost use Rattle.names.specs.Sizes.{base};
ghost use Rattle.rules.specs.Step.{begin_by};
ghost use Rattle.asked.specs.Deeds.{deed_of};
ghost use Rattle.callers.specs.Searchable.{of_txns};

use callers::meets_settled;
use names::{Deed, LAST_WORD, Refusal, Stamp, Txns};

// The lowest free slot begins a transaction of this kind with this start.
#[tactic(auto, unfolding(rules::specs::Step::begin_by, rows::specs::Founds::found_at))]
pub fn begin_by(txns: &Txns, kind: u64, start: Stamp) -> Result<Deed, Refusal>
    ensures { deed_of result ≡ begin_by base kind start.0 (of_txns txns.now) }
{
    let slot = rows::free_slot(txns).ok_or(Refusal::NoSlot)?;
    if rows::last_number(txns) == LAST_WORD {
        return Err(Refusal::NumbersSpent);
    }
    if meets_settled(txns, kind) {
        return Err(Refusal::KeptApart);
    }
    Ok(Deed::Begins(slot, kind, start))
}
