// Words of slots: a bit for each.
ghost use Rattle.std.specs.Prelude.{◌≡◌, ◌<◌};
ghost use Rattle.names.specs.Sizes.{base};
ghost use Rattle.rules.specs.Words.{without_bit};

use names::Slot;

// A word without a slot.
pub fn without_bit(word: u64, slot: Slot) -> u64
    requires { slot.0 < base.slots }
    ensures { result ≡ without_bit word slot.0 }
{
    let s = slot.0;
    word - (((word >> s) % 2) << s)
}
