// Which version of an item a reader reads, by a start or outside of a relaxed query's set, and the newest one.
//
// Proved against the choice of the rules. Good tables meet each `requires`, as proofs/Handed says.
#![tactic(auto)]

ghost use Rattle.std.specs.Prelude.{◌≡◌, ℕ, suc, Bool, not, ◌≤◌, ◌<◌, length, get_or};
ghost use Rattle.names.specs.Sizes.{base};
ghost use Rattle.rules.specs.Words.{row};
ghost use Rattle.rules.specs.Tables.{version_row, Reader, up_to, outside};
ghost use Rattle.rules.specs.Versions.{no_version, versions_of, versions_in, sees, place, choice};
ghost use Rattle.rules.specs.Versions.{newest as Versions·newest, hidden_now};
ghost use Rattle.choices.specs.Pairs.{count_in};
ghost use Rattle.choices.specs.SoundRow.{SoundRow};
ghost use Rattle.choices.specs.Choosable.{Choosable, ChoosableIn};

use names::{
    Item, Slot, Stamp, VERSION_COUNT_AT, VERSION_HIDDEN_AT, VERSION_PAIR, VERSION_ROW,
    VERSION_STAMP_AT, VERSION_VALUE_AT, Versions,
};

// A row of versions.
pub type Row = [u64; VERSION_ROW];

// The value of a version, and at how many versions one looked to find it.
#[derive(Clone, Copy)]
pub struct Choice {
    pub value: u64,
    pub looked: u64,
}

// At how many versions a search looks at most, in a full row too.
const LOOKS: usize = 5;

// The place, from 0, of the first version in a row that is not `too_new`. Whatever is newer than a
// version that is too new is so too, so it is found by halving: every place before lo is too new, the
// place hi is old enough. Each turn looks at one version, and the turns are counted: after the last one
// the place is found.
fn place_by<F: Fn(usize) -> bool>(row: &[u64], too_new: F) -> usize
    requires sized { length row.now ≡ version_row base }
    requires sound { SoundRow row.now }
    requires callable { (k : ℕ) → k < count_in row.now → F.pre too_new k }
    ensures { (q : Reader) → ChoosableIn row.now q → ((k : ℕ) (b : Bool) → k < count_in row.now → F.post too_new k b → b ≡ not (sees q (get_or (versions_in base row.now) k no_version))) → result ≡ place q (versions_in base row.now) }
{
    let mut lo = 0;
    let mut hi = (row[VERSION_COUNT_AT] as usize) - 1;
    let mut looks = 0;
    while (lo < hi) & (looks < LOOKS) {
        let mid = (lo + hi) / 2;
        if too_new(mid) {
            lo = mid + 1;
        } else {
            hi = mid;
        }
        looks += 1;
    }
    lo
}

// Whether the version at a place is newer than a start.
fn is_after(row: &[u64], place: usize, start: u64) -> bool
    requires { (length row.now ≡ version_row base) × (place < base.places) }
    ensures { place < count_in row.now → result ≡ not (sees (up_to start) (get_or (versions_in base row.now) place no_version)) }
{
    start < row[place * VERSION_PAIR + VERSION_STAMP_AT]
}

// Whether the version at a place is hidden from the relaxed query in a slot.
fn is_hidden(row: &[u64], place: usize, slot: u64) -> bool
    requires { (length row.now ≡ version_row base) × (place < base.places) × (slot < base.slots) }
    ensures { place < count_in row.now → result ≡ not (sees (outside slot) (get_or (versions_in base row.now) place no_version)) }
{
    (row[VERSION_HIDDEN_AT + place] >> slot) % 2 == 1
}

// The place, from 0, of the newest version in a row that is at most start. Stamps fall along a row.
pub fn place_in(row: &[u64], start: u64) -> usize
    requires { ChoosableIn row.now (up_to start) }
    ensures { result ≡ place (up_to start) (versions_in base row.now) }
{
    place_by(row, |place| is_after(row, place, start))
}

// The place, from 0, of the newest version in a row that is not hidden from the relaxed query in a
// slot. Whatever is newer than a hidden version is hidden too.
pub fn place_outside(row: &[u64], slot: u64) -> usize
    requires { ChoosableIn row.now (outside slot) × (slot < base.slots) }
    ensures { result ≡ place (outside slot) (versions_in base row.now) }
{
    place_by(row, |place| is_hidden(row, place, slot))
}

// The row of an item.
pub fn row_at(versions: &Versions, item: Item) -> &Row
    requires { item.0 < base.items }
    ensures { result.now ≡ row (version_row base) item.0 versions.now }
{
    let (rows, _) = versions.as_chunks::<VERSION_ROW>();
    &rows[item.0 as usize]
}

// The version at a place of a row, for which one looked at all up to it.
fn choice_at(row: &Row, place: usize) -> Choice
    requires { (place < count_in row.now) × (place < base.places) }
    ensures value { result.value ≡ (get_or (versions_in base row.now) place no_version).value }
    ensures looked { result.looked ≡ suc place }
{
    Choice {
        value: row[place * VERSION_PAIR + VERSION_VALUE_AT],
        looked: (place as u64) + 1,
    }
}

// The version of an item that a start reads: the newest that is at most the start. There is one.
pub fn chosen(versions: &Versions, item: Item, start: Stamp) -> Choice
    requires { Choosable versions.now item.0 (up_to start.0) }
    ensures value { result.value ≡ (choice (up_to start.0) (versions_of base versions.now item.0)).value }
    ensures looked { result.looked ≡ suc (place (up_to start.0) (versions_of base versions.now item.0)) }
{
    let row = row_at(versions, item);
    choice_at(row, place_in(row, start.0))
}

// The version of an item that the relaxed query in a slot reads: the newest that is not hidden from
// it. There is one.
pub fn chosen_outside(versions: &Versions, item: Item, slot: Slot) -> Choice
    requires { Choosable versions.now item.0 (outside slot.0) × (slot.0 < base.slots) }
    ensures value { result.value ≡ (choice (outside slot.0) (versions_of base versions.now item.0)).value }
    ensures looked { result.looked ≡ suc (place (outside slot.0) (versions_of base versions.now item.0)) }
{
    let row = row_at(versions, item);
    choice_at(row, place_outside(row, slot.0))
}

// The newest value of an item.
pub fn newest(versions: &Versions, item: Item) -> u64
    requires { (item.0 < base.items) × (1 ≤ get_or (row (version_row base) item.0 versions.now) 0 0) }
    ensures { result ≡ Versions·newest base versions.now item.0 }
{
    row_at(versions, item)[VERSION_VALUE_AT]
}

// From which relaxed queries the newest version of an item is hidden, a bit for each slot.
pub fn hidden_now(versions: &Versions, item: Item) -> u64
    requires { (item.0 < base.items) × (1 ≤ get_or (row (version_row base) item.0 versions.now) 0 0) }
    ensures { result ≡ hidden_now base versions.now item.0 }
{
    row_at(versions, item)[VERSION_HIDDEN_AT]
}
