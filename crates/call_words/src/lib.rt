// A call as four words: its kind, and a number, an item and a value, of which it uses some.
//
// A journal has calls so. `fields_of` and `call_of` are each other's inverse: words are a call
// exactly where they are some call's words, of a known kind and with 0 in what it does not use.
// `call_in` goes by the kind alone.
#![tactic(auto, unfolding(crate::specs::Calls::fields_of, crate::specs::Calls::call_in))]

ghost use Rattle.std.specs.Prelude.{◌≡◌};
ghost use Rattle.call_words.specs.Calls.{fields, fields_of, known_kind, call_in, call_of};

use names::Call;

// The kinds, in the order of the runner's words.
// Stays: numbers, since a journal's file has them as words (`fields_of`, and its bytes).
pub const BEGIN_UPDATE: u64 = 1;

pub const BEGIN_QUERY: u64 = 2;

pub const READ: u64 = 3;

pub const WRITE: u64 = 4;

pub const COMMIT: u64 = 5;

pub const ABORT: u64 = 6;

pub const SETTLE: u64 = 7;

pub const BEGIN_RELAXED: u64 = 8;

// The first and the last of them.
const FIRST: u64 = BEGIN_UPDATE;

const LAST: u64 = BEGIN_RELAXED;

// The four words of a call.
#[derive(Clone, Copy, PartialEq, Eq)]
pub struct Fields {
    pub kind: u64,
    pub number: u64,
    pub item: u64,
    pub value: u64,
}

fn words(kind: u64, number: u64, item: u64, value: u64) -> Fields
    ensures { result ≡ fields kind number item value }
{
    Fields {
        kind,
        number,
        item,
        value,
    }
}

// A call's words: 0 for each that it does not use.
pub fn fields_of(call: Call) -> Fields
    ensures { result ≡ fields_of call }
{
    match call {
        Call::BeginUpdate => words(BEGIN_UPDATE, 0, 0, 0),
        Call::BeginQuery => words(BEGIN_QUERY, 0, 0, 0),
        Call::Read { number, item } => words(READ, number, item, 0),
        Call::Write {
            number,
            item,
            value,
        } => words(WRITE, number, item, value),
        Call::Commit { number } => words(COMMIT, number, 0, 0),
        Call::Abort { number } => words(ABORT, number, 0, 0),
        Call::Settle { number } => words(SETTLE, number, 0, 0),
        Call::BeginRelaxed => words(BEGIN_RELAXED, 0, 0, 0),
    }
}

// Whether a kind is known.
pub fn known_kind(kind: u64) -> bool
    ensures { result ≡ known_kind kind }
{
    (FIRST <= kind) & (kind <= LAST)
}

// The call of a known kind, with the words that it uses. A kind that is not known is taken for the
// last: who cares asks `call_of`, or `known_kind` first.
pub fn call_in(fields: Fields) -> Call
    ensures { result ≡ call_in fields }
{
    let number = fields.number;
    let item = fields.item;
    let value = fields.value;
    let kind = fields.kind;
    match kind {
        BEGIN_UPDATE => Call::BeginUpdate,
        BEGIN_QUERY => Call::BeginQuery,
        READ => Call::Read { number, item },
        WRITE => Call::Write {
            number,
            item,
            value,
        },
        COMMIT => Call::Commit { number },
        ABORT => Call::Abort { number },
        SETTLE => Call::Settle { number },
        _ => Call::BeginRelaxed,
    }
}

// The call whose words these are, if there is one.
#[tactic(auto, unfolding(crate::specs::Calls::call_of, crate::specs::Calls::is_call, crate::specs::Calls::same_fields))]
pub fn call_of(fields: Fields) -> Option<Call>
    ensures { result ≡ call_of fields }
{
    let call = call_in(fields);
    if fields == fields_of(call) {
        Some(call)
    } else {
        None
    }
}
