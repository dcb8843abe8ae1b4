// How a trial's text calls the calls: by their first letters; of the two that begin
// with the same one, that of the relaxed query is a capital.
use names::Call;

// The call that a letter names, with the numbers behind it.
pub fn lettered(letter: u8, number: u64, item: u64, value: u64) -> Option<Call> {
    match letter {
        b'u' => Some(Call::BeginUpdate),
        b'q' => Some(Call::BeginQuery),
        b'r' => Some(Call::Read { number, item }),
        b'w' => Some(Call::Write {
            number,
            item,
            value,
        }),
        b'c' => Some(Call::Commit { number }),
        b'a' => Some(Call::Abort { number }),
        b's' => Some(Call::Settle { number }),
        b'R' => Some(Call::BeginRelaxed),
        _ => None,
    }
}

pub fn is_call(letter: u8) -> bool {
    lettered(letter, 0, 0, 0).is_some()
}
