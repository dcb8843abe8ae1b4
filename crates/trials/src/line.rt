// A line of a text, byte by byte: its first letter, the first letter of its second word, and its
// numbers.
//
// A colon stands between what is asked and what is expected: the numbers before it have the places
// 0, 1, 2, and those after it the places from 3 on.
pub const LINE_END: u8 = 10;

const WANTED: usize = 3;

const ROOM: usize = 8;

#[derive(Clone, Copy, Default)]
pub struct Line {
    pub kind: Option<u8>,
    pub second: Option<u8>,
    pub last: u8,
    pub at: usize,
    pub numbers: [u64; ROOM],
}

// A digit more; what would be too great a number stays as it is.
fn append(value: u64, byte: u8) -> u64 {
    let digit = u64::from(byte.saturating_sub(b'0'));
    value
        .checked_mul(10)
        .and_then(|tens| tens.checked_add(digit))
        .unwrap_or(value)
}

// The place of the next number.
fn after(at: usize, last: u8, byte: u8) -> usize {
    if byte == b':' {
        return WANTED;
    }
    if last.is_ascii_digit() && at < ROOM {
        return at + 1;
    }
    at
}

impl Line {
    // A byte more.
    pub fn push(&mut self, byte: u8) {
        if byte.is_ascii_digit() {
            self.digit(byte);
        } else {
            self.other(byte);
        }
        self.last = byte;
    }

    fn digit(&mut self, byte: u8) {
        if let Some(number) = self.numbers.get_mut(self.at) {
            *number = append(*number, byte);
        }
    }

    fn other(&mut self, byte: u8) {
        if self.last == b' ' {
            self.second = self.second.or(Some(byte));
        }
        self.kind = self.kind.or(Some(byte));
        self.at = after(self.at, self.last, byte);
    }
}
