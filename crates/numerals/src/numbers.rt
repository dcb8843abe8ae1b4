// Decimal numbers in a line.
ghost use Rattle.std.specs.Prelude.{◌≡◌, drop};
ghost use Rattle.numerals.specs.Numbers.{taken_by, number, digits_from};
ghost use Rattle.numerals.specs.Numbers.{digit as Numbers·digit, with_digit as Numbers·with_digit};

fn digit(byte: u8) -> bool
    ensures { result ≡ Numbers·digit byte }
{
    (48 <= byte) & (byte <= 57)
}

// A number with a digit more: none where the byte is no digit, or the number would be too great.
#[tactic(auto, unfolding(crate::specs::Numbers::with_digit))]
pub fn with_digit(value: u64, byte: u8) -> Option<u64>
    ensures { result ≡ Numbers·with_digit value byte }
{
    if !digit(byte) {
        return None;
    }
    value.checked_mul(10)?.checked_add(u64::from(byte - b'0'))
}

// The digits from an index on, as far as they go, and the index after them; none where they are too
// great a number.
fn digits(line: &[u8], from: usize) -> Option<(u64, usize)>
    ensures { taken_by line.now result ≡ digits_from 0 (drop from line.now) }
{
    let mut value = 0;
    for k in from..line.len() {
        if !digit(line[k]) {
            return Some((value, k));
        }
        value = with_digit(value, line[k])?;
    }
    Some((value, line.len()))
}

// A space and the number after it, with the index after its last digit.
#[tactic(auto, using(texts::proofs::Places::ended, texts::proofs::Places::opened), unfolding(crate::specs::Numbers::number, crate::specs::Numbers::some_digits))]
pub fn number(line: &[u8], at: usize) -> Option<(u64, usize)>
    ensures { taken_by line.now result ≡ number (drop at line.now) }
{
    if line.len() <= at {
        return None;
    }
    if line[at] != b' ' {
        return None;
    }
    let from = at + 1;
    if line.len() <= from {
        return None;
    }
    if !digit(line[from]) {
        return None;
    }
    digits(line, from)
}
