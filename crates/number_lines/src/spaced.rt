// Numbers printed, with a space before each.
ghost use Rattle.std.specs.Prelude.{[], ◌∷◌, ◌+◌, ◌*◌, ◌≤◌, length};
ghost use Rattle.numerals.specs.Print.{spaced};
ghost use Rattle.texts.specs.Written.{Wrote};

// Writes a space and a number.
fn print_word(word: u64, out: &mut [u8], at: usize) -> usize
    requires { at + 21 ≤ length out.old }
    ensures { Wrote out.old at (spaced (word ∷ [])) out.new result }
{
    let from = texts::put(out, at, b' ');
    numerals::decimal(word, out, from)
}

// Writes a space before each number.
pub fn print_words(words: &[u64], out: &mut [u8], at: usize) -> usize
    requires { at + 21 * length words.now ≤ length out.old }
    ensures { Wrote out.old at (spaced words.now) out.new result }
{
    let mut end = at;
    for &word in words {
        end = print_word(word, out, end);
    }
    end
}
