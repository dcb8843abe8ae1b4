// Names as rows of 32 bytes, zeros behind each.
ghost use Rattle.std.specs.Prelude.{◌≡◌, ◌+◌, ◌≤◌, length};
ghost use Rattle.texts.specs.Written.{Wrote};
ghost use Rattle.told_lines.specs.Names.{first_row, unpadded};

use line_words::same;

// The bytes of a row.
pub const WIDE: usize = 32;

// The rows of all names.
pub type Names = [u8; 1024];

// The first of so many names that is this one, or behind them.
#[tactic(auto, using(crate::proofs::Names::parts), unfolding(crate::specs::Names::first_row, words::specs::Below::found_below))]
pub fn place(names: &Names, count: usize, name: &[u8]) -> u64
    requires { count ≤ 32 }
    ensures { result ≡ first_row name.now names.now count }
{
    let among = count as u64;
    words::first_below(among, |i| {
        let from = i as usize * WIDE;
        same(&names[from..from + WIDE], name)
    })
    .unwrap_or(among)
}

// Writes the name in a row, without the zeros behind it.
pub fn put_name(name: &[u8], out: &mut [u8], at: usize) -> usize
    requires { at + length name.now ≤ length out.old }
    ensures wrote { Wrote out.old at (unpadded name.now) out.new result }
    ensures upper_bound { result ≤ at + length name.now }
{
    let mut end = at;
    for &byte in name {
        if byte == 0 {
            return end;
        }
        end = texts::put(out, end, byte);
    }
    end
}
