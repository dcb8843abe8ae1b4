// Whether a line starts with a word.
ghost use Rattle.std.specs.Prelude.{◌≡◌};
ghost use Rattle.script.specs.Words.{starts};

#[tactic(auto, using(crate::proofs::Scans::starts_is_prefix))]
pub(crate) fn starts_with(line: &[u8], word: &[u8]) -> bool
    ensures { result ≡ starts word.now line.now }
{
    line.starts_with(word)
}
