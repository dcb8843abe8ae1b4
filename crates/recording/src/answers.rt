// The answers to recorded calls, as records one behind another.
ghost use Rattle.std.specs.Prelude.{◌≡◌, ◌≤◌, length};
ghost use Rattle.names.specs.Sizes.{base};
ghost use Rattle.rules.specs.Tables.{tables};
ghost use Rattle.rules.specs.Step.{step};
ghost use Rattle.call_words.specs.Calls.{call_in};
ghost use Rattle.journal.specs.Format.{call_at, answer_bytes, answer_records};
ghost use Rattle.texts.specs.Written.{buffer, put};
ghost use Rattle.recording.specs.Records.{answers_to, after_calls, piece_calls};

// The call at a place of a piece, made: its answer stands at the same place.
fn answer_call(
    piece: &[u8],
    at: usize,
    txns: &mut [u64],
    locks: &mut [u64],
    versions: &mut [u64],
    out: &mut [u8],
) -> usize
    ensures result_after { buffer out.new result ≡ put (answer_bytes (step base (call_in (call_at at piece.now)) (tables txns.old locks.old versions.old)).answer) (buffer out.old at) }
    ensures versions_after { tables txns.new locks.new versions.new ≡ (step base (call_in (call_at at piece.now)) (tables txns.old locks.old versions.old)).after }
{
    let call = call_words::call_in(journal::call(piece, at));
    let answer = keeper::call(call, txns, locks, versions);
    journal::put_answer(out, at, answer)
}

// The calls of a piece, made one after another: their answers, and how many bytes they take.
pub fn answer_piece(
    piece: &[u8],
    txns: &mut [u64],
    locks: &mut [u64],
    versions: &mut [u64],
    out: &mut [u8],
) -> usize
    requires { length piece.now ≤ length out.old }
    ensures upper_bound { result ≤ length out.old }
    ensures result_after { buffer out.new result ≡ put (answer_records (answers_to (piece_calls piece.now) (tables txns.old locks.old versions.old))) (buffer out.old 0) }
    ensures versions_after { tables txns.new locks.new versions.new ≡ after_calls (piece_calls piece.now) (tables txns.old locks.old versions.old) }
{
    let mut at: usize = 0;
    while journal::RECORD <= piece.len() - at {
        at = answer_call(piece, at, txns, locks, versions, out);
    }
    at
}
