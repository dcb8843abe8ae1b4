// A journal's file: its size, and its bytes piece by piece.
use crate::fault::Fault;
use std::fs::File;
use std::io::{Read, Seek, SeekFrom};

// No file goes so far.
const FARTHEST: u64 = 9223372036854775808;

// The size of an open file, which is then at its start again. What cannot be read has none, and a
// device or a growing file that has bytes behind its size is not judged.
pub(crate) fn size_of(file: &mut File) -> Result<u64, Fault> {
    let mut byte = [0];
    file.read(&mut byte)?;
    let end = file.seek(SeekFrom::End(0))?;
    if file.read(&mut byte)? > 0 {
        return Err(Fault::NoSize);
    }
    file.seek(SeekFrom::Start(0))?;
    Ok(end)
}

// Moves to a place.
pub(crate) fn move_to(file: &mut File, at: u64) -> Result<(), Fault> {
    if at < FARTHEST && file.seek(SeekFrom::Start(at)).is_ok() {
        return Ok(());
    }
    Err(Fault::CutShort)
}

// Fills a buffer from a file.
pub(crate) fn fill(file: &mut File, buf: &mut [u8]) -> Result<(), Fault> {
    file.read_exact(buf).map_err(|_| Fault::CutShort)
}
