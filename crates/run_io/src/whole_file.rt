// A file read whole.
ghost use Rattle.std.specs.Prelude.{◌≡◌, ◌≤◌, ◌<◌, ◌+◌, ◌^◌, ◌⊎◌, IfSome, IfNone, IfOk, IfErr, take, drop, vec_len};
ghost use Rattle.run_io.specs.Outside.{AreRead, FailsToRead, Piece};
ghost use Rattle.run_io.specs.Reading.{IsRead, IsReading};
ghost use Rattle.run_io.specs.declared.whole_file.ReadError.TheVariants as read_error;

use crate::outside::Files;
use std::alloc::Global;

/// How many bytes are asked for at first. Each further piece is as long as all before it.
const FIRST_PIECE: usize = 0x4000;

/// A file couldn't be read: its read failed, or memory is wanting.
#[derive(Clone, Copy, Debug, PartialEq, Eq)]
pub enum ReadError {
    Failed,
    OutOfMemory,
}

/// Makes the buffer longer by a piece, but no longer than so many bytes.
fn lengthen(buffer: &mut Vec<u8>, most: usize) -> Result<(), ReadError>
    requires shorter { vec_len buffer.old < most }
    ensures kept { IfOk result (λ _. take (vec_len buffer.old) buffer.new.items ≡ buffer.old.items) }
    ensures longer { IfOk result (λ _. vec_len buffer.old < vec_len buffer.new) }
    ensures within { IfOk result (λ _. vec_len buffer.new ≤ most) }
    ensures memory { IfErr result (λ e. e ≡ read_error.OutOfMemory) }
{
    let more = FIRST_PIECE.max(buffer.len()).min(most - buffer.len());
    match buffer.resize(buffer.len() + more, 0) {
        Ok(()) => Ok(()),
        Err(_) => Err(ReadError::OutOfMemory),
    }
}

/// Leaves room in the buffer after what is filled, within so many bytes.
fn make_room(buffer: &mut Vec<u8>, filled: usize, most: usize) -> Result<(), ReadError>
    requires filled { filled ≤ vec_len buffer.old }
    requires within { vec_len buffer.old ≤ most }
    requires more { filled < most }
    ensures kept { IfOk result (λ _. take filled buffer.new.items ≡ take filled buffer.old.items) }
    ensures room { IfOk result (λ _. filled < vec_len buffer.new) }
    ensures within { IfOk result (λ _. vec_len buffer.new ≤ most) }
    ensures memory { IfErr result (λ e. e ≡ read_error.OutOfMemory) }
{
    if filled < buffer.len() {
        return Ok(());
    }
    lengthen(buffer, most)
}

/// Reads a piece of the file to where the buffer is filled.
fn read_piece<F: Files>(
    files: &mut F,
    name: &str,
    buffer: &mut Vec<u8>,
    filled: usize,
) -> Result<usize, ReadError>
    requires room { filled < vec_len buffer.old }
    ensures kept { IfOk result (λ _. take filled buffer.new.items ≡ take filled buffer.old.items) }
    ensures size { vec_len buffer.new ≡ vec_len buffer.old }
    ensures bound { IfOk result (λ n. filled + n ≤ vec_len buffer.new) }
    ensures piece { IfOk result (λ n. IfSome (F.told files.old).folder (λ folder.
        Piece folder name.now filled n (drop filled buffer.new.items))) }
    ensures read { AreRead (F.told files.old) (F.told files.new) }
    ensures failed { IfErr result (λ e. e ≡ read_error.Failed) }
    ensures cause { IfErr result (λ _. FailsToRead name.now (F.told files.old) (F.told files.new)) }
{
    match files.read(name, filled as u64, &mut buffer[filled..]) {
        Ok(n) => Ok(n),
        Err(_) => Err(ReadError::Failed),
    }
}

/// Reads on in a file. Each turn but the last takes a byte, and says how much of the buffer is filled
/// then; the last says nothing, and leaves in the buffer what was read and no more.
fn read_turn<F: Files>(
    files: &mut F,
    name: &str,
    buffer: &mut Vec<u8>,
    filled: usize,
    limit: usize,
) -> Result<Option<usize>, ReadError>
    requires limit { limit < 2 ^ 32 }
    requires more { filled ≤ limit }
    requires reading { IsReading (F.told files.old).folder name.now limit filled buffer.old.items }
    ensures takes { IfOk result (λ next. IfSome next (λ more. (filled < more) × (more ≤ limit))) }
    ensures reading { IfOk result (λ next. IfSome next (λ more.
        IsReading (F.told files.old).folder name.now limit more buffer.new.items)) }
    ensures last { IfOk result (λ next. IfNone next
        ((vec_len buffer.new ≡ filled) ⊎ (vec_len buffer.new ≡ limit + 1))) }
    ensures bytes { IfOk result (λ next. IfNone next (IfSome (F.told files.old).folder (λ folder.
        IsRead folder name.now limit buffer.new.items))) }
    ensures read { AreRead (F.told files.old) (F.told files.new) }
    ensures cause { IfErr result (λ e. e ≡ read_error.Failed
        → FailsToRead name.now (F.told files.old) (F.told files.new)) }
{
    make_room(buffer, filled, limit + 1)?;
    let n = read_piece(files, name, buffer, filled)?;
    let more = filled + n;
    if n == 0 || more > limit {
        buffer.truncate(more);
        return Ok(None);
    }
    Ok(Some(more))
}

/// Reads a file to its end, or to one byte more than the limit. The file is read into one vector.
pub fn read_whole<F: Files>(
    alloc: Global,
    files: &mut F,
    name: &str,
    limit: usize,
) -> Result<Vec<u8>, ReadError>
    requires limit { limit < 2 ^ 32 }
    ensures bytes { IfOk result (λ bytes. IfSome (F.told files.old).folder (λ folder.
        IsRead folder name.now limit bytes.items)) }
    ensures read { AreRead (F.told files.old) (F.told files.new) }
    ensures cause { IfErr result (λ e. e ≡ read_error.Failed
        → FailsToRead name.now (F.told files.old) (F.told files.new)) }
{
    let mut buffer = Vec::new(alloc);
    let mut filled = 0;
    'reads: while let Some(more) = read_turn(files, name, &mut buffer, filled, limit)? {
        filled = more;
    }
    Ok(buffer)
}
