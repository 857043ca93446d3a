// What C is told of a boot list that was read or written, as numbers in fixed places.
#![tactic(auto)]

ghost use Rattle.std.specs.Prelude.{◌≡◌};
ghost use Rattle.written.specs.Written.{written_number};
ghost use Rattle.capi_enode.specs.Told.{end_line, told_boot, size_after};

use enode_list::{Boot, End};
use written::WriteError;

// The line that ended a reading, or 0.
fn end_line(end: End) -> usize
    ensures { result ≡ end_line end }
{
    match end {
        End::Complete => 0,
        End::Unfit { line } => line,
        End::Full { line } => line,
    }
}

// The answer number of a reading, which is always 0. Writes how many records the list received, the number of the end (0, 22 or 19), and
// its line or 0.
pub fn tell_read(told: &mut [u64; 3], boot: Boot) -> u8
    ensures { (result ≡ 0) × (told.new ≡ told_boot boot) }
{
    let count = boot.count;
    let end = boot.end;
    let number = enode_list::end_number(end);
    let line = end_line(end);
    *told = [count as u64, number as u64, line as u64];
    numbers::DONE
}

// The answer number of a write. Writes how many bytes were written, where it is 0.
pub fn tell_written(size: &mut [u64; 1], answer: Result<usize, WriteError>) -> u8
    ensures { (result ≡ written_number answer) × (size.new ≡ size_after answer size.old) }
{
    match answer {
        Ok(bytes) => {
            *size = [bytes as u64];
            numbers::DONE
        }
        Err(WriteError::Short) => numbers::SHORT_ROOM,
        Err(WriteError::Unwritable) => numbers::NOT_WRITABLE,
    }
}
