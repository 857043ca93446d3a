// The answer of a writer: its number, and how many bytes are written.
#![tactic(auto)]

ghost use Rattle.std.specs.Prelude.{◌≡◌};
ghost use Rattle.written.specs.Written.{written_number, written_size};

use std::fmt;

// Why a writer writes nothing.
#[derive(Clone, Copy, Debug, PartialEq, Eq)]
pub enum WriteError {
    // Answer 19: the room is shorter than the value needs.
    Short,
    // Answer 20: the value can't be written.
    Unwritable,
}

impl fmt::Display for WriteError {
    fn fmt<W: fmt::Write>(&self, f: &mut fmt::Formatter<W>) -> fmt::Result {
        match self {
            WriteError::Short => write!(f, "the room is shorter than the value needs"),
            WriteError::Unwritable => write!(f, "the value can't be written"),
        }
    }
}

// The answer number of a write: 0, 19 or 20.
pub fn written_number(written: Result<usize, WriteError>) -> u8
    ensures { result ≡ written_number written }
{
    match written {
        Ok(_) => numbers::DONE,
        Err(WriteError::Short) => numbers::SHORT_ROOM,
        Err(WriteError::Unwritable) => numbers::NOT_WRITABLE,
    }
}

// How many bytes a write has written.
pub fn written_size(written: Result<usize, WriteError>) -> usize
    ensures { result ≡ written_size written }
{
    written.unwrap_or(0)
}
