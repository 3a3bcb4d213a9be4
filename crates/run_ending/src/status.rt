//! The statuses with which a run ends, and the lines that report them.
ghost use Rattle.std.specs.Prelude.{◌≡◌};
ghost use Rattle.run_ending.specs.Statuses.{status_number, words_line, read_line, write_line, memory_line};

use ccp_base::NoMemory;

/// How a run ends.
#[derive(Clone, Copy)]
pub enum Status {
    /// The input was read to its end, and the output was written.
    Done,
    /// The words aren't accepted.
    WordsRefused,
    /// The input is refused.
    InputRefused,
    /// A read failed.
    ReadFailed,
    /// A write failed.
    WriteFailed,
    NoMemory(NoMemory),
}

/// The line that reports refused words.
pub const WORDS_LINE: &[u8] = b"ccp: words refused\n";

/// The line that reports a failed read.
pub const READ_LINE: &[u8] = b"ccp: read fault\n";

/// The line that reports a failed write.
pub const WRITE_LINE: &[u8] = b"ccp: write fault\n";

/// The line that reports out of memory.
pub const MEMORY_LINE: &[u8] = b"ccp: no memory\n";

impl Status {
    /// The status of the process.
    pub fn number(self) -> u8
        ensures { result ≡ status_number self }
    {
        match self {
            Status::Done => 0,
            Status::WordsRefused => 2,
            Status::InputRefused => 3,
            Status::ReadFailed => 4,
            Status::WriteFailed => 5,
            Status::NoMemory(_) => 6,
        }
    }
}
