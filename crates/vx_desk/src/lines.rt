//! One line of a slot, and why there is no next one.

use thiserror::Error;

/// The byte that ends each line.
pub const LF: u8 = b'\n';

/// One line of a slot, numbered from 1, without the LF that ends it. `LineReader::bytes` gives its
/// bytes, wherever the reader keeps them by then.
#[derive(Clone, Copy, Debug, PartialEq, Eq)]
pub struct Line {
    /// Where the line began in the reader's buffer when it was given.
    pub start: usize,
    /// Where it ended there, at its LF.
    pub end: usize,
    /// How many lines of the slot there are up to this one. It stops at the greatest `u64`.
    pub number: u64,
}

/// Why a reader has no next line.
#[derive(Clone, Copy, Debug, PartialEq, Eq, Error)]
pub enum ReadFault {
    /// A read failed. What was read before is kept, and the next call reads on.
    #[error("the device failed")]
    Device,
    /// The line with this number has more bytes than the reader takes.
    #[error("line {number} is too long")]
    LineTooLong { number: u64 },
    /// The input ends in this line, and no LF ends it.
    #[error("line {number} has no end of line")]
    NoEol { number: u64 },
}
