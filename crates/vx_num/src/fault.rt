//! What can go wrong in the calls of this crate.

use std::alloc::{AllocError, AllocFailed};
use thiserror::Error;

/// Memory was refused. It may come at any point of a call that allocates, and is never merged with
/// another answer.
#[derive(Clone, Copy, Debug, PartialEq, Eq)]
pub struct NoMemory;

impl From<AllocError> for NoMemory {
    fn from(_refused: AllocError) -> NoMemory {
        NoMemory
    }
}

impl<T: Drop> From<AllocFailed<T>> for NoMemory {
    fn from(_refused: AllocFailed<T>) -> NoMemory {
        NoMemory
    }
}

/// Why a text is no number. Of several causes the first that holds, in this order, is answered.
#[derive(Clone, Copy, Debug, PartialEq, Eq, Error)]
pub enum DecimalFault {
    /// There is no byte, or only a minus sign where one is allowed.
    #[error("no digits")]
    Empty,
    /// A byte is no digit and has no place in the form.
    #[error("not a digit")]
    NotDigit,
    /// There are more digits after the dot than the quantity has places.
    #[error("too many places")]
    Places,
    /// The value is above the limit of the quantity.
    #[error("too large")]
    TooLarge,
}
