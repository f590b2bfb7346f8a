//! Why a row has no answer.

use std::alloc::AllocError;
use thiserror::Error;

/// The error returned when a row has no answer.
#[derive(Debug, Drop, Error)]
pub enum RowError {
    /// There is no `: ` after an ID.
    #[error("no ID")]
    NoId,
    /// There is no ` = ` after the call.
    #[error("no answer")]
    NoAnswer,
    /// The text of the call has no quote after it.
    #[error("a text without an end")]
    OpenText,
    /// A backslash begins no escape.
    #[error("an unknown escape")]
    Escape,
    /// There is no call of this name with this number of words, or it has a text and should have none, or has none and
    /// should have one.
    #[error("no such call")]
    NoCall,
    /// A word of the call is not one of those in its place, such as a number, a unit or a format string.
    #[error("an invalid word")]
    Word,
    /// The text of the call is not JSON.
    #[error("invalid JSON")]
    Json,
    /// Allocation failed.
    #[error(transparent)]
    OutOfMemory(#[from(alloc)] AllocError),
}
