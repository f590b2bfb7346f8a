//! The C API: exact sizes in bytes and in bits.
//!
//! Every function is defined for every argument that its C type allows: a size that is out of range, an unknown code,
//! an unknown flag, an invalid spec, offsets that do not fit and bytes that are not UTF-8 are reported in the return
//! value. No function allocates, and none keeps state between calls. The caller guarantees that each pointer is valid
//! for its type and length.
//!
//! A slice crosses as a pointer and a length. A function whose name ends in `_to` is called by an inline function of
//! the header with the rest of its name.
#![tactic(auto)]

mod arithmetic;
mod binary;
mod codes;
mod error;
mod explain;
mod flags;
mod hint;
mod many;
mod message;
mod offsets;
mod parse;
mod position;
mod spec;
mod texts;
mod units;
mod values;
mod version;
mod words;
