//! The types for `#[serde(with = "byte_unit_serde::..")]`, each of which writes and reads fields of one type.
//!
//! The names are in snake case, as those of the modules that `with` takes in Rust. Modules that share generic functions
//! would accept a field of any type; a type accepts a field of its own.
#![allow(non_camel_case_types)]

use crate::binary::Binary;
use crate::ignore_case::IgnoreCase;
use crate::lists::Lists;
use crate::options::OptionalStrings;
use crate::strings::Strings;
use crate::words::Words;
use byte_unit::{Bit, Byte, Unit};

/// A size in bytes as a string, for `#[serde(with = "byte_unit_serde::byte")]`.
pub type byte = Strings<Byte>;

/// A size in bits as a string, for `#[serde(with = "byte_unit_serde::bit")]`.
pub type bit = Strings<Bit>;

/// A unit as a string, for `#[serde(with = "byte_unit_serde::unit")]`.
pub type unit = Strings<Unit>;

/// A size in bytes as a string, or nothing, for `#[serde(with = "byte_unit_serde::optional_byte", default)]`.
pub type optional_byte = OptionalStrings<Byte>;

/// A size in bits as a string, or nothing, for `#[serde(with = "byte_unit_serde::optional_bit", default)]`.
pub type optional_bit = OptionalStrings<Bit>;

/// A unit as a string, or nothing, for `#[serde(with = "byte_unit_serde::optional_unit", default)]`.
pub type optional_unit = OptionalStrings<Unit>;

/// A list of sizes in bytes as strings, for `#[serde(with = "byte_unit_serde::byte_vec")]`.
pub type byte_vec = Lists<Byte>;

/// A list of sizes in bits as strings, for `#[serde(with = "byte_unit_serde::bit_vec")]`.
pub type bit_vec = Lists<Bit>;

/// A size in bytes as a string, read as `Byte::parse_str` parses it with `ignore_case`: `100 mb` is 100 MB.
///
/// # Examples
///
/// ```rust
/// use byte_unit::Byte;
/// use serde::{Deserialize, Serialize};
///
/// #[derive(Drop, Deserialize, Serialize)]
/// struct Settings {
///     #[serde(with = "byte_unit_serde::byte_ignore_case")]
///     limit: Byte,
/// }
///
/// let settings: Settings = serde_json::from_str(alloc, "{\"limit\":\"100 mb\"}")?;
/// assert_eq!(rt; settings.limit, Byte::from_u64(100_000_000));
/// assert_eq!(rt; serde_json::to_string(alloc, &settings)?.as_str(), "{\"limit\":\"100 MB\"}");
/// ```
pub type byte_ignore_case = Strings<Byte, IgnoreCase>;

/// A string of [`byte_ignore_case`], or nothing, for fields that also have `default`.
pub type optional_byte_ignore_case = OptionalStrings<Byte, IgnoreCase>;

/// A list of strings of [`byte_ignore_case`].
pub type byte_vec_ignore_case = Lists<Byte, IgnoreCase>;

/// A size in bytes as a string that may have words, with case ignored: `100 megabytes` is 100 MB.
///
/// # Examples
///
/// ```rust
/// use byte_unit::Byte;
/// use serde::{Deserialize, Serialize};
///
/// #[derive(Drop, Deserialize, Serialize)]
/// struct Settings {
///     #[serde(with = "byte_unit_serde::byte_words")]
///     limit: Byte,
/// }
///
/// let settings: Settings = serde_json::from_str(alloc, "{\"limit\":\"100 megabytes\"}")?;
/// assert_eq!(rt; settings.limit, Byte::from_u64(100_000_000));
/// assert_eq!(rt; serde_json::to_string(alloc, &settings)?.as_str(), "{\"limit\":\"100 MB\"}");
/// ```
pub type byte_words = Strings<Byte, Words>;

/// A string of [`byte_words`], or nothing, for fields that also have `default`.
pub type optional_byte_words = OptionalStrings<Byte, Words>;

/// A list of strings of [`byte_words`].
pub type byte_vec_words = Lists<Byte, Words>;

/// A size in bytes as a string, read as `Byte::parse_str_binary` parses it with `ignore_case`: `10m` is 10 MiB, and
/// `128MB` 128 MiB.
///
/// There is no such type of bits, since programs that write rates mean 1000 by `k`: `100mbit` are 100,000,000 bits.
///
/// # Examples
///
/// ```rust
/// use byte_unit::Byte;
/// use serde::{Deserialize, Serialize};
///
/// #[derive(Drop, Deserialize, Serialize)]
/// struct Settings {
///     #[serde(with = "byte_unit_serde::byte_binary")]
///     client_max_body_size: Byte,
/// }
///
/// let settings: Settings = serde_json::from_str(alloc, "{\"client_max_body_size\":\"10m\"}")?;
/// assert_eq!(rt; settings.client_max_body_size, Byte::from_u64(10_485_760));
/// let text = serde_json::to_string(alloc, &settings)?;
/// assert_eq!(rt; text.as_str(), "{\"client_max_body_size\":\"10 MiB\"}");
/// ```
pub type byte_binary = Strings<Binary>;

/// A string of [`byte_binary`], or nothing, for fields that also have `default`.
pub type optional_byte_binary = OptionalStrings<Binary>;

/// A list of strings of [`byte_binary`].
pub type byte_vec_binary = Lists<Binary>;
