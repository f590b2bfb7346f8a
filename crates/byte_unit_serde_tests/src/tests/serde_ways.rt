//! Tests of sizes that `serde` reads with case ignored, with prefixes by 1024 and in words, from JSON and from TOML,
//! and of the strings that it stores.
use super::asserting::{assert_error, assert_for, assert_is};
use byte_unit::Byte;
use byte_unit_tests::rows;
use serde::{Deserialize, DeserializeOwned, Serialize};
use std::alloc::{AllocError, Global};
use std::process::Abort;

/// A struct with a size, an optional size and a list, each read with case ignored.
#[derive(Drop, Serialize, Deserialize)]
struct IgnoringCase {
    #[serde(with = "byte_unit_serde::byte_ignore_case")]
    size: Byte,
    #[serde(with = "byte_unit_serde::optional_byte_ignore_case", default)]
    limit: Option<Byte>,
    #[serde(with = "byte_unit_serde::byte_vec_ignore_case")]
    parts: Vec<Byte>,
}

/// A struct with a size, an optional size and a list, each with prefixes by 1024.
#[derive(Drop, Serialize, Deserialize)]
struct Binary {
    #[serde(with = "byte_unit_serde::byte_binary")]
    size: Byte,
    #[serde(with = "byte_unit_serde::optional_byte_binary", default)]
    limit: Option<Byte>,
    #[serde(with = "byte_unit_serde::byte_vec_binary")]
    parts: Vec<Byte>,
}

/// A struct with a size, an optional size and a list, each of which may have words.
#[derive(Drop, Serialize, Deserialize)]
struct InWords {
    #[serde(with = "byte_unit_serde::byte_words")]
    size: Byte,
    #[serde(with = "byte_unit_serde::optional_byte_words", default)]
    limit: Option<Byte>,
    #[serde(with = "byte_unit_serde::byte_vec_words")]
    parts: Vec<Byte>,
}

/// Strings, the numbers of bytes as which they are read with case ignored, and the strings as which those are written.
const IGNORING_CASE: &[(&str, u64, &str)] = &rows! {
    ("100 mb", 100_000_000, "100 MB"),
    ("1.5 kib", 1536, "1.5 KiB"),
    ("12b", 12, "12 B"),
    ("12 bits", 2, "2 B"),
};

/// The same with prefixes by 1024. A size with no exact binary unit is written as digits alone: with a decimal prefix
/// it would be read as another size.
const BINARY: &[(&str, u64, &str)] = &rows! {
    ("10m", 10_485_760, "10 MiB"),
    ("128MB", 134_217_728, "128 MiB"),
    ("1 KiB", 1024, "1 KiB"),
    ("1000k", 1_024_000, "1024000"),
    ("0.1k", 103, "103"),
    ("0", 0, "0"),
    ("1000000", 1_000_000, "1000000"),
    ("15e", 17_293_822_569_102_704_640, "15 EiB"),
};

/// The same in words.
const IN_WORDS: &[(&str, u64, &str)] = &rows! {
    ("100 megabytes", 100_000_000, "100 MB"),
    ("3 Kibibytes", 3072, "3 KiB"),
    ("12 octets", 12, "12 B"),
    ("1 mb", 1_000_000, "1 MB"),
};

/// Settings with a size, an optional size and a list of sizes.
trait Sizes {
    /// Returns the size and the optional size.
    fn single(&self) -> (Byte, Option<Byte>);

    /// Returns the list.
    fn parts(&self) -> &[Byte];
}

impl Sizes for IgnoringCase {
    fn single(&self) -> (Byte, Option<Byte>) {
        (self.size, self.limit)
    }

    fn parts(&self) -> &[Byte] {
        self.parts.as_slice()
    }
}

impl Sizes for Binary {
    fn single(&self) -> (Byte, Option<Byte>) {
        (self.size, self.limit)
    }

    fn parts(&self) -> &[Byte] {
        self.parts.as_slice()
    }
}

impl Sizes for InWords {
    fn single(&self) -> (Byte, Option<Byte>) {
        (self.size, self.limit)
    }

    fn parts(&self) -> &[Byte] {
        self.parts.as_slice()
    }
}

/// Returns the JSON text of settings in which each size is this string.
fn json_of(alloc: Global, text: &str) -> Result<String, AllocError> {
    format!(in alloc;
        "{{\"size\":\"{text}\",\"limit\":\"{text}\",\"parts\":[\"{text}\",\"{text}\"]}}"
    )
}

/// Returns the TOML document of settings in which each size is this string.
fn document_of(alloc: Global, text: &str) -> Result<String, AllocError> {
    format!(in alloc; "size = \"{text}\"\nlimit = \"{text}\"\nparts = [\"{text}\", \"{text}\"]\n")
}

/// Asserts that each size of settings is of this number of bytes.
fn assert_sizes<T: Sizes>(rt: &impl Abort, read: &T, number: u64) {
    let size = Byte::from_u64(number);
    assert_is(rt, read.single(), (size, Some(size)));
    assert_is(rt, read.parts(), [size, size].as_slice());
}

/// Asserts that settings in which each size is this string are read as the number of bytes, and written with the other
/// string.
fn assert_stored<T: Sizes + Serialize + DeserializeOwned + Drop>(
    rt: &impl Abort,
    alloc: Global,
    (text, number, shown): (&str, u64, &str),
) {
    let json = json_of(alloc, text).expect(rt, "memory");
    let value = serde_json::Value::from_str(alloc, json.as_str()).expect(rt, "a value");
    let read: T = serde_json::from_value(alloc, value).expect(rt, text);
    assert_sizes(rt, &read, number);
    let written = serde_json::to_string(alloc, &read).expect(rt, "JSON");
    let wanted = json_of(alloc, shown).expect(rt, "memory");
    assert_is(rt, written.as_str(), wanted.as_str());
    let document = document_of(alloc, text).expect(rt, "memory");
    let read: T = toml::from_str(alloc, document.as_str()).expect(rt, text);
    assert_sizes(rt, &read, number);
    let written = toml::to_string(alloc, &read).expect(rt, "TOML");
    let wanted = document_of(alloc, shown).expect(rt, "memory");
    assert_is(rt, written.as_str(), wanted.as_str());
}

#[test]
fn case_is_ignored(rt: HostRuntime) {
    for row in IGNORING_CASE {
        assert_stored::<IgnoringCase>(&rt, rt.alloc(), *row);
    }
}

/// What is stored is read as the same size by calls that take prefixes by 1000, too.
#[test]
fn prefixes_are_by_1024(rt: HostRuntime) {
    for row in BINARY {
        assert_stored::<Binary>(&rt, rt.alloc(), *row);
        let (_, number, shown) = *row;
        assert_stored::<Binary>(&rt, rt.alloc(), (shown, number, shown));
        let read = Byte::parse_str(shown, false).ok();
        assert_for(&rt, read == Some(Byte::from_u64(number)), shown);
    }
}

#[test]
fn words_are_read(rt: HostRuntime) {
    for row in IN_WORDS {
        assert_stored::<InWords>(&rt, rt.alloc(), *row);
    }
}

/// Asserts that the limit is none and the list is empty.
fn assert_nothing<T: Sizes>(rt: &impl Abort, read: &T, size: Byte) {
    assert_is(rt, read.single(), (size, None));
    assert_is(rt, read.parts().len(), 0);
}

/// An optional size that is `null` or absent, and an empty list.
#[test]
fn nothing(rt: HostRuntime) {
    let alloc = rt.alloc();
    let json = "{\"size\":\"1 k\",\"limit\":null,\"parts\":[]}";
    let read: IgnoringCase = serde_json::from_str(alloc, json).expect(&rt, "JSON");
    assert_nothing(&rt, &read, Byte::KILOBYTE);
    let read: Binary = toml::from_str(alloc, "size = \"1 k\"\nparts = []\n").expect(&rt, "TOML");
    assert_nothing(&rt, &read, Byte::KIBIBYTE);
}

/// JSON texts with a string that is rejected, or a value that is not a string, and their errors.
const REJECTED_JSON: &[(&str, &str)] = &rows! {
    ("{\"size\":\"x\",\"parts\":[]}", "not a number: \"x\" at line 1 column 9"),
    ("{\"size\":\"1 kb\",\"limit\":\"1 xb\",\"parts\":[]}", "bad unit: \"1 xb\" at line 1 column 24"),
    ("{\"size\":\"1 kb\",\"parts\":[\"1 kb\",\"1000 rb\"]}", "out of range: \"1000 rb\" at line 1 column 32"),
    ("{\"size\":4096,\"parts\":[]}", "invalid type at line 1 column 9"),
    ("{\"size\":\"1 kb\",\"limit\":4096,\"parts\":[]}", "invalid type at line 1 column 24"),
    ("{\"size\":\"1 kb\",\"parts\":\"1 kb\"}", "invalid type at line 1 column 24"),
};

/// TOML documents with a string that is rejected, and their errors.
const REJECTED_TOML: &[(&str, &str)] = &rows! {
    ("size = \"x\"\nparts = []\n", "not a number: \"x\"\nin `size`\n"),
    ("size = \"1 kb\"\nlimit = \"1 xb\"\nparts = []\n", "bad unit: \"1 xb\"\nin `limit`\n"),
    ("size = \"1 kb\"\nparts = [\"1 kb\", \"1000 rb\"]\n", "out of range: \"1000 rb\"\nin `parts`\n"),
};

/// Asserts that the values of each row are rejected, with its error.
fn assert_rejected(rt: &impl Abort, alloc: Global) {
    for (text, wanted) in REJECTED_JSON {
        let read = serde_json::from_str::<IgnoringCase>(alloc, text);
        assert_error(rt, alloc, read, wanted);
        let read = serde_json::from_str::<Binary>(alloc, text);
        assert_error(rt, alloc, read, wanted);
        let read = serde_json::from_str::<InWords>(alloc, text);
        assert_error(rt, alloc, read, wanted);
    }
    for (text, wanted) in REJECTED_TOML {
        let read = toml::from_str::<IgnoringCase>(alloc, text);
        assert_error(rt, alloc, read, wanted);
        let read = toml::from_str::<Binary>(alloc, text);
        assert_error(rt, alloc, read, wanted);
    }
}

#[test]
fn rejected_values(rt: HostRuntime) {
    assert_rejected(&rt, rt.alloc());
}
