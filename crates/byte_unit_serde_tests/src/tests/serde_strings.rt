//! Tests of sizes and units that are stored by `serde`, in JSON and in TOML, and of TOML values.
use super::asserting::{assert_error, assert_for, assert_is};
use byte_unit::{Bit, Byte, Unit};
use byte_unit_serde::{Stored, bit_from_toml, byte_from_toml, unit_from_toml};
use byte_unit_tests::rows;
use serde::{Deserialize, DeserializeOwned, Serialize};
use std::alloc::Global;
use std::collections::BTreeMap;
use std::process::Abort;

/// A JSON string, which is a TOML string too, that is rejected as a size, and the messages in TOML and in JSON: each
/// reason once, then strings that are escaped, and one that is cut. In a message a string has at most 40 bytes with its
/// quotes, and `serde_json` cuts a message after 32; three dots end what is cut.
const REJECTED: &[(&str, &str, &str)] = &rows! {
    ("\"20 XB\"", "bad unit: \"20 XB\"", "bad unit: \"20 XB\""),
    ("\"much\"", "not a number: \"much\"", "not a number: \"much\""),
    ("\"\"", "no value: \"\"", "no value: \"\""),
    ("\"1.12345678901234567890123456789\"", "number too long: \"1.12345678901234567890123456789\"",
        "number too long: \"1.123456789..."),
    ("\"1000 RB\"", "out of range: \"1000 RB\"", "out of range: \"1000 RB\""),
    ("\"1\\tKB\"", "bad unit: \"1\\tKB\"", "bad unit: \"1\\tKB\""),
    ("\"1 é\\u001b\"", "bad unit: \"1 é\\u{1b}\"", "bad unit: \"1 é\\u{1b}\""),
    ("\"1 \\u202eBK\"", "bad unit: \"1 \\u{202e}BK\"", "bad unit: \"1 \\u{202e}BK\""),
    ("\"1 xxxxxxxxxxyyyyyyyyyyzzzzzzzzzzxxxxxxxxxx\"", "bad unit: \"1 xxxxxxxxxxyyyyyyyyyyzzzzzzzzzzxxxx...",
        "bad unit: \"1 xxxxxxxxxxyyyyyy..."),
};

/// Reads the value of `limit` from a TOML document. If the document cannot be allocated, an empty one is read, which
/// fails the test of the caller.
fn toml_limit<T: DeserializeOwned>(
    alloc: Global,
    value: &str,
) -> Result<BTreeMap<String, T>, toml::de::Error> {
    match format!(in alloc; "limit = {value}\n") {
        Ok(document) => toml::from_str(alloc, document.as_str()),
        Err(_) => toml::from_str(alloc, ""),
    }
}

/// Asserts the message of an error in TOML, which adds the key, and in JSON, of a value that was read before.
fn assert_rejected<T: DeserializeOwned>(
    rt: &impl Abort,
    alloc: Global,
    text: &str,
    in_toml: &str,
    in_json: &str,
) {
    let value = serde_json::Value::from_str(alloc, text).expect(rt, "a value");
    assert_error(
        rt,
        alloc,
        serde_json::from_value::<T>(alloc, value),
        in_json,
    );
    let wanted = format!(in alloc; "{in_toml}\nin `limit`\n").expect(rt, "memory");
    assert_error(rt, alloc, toml_limit::<T>(alloc, text), wanted.as_str());
}

#[test]
fn each_reason_in_json_and_toml(rt: HostRuntime) {
    let alloc = rt.alloc();
    for (text, in_toml, in_json) in REJECTED {
        assert_rejected::<Stored<Byte>>(&rt, alloc, text, in_toml, in_json);
        assert_rejected::<Stored<Bit>>(&rt, alloc, text, in_toml, in_json);
        let wanted = format!(in alloc; "{in_json} at line 1 column 1").expect(&rt, "memory");
        let read = serde_json::from_str::<Stored<Byte>>(alloc, text);
        assert_error(&rt, alloc, read, wanted.as_str());
    }
    let wanted = "bad unit: \"MiBs\"";
    assert_rejected::<Stored<Unit>>(&rt, alloc, "\"MiBs\"", wanted, wanted);
    let read = serde_json::from_str::<Stored<Byte>>(alloc, "4096");
    assert_error(&rt, alloc, read, "invalid type at line 1 column 1");
    let read = toml_limit::<Stored<Byte>>(alloc, "4096");
    let wanted = "invalid type: integer `4096`, expected a string\nin `limit`\n";
    assert_error(&rt, alloc, read, wanted);
}

/// Asserts that values are written to the JSON text, and read from it.
fn assert_round_trip<T: Serialize + DeserializeOwned + PartialEq>(
    rt: &impl Abort,
    alloc: Global,
    values: &Vec<T>,
    wanted: &str,
) {
    let text = serde_json::to_string(alloc, values).expect(rt, "JSON");
    assert_is(rt, text.as_str(), wanted);
    let value = serde_json::Value::from_str(alloc, wanted).expect(rt, "a value");
    let back: Vec<T> = serde_json::from_value(alloc, value).expect(rt, "values");
    assert_for(rt, back == *values, wanted);
}

#[test]
fn lists_round_trip(rt: HostRuntime) {
    let alloc = rt.alloc();
    let bytes = vec![in alloc; Stored(Byte::from_u64(1536)), Stored(Byte::MIN)];
    let bytes = bytes.expect(&rt, "memory");
    assert_round_trip(&rt, alloc, &bytes, "[\"1.5 KiB\",\"0 B\"]");
    let bits = vec![in alloc; Stored(Bit::from_u64(15_500)), Stored(Bit::MIN)];
    let bits = bits.expect(&rt, "memory");
    assert_round_trip(&rt, alloc, &bits, "[\"15.5 Kb\",\"0 b\"]");
    let units = vec![in alloc; Stored(Unit::Kbit), Stored(Unit::GiB)];
    let units = units.expect(&rt, "memory");
    assert_round_trip(&rt, alloc, &units, "[\"Kb\",\"GiB\"]");
}

/// Asserts that a JSON text and a TOML document are written as they were read, and returns what was read from each.
fn read_and_write<'a, T: Serialize + Deserialize<'a> + DeserializeOwned + Drop>(
    rt: &impl Abort,
    alloc: Global,
    json: &'a str,
    document: &str,
) -> (T, T) {
    let from_json: T = serde_json::from_str(alloc, json).expect(rt, "JSON");
    let text = serde_json::to_string(alloc, &from_json).expect(rt, "JSON");
    assert_is(rt, text.as_str(), json);
    let from_toml: T = toml::from_str(alloc, document).expect(rt, "TOML");
    let text = toml::to_string(alloc, &from_toml).expect(rt, "TOML");
    assert_is(rt, text.as_str(), document);
    (from_json, from_toml)
}

/// A struct with a value of each type.
#[derive(Drop, Serialize, Deserialize)]
struct Values {
    #[serde(with = "byte_unit_serde::byte")]
    size: Byte,
    #[serde(with = "byte_unit_serde::bit")]
    rate: Bit,
    #[serde(with = "byte_unit_serde::unit")]
    unit: Unit,
}

/// Strings of a size and of a rate that are one number, and the number: the last is the greatest.
const VALUES: &[(&str, &str, u128)] = &rows! {
    ("20 MB", "20 Mb", 20_000_000),
    ("16 EiB", "16 Eib", 18_446_744_073_709_551_616),
    ("999999999999999999999999999.999 KB", "999999999999999999999999999.999 Kb",
        999_999_999_999_999_999_999_999_999_999),
};

#[test]
fn fields_with_a_value(rt: HostRuntime) {
    let alloc = rt.alloc();
    for (size, rate, number) in VALUES {
        let json = format!(in alloc;
            "{{\"size\":\"{size}\",\"rate\":\"{rate}\",\"unit\":\"GiB\"}}"
        );
        let document = format!(in alloc; "size = \"{size}\"\nrate = \"{rate}\"\nunit = \"GiB\"\n");
        let json = json.expect(&rt, "memory");
        let document = document.expect(&rt, "memory");
        let (read, again): (Values, Values) = read_and_write(
            &rt,
            alloc,
            json.as_str(),
            document.as_str(),
        );
        for values in [&read, &again] {
            let found = (values.size.as_u128(), values.rate.as_u128(), values.unit);
            assert_is(&rt, found, (*number, *number, Unit::GiB));
        }
    }
}

/// A struct with an optional value of each type.
#[derive(Drop, Serialize, Deserialize)]
struct Options {
    #[serde(with = "byte_unit_serde::optional_byte", default)]
    limit: Option<Byte>,
    #[serde(with = "byte_unit_serde::optional_bit", default)]
    most: Option<Bit>,
    #[serde(with = "byte_unit_serde::optional_unit", default)]
    other: Option<Unit>,
}

/// Asserts that all values are none.
fn assert_no_value(rt: &impl Abort, read: &Options) {
    assert_is(rt, (read.limit, read.most, read.other), (None, None, None));
}

/// A value is read, and from nothing, in TOML, and `null`, in JSON, none.
#[test]
fn fields_with_an_optional_value(rt: HostRuntime) {
    let alloc = rt.alloc();
    let json = "{\"limit\":\"1 GiB\",\"most\":\"1 Kb\",\"other\":\"Kb\"}";
    let (read, absent): (Options, Options) = read_and_write(&rt, alloc, json, "");
    let wanted = (
        Some(Byte::GIBIBYTE),
        Some(Bit::from_u64(1000)),
        Some(Unit::Kbit),
    );
    assert_is(&rt, (read.limit, read.most, read.other), wanted);
    let json = "{\"limit\":null,\"most\":null,\"other\":null}";
    let document = "limit = \"1 GiB\"\nmost = \"1 Kb\"\nother = \"Kb\"\n";
    let (null, _): (Options, Options) = read_and_write(&rt, alloc, json, document);
    assert_no_value(&rt, &absent);
    assert_no_value(&rt, &null);
}

/// A struct with a list of each type of size.
#[derive(Drop, Serialize, Deserialize)]
struct Lists {
    #[serde(with = "byte_unit_serde::byte_vec")]
    parts: Vec<Byte>,
    #[serde(with = "byte_unit_serde::bit_vec")]
    rates: Vec<Bit>,
}

#[test]
fn fields_with_a_list(rt: HostRuntime) {
    let json = "{\"parts\":[\"1 KB\",\"0 B\"],\"rates\":[\"1 Kb\"]}";
    let document = "parts = [\"1 KB\"]\nrates = []\n";
    let (read, _): (Lists, Lists) = read_and_write(&rt, rt.alloc(), json, document);
    let parts = [Byte::KILOBYTE, Byte::MIN];
    let rates = [Bit::KILOBIT];
    let wanted = (parts.as_slice(), rates.as_slice());
    assert_is(&rt, (read.parts.as_slice(), read.rates.as_slice()), wanted);
}

#[test]
fn toml_values(rt: HostRuntime) {
    let alloc = rt.alloc();
    let table = toml::table_from_str(
        alloc,
        "size = \"1.5 KiB\"\nunit = \"Kb\"\nlines = 3\nwrong = \"1 XB\"\n",
    );
    let table = table.expect(&rt, "TOML");
    let size = table.get("size").expect(&rt, "a size");
    let sizes = (byte_from_toml(size).ok(), bit_from_toml(size).ok());
    let wanted = (Some(Byte::from_u64(1536)), Some(Bit::from_u64(12_288)));
    assert_is(&rt, sizes, wanted);
    let unit = table.get("unit").expect(&rt, "a unit");
    assert_is(&rt, unit_from_toml(unit).ok(), Some(Unit::Kbit));
    let lines = table.get("lines").expect(&rt, "a number");
    assert_error(&rt, alloc, byte_from_toml(lines), "not a TOML string");
    assert_error(&rt, alloc, bit_from_toml(lines), "not a TOML string");
    assert_error(&rt, alloc, unit_from_toml(lines), "not a TOML string");
    let wrong = table.get("wrong").expect(&rt, "a string");
    let message = "the character 'X' is incorrect \
('B', 'K', 'M', 'G', 'T', 'P', 'E', 'Z', 'Y' or 'R' or no character is expected)";
    assert_error(&rt, alloc, byte_from_toml(wrong), message);
    assert_error(&rt, alloc, bit_from_toml(wrong), message);
}
