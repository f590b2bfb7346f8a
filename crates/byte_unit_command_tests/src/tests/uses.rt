//! Tests of the functions of `byte_unit_uses`, which are typical uses of the library: what no contract of theirs says,
//! the messages of errors and the entries of a report.
use byte_unit::Byte;
use byte_unit_uses::command_line::max_size;
use byte_unit_uses::entry::{Entry, add, filter_below, total};
use byte_unit_uses::message::parse_argument;
use byte_unit_uses::quota::left;
use std::alloc::Global;
use std::fmt::Display;
use std::process::Abort;

/// Asserts that a result is an error with the expected message.
fn assert_error<E: Display + Drop>(
    rt: &impl Abort,
    alloc: Global,
    answer: Result<Byte, E>,
    wanted: &str,
) {
    let error = answer.err().expect(rt, "an error");
    let message = format!(in alloc; "{error}").expect(rt, "memory");
    assert_eq!(rt; message.as_str(), wanted);
}

#[test]
fn messages_of_limits_and_quotas(rt: HostRuntime) {
    let alloc = rt.alloc();
    let limit = parse_argument("12 GB").ok();
    assert_eq!(rt; limit, Some(Byte::from_u64(12_000_000_000)));
    let rejected = parse_argument("12 QB");
    assert_error(&rt, alloc, rejected, "reading the limit \"12 QB\"");
    let used = Byte::from_u64(900_000_000);
    let free = left("1 GB", used).ok();
    assert_eq!(rt; free, Some(Byte::from_u64(100_000_000)));
    let exceeded = left("500 MB", used);
    assert_error(&rt, alloc, exceeded, "the quota is exceeded");
    let wanted =
        "no quota: the character 'X' is incorrect ('B' or 'b' or no character is expected)";
    assert_error(&rt, alloc, left("1 GX", used), wanted);
}

/// The name of each entry, and the string of its size: below the limit of the test, above it, and no size.
const ENTRIES: &[(&str, &str)] = &[("logs", "1.5 KiB"), ("cache", "2 GB"), ("none", "2 X")];

/// Returns the entries whose sizes are below a limit.
fn entries_below(rt: &impl Abort, alloc: Global, limit: Byte) -> Vec<Entry<'static>> {
    let mut report = Vec::new(alloc);
    for (name, text) in ENTRIES {
        if let Ok(entry) = Entry::read(name, text) {
            if let Some(entry) = filter_below(entry, limit) {
                add(&mut report, entry).expect(rt, "memory");
            }
        }
    }
    report
}

#[test]
fn entries_of_a_report(rt: HostRuntime) {
    let report = entries_below(&rt, rt.alloc(), Byte::GIBIBYTE);
    assert!(rt; report.len() == 1);
    assert_eq!(rt; report[0].name(), "logs");
    assert_eq!(rt; total(&report), Some(Byte::from_u64(1536)));
}

/// The message for a size with a wrong unit.
const REJECTED: &str =
    "error: invalid value '20XB' for '--max-size <max-size>': the character 'X' is incorrect \
('B', 'K', 'M', 'G', 'T', 'P', 'E', 'Z', 'Y' or 'R' or no character is expected)

Usage: copy [OPTIONS]

For more information, try '--help'.
";

/// A size after a space and after `=`, and a wrong size, whose exit status is 2.
#[test]
fn sizes_of_an_option(rt: HostRuntime) {
    let alloc = rt.alloc();
    let size = max_size(alloc, &["copy", "--max-size", "20MB"]).ok();
    assert_eq!(rt; size, Some(Some(Byte::from_u64(20_000_000))));
    let size = max_size(alloc, &["copy", "--max-size=1.5 GiB"]).ok();
    assert_eq!(rt; size, Some(Some(Byte::from_u64(1_610_612_736))));
    match max_size(alloc, &["copy", "--max-size", "20XB"]) {
        Ok(_) => panic!(rt; "20XB is no size"),
        Err(error) => {
            let message = format!(in alloc; "{error}").expect(&rt, "memory");
            assert_eq!(rt; message.as_str(), REJECTED);
            assert_eq!(rt; error.exit_code(), 2);
        }
    }
}
