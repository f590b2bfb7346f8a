//! Reads the limits of a service from TOML into a struct, and prints them and the rules that they break, with status 1
//! if there are any. Takes the default limits if the input is empty or only white space.
#![tactic(auto)]

ghost use Rattle.std.specs.Prelude.{◌≡◌, ◌*◌, ◌^◌, ◌↔◌, Some, IsTrue};
ghost use Rattle.example_limits.specs.Rules.{IsBroken};
ghost use Rattle.example_limits.specs.declared.Rule.{Rule};

use anyhow::{Result, anyhow};
use byte_unit::{Bit, Byte, FormatSpec};
use serde::Deserialize;
use std::alloc::{AllocError, Global};
use std::io;

/// The limits of a service that stores uploaded files.
#[derive(Drop, Deserialize)]
#[serde(deny_unknown_fields)]
struct Limits {
    /// The largest file.
    #[serde(with = "byte_unit_serde::byte")]
    file: Byte,
    /// All files together.
    #[serde(with = "byte_unit_serde::byte")]
    total: Byte,
    #[serde(with = "byte_unit_serde::optional_byte", default)]
    cache: Option<Byte>,
    #[serde(with = "byte_unit_serde::byte")]
    disk: Byte,
    /// Bits per second.
    #[serde(with = "byte_unit_serde::bit")]
    rate: Bit,
}

/// A rule for limits.
#[derive(Clone, Copy)]
enum Rule {
    /// The largest file is no larger than all files together may be.
    FileInTotal,
    /// The files and the cache fit the disk.
    AllOnDisk,
    /// The largest file takes at most an hour.
    WithinHour,
}

impl Rule {
    const ALL: [Rule; 3] = [Rule::FileInTotal, Rule::AllOnDisk, Rule::WithinHour];

    /// Returns the message for limits that break the rule.
    fn message(self) -> &'static str {
        match self {
            Rule::FileInTotal => "`file` exceeds `total`",
            Rule::AllOnDisk => "`total` and `cache` exceed `disk`",
            Rule::WithinHour => "a file of the size `file` takes more than an hour at `rate`",
        }
    }
}

impl Limits {
    /// Returns the default limits. They break no rule.
    #[tactic(auto, unfolding(byte_unit::proofs::OnLiterals::byte_unit_on_literals))]
    fn defaults() -> Limits
        ensures file { result.file ≡ 20 * 10 ^ 6 }
        ensures total { result.total ≡ 1536 * 2 ^ 20 }
        ensures cache { result.cache ≡ Some (256 * 2 ^ 20) }
        ensures disk { result.disk ≡ 2 * 2 ^ 30 }
        ensures rate { result.rate ≡ 10 ^ 6 }
        ensures valid { (rule : Rule) → ¬ IsBroken result rule }
    {
        Limits {
            file: Byte::parse_str("20 MB", false).unwrap(),
            total: Byte::parse_str("1.5 GiB", false).unwrap(),
            cache: Some(Byte::parse_str("256 MiB", false).unwrap()),
            disk: Byte::parse_str("2 GiB", false).unwrap(),
            rate: Bit::parse_str("1 Mbit").unwrap(),
        }
    }

    /// Returns whether the limits break the rule.
    fn breaks(&self, rule: Rule) -> bool
        ensures { IsTrue result ↔ IsBroken self.now rule }
    {
        match rule {
            Rule::FileInTotal => self.file > self.total,
            Rule::AllOnDisk => match self.disk.subtract(self.total) {
                Some(left) => self.cache.unwrap_or(Byte::MIN) > left,
                None => true,
            },
            // The bits of the file, and those of an hour.
            Rule::WithinHour => 8 * self.file.as_u128() > 3600 * self.rate.as_u128(),
        }
    }
}

/// Returns the message of an error in one line.
fn in_one_line(alloc: Global, error: &toml::de::Error) -> Result<String, AllocError> {
    let message = format!(in alloc; "{error}")?;
    let lines: Vec<&str> = message.lines().collect(alloc)?;
    lines.join(alloc, " ")
}

/// Reads the limits of a TOML text, or returns the default limits if it is empty or only white space.
fn limits_of(alloc: Global, text: &str) -> Result<Limits> {
    if text.trim().is_empty() {
        return Ok(Limits::defaults());
    }
    match toml::from_str(alloc, text) {
        Ok(limits) => Ok(limits),
        Err(error) => {
            let reason = in_one_line(alloc, &error)?;
            Err(anyhow!("the limits are rejected: {reason}"))
        }
    }
}

/// Appends a line with a limit, or `none`.
fn show(alloc: Global, name: &str, limit: Option<Byte>, report: &mut String) -> Result<()> {
    let line = match limit {
        Some(limit) => {
            let text = limit.to_text(alloc, FormatSpec::ALTERNATE)?;
            format!(in alloc; "{name}: {text}\n")?
        }
        None => format!(in alloc; "{name}: none\n")?,
    };
    report.push_str(line.as_str())?;
    Ok(())
}

/// Appends a line for each limit of a TOML text, and for each rule that the limits break.
///
/// # Errors
///
/// Returns an error with the reason if the text is rejected, and one if the limits break a rule.
fn check(alloc: Global, text: &str, report: &mut String) -> Result<()> {
    let limits = limits_of(alloc, text)?;
    show(alloc, "file", Some(limits.file), report)?;
    show(alloc, "total", Some(limits.total), report)?;
    show(alloc, "cache", limits.cache, report)?;
    show(alloc, "disk", Some(limits.disk), report)?;
    let rate = limits.rate.to_text(alloc, FormatSpec::ALTERNATE)?;
    let line = format!(in alloc; "rate: {rate} a second\n")?;
    report.push_str(line.as_str())?;
    let mut broken = false;
    for rule in Rule::ALL {
        if limits.breaks(rule) {
            let message = rule.message();
            let line = format!(in alloc; "rejected: {message}\n")?;
            report.push_str(line.as_str())?;
            broken = true;
        }
    }
    if broken {
        return Err(anyhow!("the limits are rejected: they break a rule"));
    }
    Ok(())
}

fn main(rt: HostRuntime) -> Result<()> {
    let alloc = rt.alloc();
    let text = io::read_to_string(alloc, rt.reader())?;
    let mut report = String::new(alloc);
    let checked = check(alloc, text.as_str(), &mut report);
    print!(rt; "{report}")?;
    checked
}
