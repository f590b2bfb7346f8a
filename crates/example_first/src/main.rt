//! Prints what is left of each quota if 900 MB are used.
#![tactic(auto)]

ghost use Rattle.std.specs.Prelude.{◌-◌, ◌≤◌, SomeIff};

use anyhow::{Context, Result};
use byte_unit::{Byte, FormatSpec, UnitType};
use std::alloc::Global;

/// Returns `quota - used`, or `None` if `used` is larger.
fn left(quota: Byte, used: Byte) -> Option<Byte>
    ensures { SomeIff result (used ≤ quota) (quota - used) }
{
    quota.subtract(used)
}

/// Formats what is left of the quota in `line`.
fn report(alloc: Global, line: &str) -> Result<String> {
    let quota: Byte = line.parse()?;
    let free = left(quota, Byte::from_u64(900_000_000)).context("more is used")?;
    let bytes = free.to_text(alloc, FormatSpec::PLAIN)?;
    let exact = free.to_text(alloc, FormatSpec::ALTERNATE)?;
    let two = FormatSpec {
        precision: Some(2),
        ..FormatSpec::PLAIN
    };
    let about = free
        .get_appropriate_unit(UnitType::Binary)
        .to_text(alloc, two)?;
    let json = free.to_json(alloc)?.to_string(alloc)?;
    let text = format!(in alloc; "{bytes} bytes, {exact}, about {about}, {json}")?;
    Ok(text)
}

fn main(rt: HostRuntime) -> Result<()> {
    for line in rt.lines(rt.alloc()) {
        let text = report(rt.alloc(), line?.as_str())?;
        println!(rt; "{text}")?;
    }
    Ok(())
}
