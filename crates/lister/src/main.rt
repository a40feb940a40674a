//! Lists the records of standard input.

#![tactic(auto)]

use input::read_all;
use listing::list;

/// The most bytes that are read.
const MOST: usize = 65_536;

fn main(rt: HostRuntime) -> anyhow::Result<()> {
    let bytes = read_all(&mut rt.stdin(), rt.alloc(), MOST)?;
    let summary = list(&rt, &bytes)?;
    let records = summary.records;
    let faults = summary.faults;
    let taken = summary.bytes;
    let size = bytes.len();
    println!(rt; "{records} records, {faults} faults, {taken} of {size} bytes")?;
    Ok(())
}
