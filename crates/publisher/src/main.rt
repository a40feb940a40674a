//! The publisher: events on standard input and the tape in the file tape.bin, which may be missing; the publication on
//! standard output.

#![tactic(auto)]

use input::{MOST, read_all, read_tape};
use publishing::publish;
use std::io::Write;

/// The bytes that a publication can have.
const ROOM: usize = 65_536;

fn main(rt: HostRuntime) -> anyhow::Result<()> {
    let events = read_all(&mut rt.stdin(), rt.alloc(), MOST)?;
    let tape = read_tape(&rt, MOST)?;
    let mut out = vec![in rt.alloc(); 0u8; ROOM]?;
    let written = publish(&events, &tape, &mut out)?;
    rt.stdout().write_all(&out[..written])?;
    Ok(())
}
