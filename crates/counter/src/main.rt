//! Takes a station through whole epochs. Standard input has its events: a set-up record, then records that open, step and
//! close. The tape is the file tape.bin, and is empty where there is no such file. Each event has a line: a step's has
//! the published counts, and how far they can lie from the true ones.

#![tactic(auto)]

use anyhow::anyhow;
use input::{MOST, read_all, read_tape};
use plan::Chosen;
use record::{Reading, Record, read_record};
use station::Setting;
use std::io;
use tape::{ByteTape, Tape};
use watch::Watch;

mod watch;

fn main(rt: HostRuntime) -> anyhow::Result<()> {
    let events = read_all(&mut rt.stdin(), rt.alloc(), MOST)?;
    let tape = read_tape(&rt, MOST)?;
    let (reading, rest) = read_record(&events);
    let (setting, plan) = set_up(&rt, &reading)?;
    let tapes = (ByteTape::new(&tape), ByteTape::new(&tape));
    watch_all(&rt, setting, plan, tapes, rest)
}

/// The setting and the plan that the first record names.
fn set_up(rt: &HostRuntime, reading: &Reading<'_>) -> anyhow::Result<(Setting, Chosen)> {
    match reading {
        Reading::Found(
            Record::SetUp {
                station,
                classes,
                plan,
                grant,
            },
        ) => {
            println!(rt;
                "  1  set up: station {station}, {classes} classes, plan {plan}, grant {grant}"
            )?;
            let setting = Setting {
                number: *station,
                classes: *classes,
                grant: *grant,
            };
            Ok((setting, Chosen::try_from(*plan)?))
        }
        Reading::Faulty(fault) => Err((*fault).into()),
        _ => Err(anyhow!("the first record is not a set-up")),
    }
}

/// Takes a new station through the events of the bytes.
// A function of its own: room for a station is cleared where a function begins, and most of `main` needs none.
fn watch_all<T: Tape + Drop>(
    rt: &HostRuntime,
    setting: Setting,
    plan: Chosen,
    tapes: (T, T),
    events: &[u8],
) -> anyhow::Result<()> {
    let (tape, same) = tapes;
    let mut watch = Watch::new(setting, plan, tape, same)?;
    let went = follow(rt, &mut watch, events);
    let ended = watch.end(rt);
    went?;
    ended?;
    Ok(())
}

/// Takes the events of the bytes, one by one. A record that is cut short is the last.
fn follow<T: Tape + Drop>(rt: &HostRuntime, watch: &mut Watch<T>, bytes: &[u8]) -> io::Result<()> {
    let mut rest = bytes;
    while !rest.is_empty() {
        let (reading, tail) = read_record(rest);
        watch.take(rt, &reading)?;
        if tail.len() == rest.len() {
            break;
        }
        rest = tail;
    }
    Ok(())
}
