//! Shows what a plan costs and how its noise runs, before an epoch is opened. The words are the plan's number and the
//! horizon; a single word is the horizon, and the plan then the default one. Standard input is the tape.

#![tactic(auto)]

ghost use Rattle.std.specs.Prelude.{◌≤◌, IfOk};
ghost use Rattle.plan.specs.Plans.{horizon};

use anyhow::anyhow;
use input::{MOST, read_all};
use plan::{Chosen, Plan, cover_of};
use sketch::{Step, course_of, horizon_by_number};
use std::{env, io};
use tape::{ByteTape, Tape};

fn main(rt: HostRuntime) -> anyhow::Result<()> {
    let (plan, horizon) = asked(&rt)?;
    let bytes = read_all(&mut rt.stdin(), rt.alloc(), MOST)?;
    show_plan(&rt, &plan, horizon, &bytes)?;
    Ok(())
}

/// Prints the steps that the tape of these bytes reaches, and then what the whole horizon takes.
fn show_plan(rt: &HostRuntime, plan: &Chosen, horizon: u16, bytes: &[u8]) -> io::Result<()> {
    let mut tape = ByteTape::new(bytes);
    let course = course_of(plan, &mut tape, horizon);
    let steps = course.as_slice();
    println!(rt; "step       part        cell           noise  cover")?;
    for step in steps {
        show_step(rt, plan, step)?;
    }
    let depth = plan.depth(horizon);
    let breadth = plan.breadth(horizon);
    let used = steps.len();
    let left = tape.left();
    println!(rt;
        "horizon {horizon}: depth {depth}, breadth {breadth}, cells used {used}, cells left {left}"
    )
}

/// The plan and the horizon that the words name.
fn asked(rt: &HostRuntime) -> anyhow::Result<(Chosen, u16)> {
    let mut words = env::args(rt)?;
    let _program = words.next();
    let Some(first) = words.next() else {
        return Err(anyhow!("the horizon is missing"));
    };
    match words.next() {
        None => Ok((Chosen::default(), horizon_of(first.as_str())?)),
        Some(second) => Ok((plan_of(first.as_str())?, horizon_of(second.as_str())?)),
    }
}

fn plan_of(word: &str) -> anyhow::Result<Chosen> {
    Ok(word.parse::<u16>()?.try_into()?)
}

fn horizon_of(word: &str) -> anyhow::Result<u16>
    ensures { IfOk result (λ n. (1 ≤ n) × (n ≤ horizon)) }
{
    Ok(horizon_by_number(word.parse::<u16>()?)?)
}

/// Prints a step: its number, its part, its cell, its noise, and the steps of its cover.
fn show_step(rt: &HostRuntime, plan: &Chosen, step: &Step) -> io::Result<()> {
    let number = step.number;
    let first = step.first;
    let cell = step.cell;
    let noise = step.noise;
    print!(rt; "{number:>4}  {first:>4}-{number:<4} {cell:>11} {noise:>15} ")?;
    let cover = cover_of(plan, number);
    for part in cover.as_slice() {
        print!(rt; " {part}")?;
    }
    println!(rt; "")
}
