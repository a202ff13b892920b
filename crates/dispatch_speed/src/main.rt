//! Floor: core. It promises nothing: it dispatches drivers that need nothing of each other, or each of which needs the next, over a starter that
//! scans nothing, so that a script can measure what rounds cost. It never touches a file.
#![tactic(auto)]

mod drivers;
mod flags;

use crate::drivers::{Shape, numbered};
use crate::flags::Flags;
use dispatcher::dispatch;
use mm_base::NoMemory;
use std::alloc::Global;
use std::env::Args;
use std::rt::Env;
use std::{env, io};

/// How many drivers there are where no word says it.
const FEW: u16 = 100;

/// What is to be measured.
#[derive(Clone, Copy)]
struct Measure {
    /// How many drivers.
    count: u16,
    /// What they need.
    shape: Shape,
}

/// What is measured where no word says it.
const USUAL: Measure = Measure {
    count: FEW,
    shape: Shape::Chain,
};

/// What the words behind the program's name say: `rounds` or `wide`, and how many drivers.
fn measure_of(words: Args) -> Measure {
    let mut measure = USUAL;
    for word in words.skip(1) {
        match word.as_str() {
            "rounds" => measure.shape = Shape::Chain,
            "wide" => measure.shape = Shape::Wide,
            number => measure.count = number.parse().unwrap_or(FEW),
        }
    }
    measure
}

/// What is to be measured, by the program's words.
fn asked_by<R: Env + Alloc<A = Global>>(rt: &R) -> Measure {
    match env::args(rt) {
        Ok(words) => measure_of(words),
        Err(_) => USUAL,
    }
}

/// How many drivers were started, and the round of the last start.
fn dispatched(alloc: Global, count: u16, shape: Shape) -> Result<(usize, u32), NoMemory> {
    let drivers = numbered(alloc, count, shape)?;
    let mut flags = Flags::new(alloc, count)?;
    let starts = dispatch(alloc, &drivers, &mut flags)?;
    let last = starts.as_slice().last();
    Ok((starts.len(), last.map_or(0, |start| start.round)))
}

fn main(rt: HostRuntime) -> io::Result<()> {
    let measure = asked_by(&rt);
    match dispatched(rt.alloc(), measure.count, measure.shape) {
        Ok((drivers, rounds)) => println!(rt; "{drivers} drivers in {rounds} rounds"),
        Err(_) => println!(rt; "memory was refused"),
    }
}
