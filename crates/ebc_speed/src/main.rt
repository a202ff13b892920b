//! Floor: supervisor. It promises nothing: it runs a loop of byte code over a flat bus, or over the domain of an image, so that a script can
//! measure what a unit costs. It never touches a file.
#![tactic(auto)]

mod looping;

use crate::looping::{LOOP, loop_over};
use ebc_machine::FlatBus;
use mm_base::{Ended, List};
use sample_domains::domain_with;
use std::alloc::Global;
use std::env::Args;
use std::rt::Env;
use std::{env, io};

/// Where the code of the flat bus stands, and how many bytes it has.
const BASE: u64 = 0x1_0000;

const SIZE: usize = 4096;

/// Where the section of the domain's image stands, its stack's last page, and its communicate page.
const SECTION: u64 = 0x8000_0100;

const STACK_PAGE: u64 = 0x8000_4000;

const COMMUNICATE: u64 = 0x8000_5000;

/// How many units are run where no word says it.
const FEW: u32 = 1_000;

/// What is to be measured.
#[derive(Clone, Copy)]
struct Measure {
    /// How many units.
    units: u32,
    /// Whether over a domain.
    domain: bool,
}

/// What the words behind the program's name say: the word `domain`, and how many units.
fn measure_of(words: Args) -> Measure {
    let mut measure = Measure {
        units: FEW,
        domain: false,
    };
    for word in words.skip(1) {
        match word.as_str() {
            "domain" => measure.domain = true,
            number => measure.units = number.parse().unwrap_or(FEW),
        }
    }
    measure
}

/// What is to be measured, by the program's words.
fn asked_by<R: Env + Alloc<A = Global>>(rt: &R) -> Measure {
    match env::args(rt) {
        Ok(words) => measure_of(words),
        Err(_) => Measure {
            units: FEW,
            domain: false,
        },
    }
}

/// Runs the loop over a flat bus.
fn over_flat(alloc: Global, units: u32) -> io::Result<(Ended, u64)> {
    let mut bytes = vec![in alloc; 0u8; SIZE]?;
    bytes[..LOOP.len()].copy_from_slice(&LOOP);
    let mut bus = FlatBus::new(BASE, List::from_vec(bytes));
    Ok(loop_over(&mut bus, BASE, BASE + 64, BASE + 4096, units))
}

/// Runs the loop over a domain; None where there is none, as where memory is refused.
fn over_domain(alloc: Global, units: u32) -> Option<(Ended, u64)> {
    match domain_with(alloc, &LOOP) {
        Ok(Some(mut domain)) => Some(loop_over(
            &mut domain,
            SECTION,
            STACK_PAGE,
            COMMUNICATE,
            units,
        )),
        _ => None,
    }
}

fn main(rt: HostRuntime) -> io::Result<()> {
    let measure = asked_by(&rt);
    let units = measure.units;
    let run = if measure.domain {
        over_domain(rt.alloc(), units)
    } else {
        Some(over_flat(rt.alloc(), units)?)
    };
    match run {
        Some((Ended::Fuel(at), counted)) => {
            println!(rt; "{units} units: fuel used up at {at:x}, R4 {counted:x}")
        }
        _ => println!(rt; "the loop ended otherwise"),
    }
}
