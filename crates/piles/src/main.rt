// Piles of layers over both tags, asked and changed block by block; what it prints is compared.
#![tactic(auto)]

mod declines;
mod exercise;
mod piles;
mod printing;

use bench::Bench;
use declines::decline_all;
use piles::{PILES, Pile};
use printing::{print_bytes, print_fault};
use rehearsal::Rehearsal;
use std::io;
use tags::{Dump, Shape};

// Six blocks of four bytes; blocks 1 and 4 are locked.
const DUMP: [u8; 33] = [
    4, 6, 9, 0, 1, 0, 0, 255, 0, 11, 48, 85, 122, 159, 196, 233, 14, 51, 88, 125, 162, 199, 236,
    17, 54, 91, 128, 165, 202, 239, 20, 57, 94,
];

// The pile stands on a tag that is lent.
fn over_bench(rt: &HostRuntime, pile: Pile) -> io::Result<()> {
    let mut memory = [0u8; 24];
    memory.copy_from_slice(&DUMP[9..33]);
    let mut locks = [false, true, false, false, true, false];
    let shape = Shape { count: 6, size: 4 };
    match Bench::new(shape, 9, &mut memory, &mut locks) {
        Ok(mut tag) => pile.exercise(rt, &mut tag)?,
        Err(e) => print_fault(rt, "declined", e)?,
    }
    print_bytes(rt, "memory", &memory)?;
    println!(rt; "flags {locks:?}")
}

fn over_rehearsal(rt: &HostRuntime, pile: Pile) -> io::Result<()> {
    match Dump::read(&DUMP).and_then(Rehearsal::new) {
        Ok(tag) => pile.exercise(rt, tag),
        Err(e) => print_fault(rt, "declined", e),
    }
}

fn main(rt: HostRuntime) -> io::Result<()> {
    for (number, pile) in PILES.iter().enumerate() {
        println!(rt; "bench {number}")?;
        over_bench(&rt, *pile)?;
        println!(rt; "rehearsal {number}")?;
        over_rehearsal(&rt, *pile)?;
    }
    decline_all(&rt)
}
