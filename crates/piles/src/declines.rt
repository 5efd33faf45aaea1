// Dumps and tags that are declined, and the last ones that are not.
use super::printing::print_fault;
use bench::Bench;
use rehearsal::Rehearsal;
use std::io;
use tags::{Dump, Shape};

pub(super) fn decline_all(rt: &HostRuntime) -> io::Result<()> {
    dump(rt, &[4, 8])?;
    dump(rt, &[0, 1, 9, 0])?;
    dump(rt, &[1, 0, 9])?;
    dump(rt, &[1, 1, 9, 0])?;
    dump(rt, &[1, 1, 9, 0, 7])?;
    dump(rt, &[1, 1, 9, 0, 7, 7])?;
    for (size, count) in [(33, 1), (32, 33), (32, 32), (4, 255), (1, 64), (1, 65)] {
        zeros(rt, size, count)?;
    }
    made(rt, 257, 1, 257, 257)?;
    made(rt, 1, 257, 257, 1)?;
    made(rt, 256, 4, 1024, 256)?;
    made(rt, 2, 4, 7, 2)?;
    made(rt, 2, 4, 9, 2)?;
    made(rt, 2, 4, 8, 1)?;
    made(rt, 2, 4, 8, 3)?;
    made(rt, 0, 0, 0, 0)
}

// A dump of zeros behind its shape.
fn zeros(rt: &HostRuntime, size: u8, count: u8) -> io::Result<()> {
    let mut bytes = [0u8; 1280];
    bytes[0] = size;
    bytes[1] = count;
    let length = 3 + usize::from(count) * (1 + usize::from(size));
    dump(rt, &bytes[..length.min(1280)])
}

fn dump(rt: &HostRuntime, bytes: &[u8]) -> io::Result<()> {
    match Dump::read(bytes) {
        Ok(dump) => {
            let Shape { count, size } = dump.shape();
            println!(rt; "dump {count} {size}")?;
            match Rehearsal::new(dump) {
                Ok(_) => println!(rt; "rehearsed"),
                Err(e) => print_fault(rt, "declined", e),
            }
        }
        Err(e) => print_fault(rt, "declined", e),
    }
}

// A tag of this shape on so many bytes and flags.
fn made(rt: &HostRuntime, count: usize, size: usize, bytes: usize, flags: usize) -> io::Result<()> {
    let mut memory = [0u8; 1280];
    let mut locks = [false; 260];
    let memory = &mut memory[..bytes.min(1280)];
    let locks = &mut locks[..flags.min(260)];
    match Bench::new(Shape { count, size }, 9, memory, locks) {
        Ok(_) => println!(rt; "made"),
        Err(e) => print_fault(rt, "declined", e),
    }
}
