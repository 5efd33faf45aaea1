// What is asked of each pile: everything, then changes and refusals, then everything again.
use super::printing::{print_bytes, print_fault};
use drivers::{Driver, DriverFault, WholeFault, read_all};
use std::io;

pub(super) fn exercise_all<D: Driver + Drop>(rt: &HostRuntime, mut d: D) -> io::Result<()> {
    let shape = d.shape();
    let count = shape.count;
    let size = shape.size;
    println!(rt; "shape {count} {size}")?;
    if count > 8 || size > 8 {
        return Ok(());
    }
    show(rt, &mut d)?;
    change(rt, &mut d)?;
    refuse(rt, &mut d)?;
    show(rt, &mut d)?;
    show_whole(rt, &mut d)
}

// Every block, and one past the last.
fn show<D: Driver>(rt: &HostRuntime, d: &mut D) -> io::Result<()> {
    match d.system() {
        Ok(b) => println!(rt; "system {b}")?,
        Err(e) => print_fault(rt, "refused", e)?,
    }
    let shape = d.shape();
    for k in 0..=shape.count.min(8) {
        match d.locked(k) {
            Ok(b) => println!(rt; "locked {k} {b}")?,
            Err(e) => print_fault(rt, "refused", e)?,
        }
        let mut buffer = [238u8; 8];
        print_answer(rt, d.read(k, &mut buffer[..shape.size.min(8)]))?;
        print_bytes(rt, "block", &buffer)?;
    }
    Ok(())
}

// New bytes for every block, the first one locked twice, another system byte.
fn change<D: Driver>(rt: &HostRuntime, d: &mut D) -> io::Result<()> {
    let bytes = [1u8, 2, 60, 200, 5, 6, 7, 8];
    let shape = d.shape();
    for k in 0..=shape.count.min(8) {
        print_answer(rt, d.write(k, &bytes[..shape.size.min(8)]))?;
    }
    print_answer(rt, d.lock(0))?;
    print_answer(rt, d.lock(0))?;
    print_answer(rt, d.set_system(29))
}

// A locked block, wrong buffers, and blocks that are not there.
fn refuse<D: Driver>(rt: &HostRuntime, d: &mut D) -> io::Result<()> {
    let long = [7u8; 300];
    let shape = d.shape();
    let size = shape.size.min(8);
    let mut buffer = [238u8; 9];
    print_answer(rt, d.write(0, &long[..size]))?;
    print_answer(rt, d.write(0, &long[..size + 1]))?;
    print_answer(rt, d.write(0, &long))?;
    print_answer(rt, d.write(7, &long))?;
    print_answer(rt, d.write(7000, &long[..size]))?;
    print_answer(rt, d.lock(shape.count))?;
    print_answer(rt, d.read(0, &mut buffer))?;
    print_answer(rt, d.read(0, &mut []))?;
    print_answer(rt, d.read(shape.count, &mut []))?;
    print_bytes(rt, "buffer", &buffer)
}

fn show_whole<D: Driver>(rt: &HostRuntime, d: &mut D) -> io::Result<()> {
    let mut image = [221u8; 28];
    if let Err(e) = read_all(d, &mut image) {
        print_whole(rt, e)?;
    }
    print_bytes(rt, "image", &image)?;
    match read_all(d, &mut image[..3]) {
        Ok(()) => println!(rt; "room"),
        Err(e) => print_whole(rt, e),
    }
}

fn print_whole(rt: &HostRuntime, e: WholeFault) -> io::Result<()> {
    match e {
        WholeFault::Room(n) => println!(rt; "needs {n}"),
        WholeFault::Driver(e) => print_fault(rt, "refused", e),
    }
}

fn print_answer(rt: &HostRuntime, answer: Result<(), DriverFault>) -> io::Result<()> {
    match answer {
        Ok(()) => println!(rt; "granted"),
        Err(e) => print_fault(rt, "refused", e),
    }
}
