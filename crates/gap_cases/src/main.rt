// Lays out gaps whose bytes were worked out by hand, and prints them.
#![tactic(auto)]

use codes::Kind;
use layout::{Behind, Item, lay_out, lay_ready};
use std::io;

// What a gap holds before it is laid out; a refusal has to leave it.
const OLD: u8 = 0xa5;

fn show(rt: &HostRuntime, name: &str, gap: &[u8]) -> io::Result<()> {
    print!(rt; "{name}:")?;
    for b in gap {
        print!(rt; " {b:02X}")?;
    }
    println!(rt; "")
}

fn lay(
    rt: &HostRuntime,
    name: &str,
    gap: &mut [u8],
    items: &[Item],
    behind: Behind,
) -> io::Result<()> {
    if let Err(fault) = lay_out(gap, items, behind) {
        print!(rt; "{fault}, ")?;
    }
    show(rt, name, gap)
}

fn compact<'a>(identifier: &'a [u8], object: &'a [u8]) -> Item<'a> {
    Item {
        identifier,
        kind: Kind::Compact,
        object,
    }
}

// A gap of n bytes at blocks of four: an item number and a name, one of them readied.
fn readied(rt: &HostRuntime, gap: &mut [u8], named: usize, behind: Behind) -> io::Result<()> {
    let items = [compact(&[1], b"12345678"), compact(&[5], b"AB-12")];
    match lay_ready(gap, 4, &items, named, behind) {
        Ok(r) => print!(rt; "at {} bytes {}, ", r.at, r.bytes)?,
        Err(fault) => print!(rt; "{fault}, ")?,
    }
    show(rt, "readied", gap)
}

// A gap of eight bytes before a locked block, with one item of n bytes under identifier 3.
fn of_eight(rt: &HostRuntime, object: &[u8]) -> io::Result<()> {
    let mut gap = [OLD; 8];
    let item = Item {
        identifier: &[3],
        kind: Kind::Application,
        object,
    };
    lay(rt, "eight", &mut gap, &[item], Behind::Locked)
}

fn two(rt: &HostRuntime, behind: Behind) -> io::Result<()> {
    let mut gap = [OLD; 20];
    let items = [compact(&[1], b"12345678"), compact(&[0x81, 0x00], b"AB-12")];
    lay(rt, "twenty", &mut gap, &items, behind)
}

fn others(rt: &HostRuntime) -> io::Result<()> {
    let mut gap = [OLD; 4];
    lay(rt, "empty before a lock", &mut gap, &[], Behind::Locked)?;
    lay(rt, "empty at the end", &mut gap, &[], Behind::End)?;
    let bad = compact(&[0x80], b"7");
    lay(rt, "bad identifier", &mut gap, &[bad], Behind::End)?;
    let mut long = [OLD; 262];
    let one = Item {
        identifier: &[14],
        kind: Kind::Utf8,
        object: b"x",
    };
    lay(rt, "long", &mut long, &[one], Behind::Locked)
}

fn main(rt: HostRuntime) -> io::Result<()> {
    of_eight(&rt, b"\x01\x02\x03\x04\x05")?;
    of_eight(&rt, b"\x01\x02\x03\x04\x05\x06")?;
    of_eight(&rt, b"\x01\x02\x03\x04\x05\x06\x07")?;
    two(&rt, Behind::Locked)?;
    two(&rt, Behind::End)?;
    readied(&rt, &mut [OLD; 16], 1, Behind::Locked)?;
    readied(&rt, &mut [OLD; 20], 1, Behind::Locked)?;
    readied(&rt, &mut [OLD; 20], 0, Behind::Locked)?;
    readied(&rt, &mut [OLD; 20], 0, Behind::End)?;
    readied(&rt, &mut [OLD; 15], 1, Behind::Locked)?;
    readied(&rt, &mut [OLD; 16], 2, Behind::Locked)?;
    others(&rt)
}
