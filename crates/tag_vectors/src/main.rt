// Compares listings, dump by dump, with those of an unrelated reader on standard input.
//
// A case is `dump HEX` (`-` is no bytes), `same BYTE` or `locked BYTE` (32 blocks of 32 such bytes, open or locked), then
// the lines of its listing and an empty line.
#![tactic(auto)]

use anyhow::{Context, anyhow};
use listing::listing;
use std::alloc::Global;
use std::io::{BufRead, BufReader};
use vectors::bytes;

// A dump of 32 blocks of 32 bytes, all of them the first that is named.
fn filled(heap: Global, lock: u8, content: &str) -> anyhow::Result<Vec<u8>> {
    let content = bytes(heap, content)?;
    let b = content.first().copied().context("no byte")?;
    let mut out = vec![in heap; 32, 32, 6]?;
    out.resize(3 + 32, lock)?;
    out.resize(3 + 32 + 32 * 32, b)?;
    Ok(out)
}

fn dump(heap: Global, case: &str) -> anyhow::Result<Vec<u8>> {
    let (word, text) = case.split_once(' ').context("no case")?;
    match word {
        "dump" => Ok(bytes(heap, text)?),
        "same" => filled(heap, 0, text),
        "locked" => filled(heap, 1, text),
        _ => Err(anyhow!("no such case")),
    }
}

// Whether the case is listed so; what it is listed as is printed where it isn't.
fn agrees(rt: &HostRuntime, case: &str, wanted: &str) -> anyhow::Result<bool> {
    let text = listing(rt.alloc(), dump(rt.alloc(), case)?.as_slice())?;
    let alike = text.as_str() == wanted;
    if !alike {
        rt.println(case)?;
        rt.println(text.as_str())?;
    }
    Ok(alike)
}

fn main(rt: HostRuntime) -> anyhow::Result<()> {
    let heap = rt.alloc();
    let mut alike = 0u64;
    let mut case = String::new(heap);
    let mut wanted = String::new(heap);
    for line in BufReader::new(heap, rt.stdin())?.lines(heap) {
        let line = line?;
        if case.is_empty() {
            case = line;
        } else if !line.is_empty() {
            wanted.push_str(line.as_str())?;
            wanted.push('\n')?;
        } else {
            let right = agrees(&rt, case.as_str(), wanted.as_str())?;
            alike = alike.saturating_add(u64::from(right));
            case.clear();
            wanted.clear();
        }
    }
    println!(rt; "{alike} dumps answered alike")?;
    println!(rt;
        "worked examples held by the definitions {}",
        sets::examples_hold()
    )?;
    Ok(())
}
