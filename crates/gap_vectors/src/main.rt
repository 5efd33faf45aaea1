// Compares the layout of gaps, case by case, with what unrelated programs left in a memory, on standard input.
//
// A line is `CALL BEHIND BLOCK READY BEFORE AFTER` and then `IDENTIFIER KIND OBJECT` of each item: BEHIND is `locked` or
// `end`, READY the place of the readied item or `-`, BEFORE and AFTER the bytes of the gap, AFTER `small` where the call
// was refused for want of room. Bytes are hexadecimal, `-` is none.
#![tactic(auto)]

use anyhow::{Context, anyhow, bail};
use codes::Kind;
use layout::{Behind, Item, LayoutFault, lay_out, lay_ready};
use std::alloc::Global;
use std::io::{BufRead, BufReader};
use vectors::bytes;

fn kind_of(word: &str) -> anyhow::Result<Kind> {
    Kind::try_from(word.parse::<u8>()?)
        .ok()
        .context("no such kind")
}

// The words of an item, as bytes that a layout is lent.
#[derive(Drop)]
struct Wanted {
    identifier: Vec<u8>,
    kind: Kind,
    object: Vec<u8>,
}

impl Wanted {
    fn read(heap: Global, [identifier, kind, object]: [&str; 3]) -> anyhow::Result<Self> {
        Ok(Wanted {
            identifier: bytes(heap, identifier)?,
            kind: kind_of(kind)?,
            object: bytes(heap, object)?,
        })
    }

    fn item(&self) -> Item<'_> {
        Item {
            identifier: self.identifier.as_slice(),
            kind: self.kind,
            object: self.object.as_slice(),
        }
    }
}

fn behind_of(word: &str) -> anyhow::Result<Behind> {
    match word {
        "locked" => Ok(Behind::Locked),
        "end" => Ok(Behind::End),
        _ => Err(anyhow!("neither locked nor end")),
    }
}

// Whether the items are laid out, or found too many for the gap.
fn lay(
    gap: &mut [u8],
    block: &str,
    ready: &str,
    items: &[Item],
    behind: Behind,
) -> anyhow::Result<bool> {
    let answer = match ready {
        "-" => lay_out(gap, items, behind),
        _ => lay_ready(gap, block.parse()?, items, ready.parse()?, behind).map(|_| ()),
    };
    match answer {
        Ok(()) => Ok(true),
        Err(LayoutFault::TooSmall) => Ok(false),
        Err(_) => Err(anyhow!("an item or a block that no layout takes")),
    }
}

// The items of a case. What is wrong with their words is told of identifiers first, then of kinds, then of objects.
fn read_items(heap: Global, words: &[[&str; 3]]) -> anyhow::Result<Vec<Wanted>> {
    for [identifier, _, _] in words {
        bytes(heap, identifier)?;
    }
    for [_, kind, _] in words {
        kind_of(kind)?;
    }
    let mut wanted = Vec::new(heap);
    for item in words {
        wanted.push(Wanted::read(heap, *item)?)?;
    }
    Ok(wanted)
}

// Whether a case is laid as the memory shows, or too small with the gap as before.
fn agrees(heap: Global, words: &[&str]) -> anyhow::Result<bool> {
    let [_, behind, block, ready, before, after, rest @ ..] = words else {
        bail!("a case has six words and three for each item");
    };
    let (thirds, []) = rest.as_chunks::<3>() else {
        bail!("a case has six words and three for each item");
    };
    let wanted = read_items(heap, thirds)?;
    let items: Vec<Item> = wanted.iter().map(|w| w.item()).collect(heap)?;
    let mut gap = bytes(heap, before)?;
    let laid = lay(
        gap.as_mut_slice(),
        block,
        ready,
        items.as_slice(),
        behind_of(behind)?,
    )?;
    let small = *after == "small";
    let left = bytes(heap, if small { before } else { after })?;
    Ok(laid != small && gap == left)
}

// Stays: the loop of `code_vectors` is alike; shared it would be public, and no contract can say what is read and printed.
fn main(rt: HostRuntime) -> anyhow::Result<()> {
    let mut laid: u64 = 0;
    let mut small: u64 = 0;
    for line in BufReader::new(rt.alloc(), rt.stdin())?.lines(rt.alloc()) {
        let line = line?;
        let words: Vec<&str> = line.split(' ').collect(rt.alloc())?;
        if !agrees(rt.alloc(), words.as_slice())? {
            println!(rt; "differs: {line}")?;
            bail!("a case differs");
        }
        match words.get(5).copied() {
            Some("small") => small = small.saturating_add(1),
            _ => laid = laid.saturating_add(1),
        }
    }
    println!(rt; "laid {laid} too small {small} differ 0")?;
    Ok(())
}
