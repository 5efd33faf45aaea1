// Compares packing and unpacking, case by case, with an unrelated encoder's output on standard input.
//
// A line is `pack KIND OBJECT CODE PACKED`, `unpack CODE PACKED object OBJECT` or
// `unpack CODE PACKED fault NUMBER GROUP`; bytes are hexadecimal, `-` is none. Refusals, with an output of ROOM bytes,
// are `refuse-pack CODE OBJECT ROOM size`, `.. code` or `.. short N`, and `refuse-unpack CODE PACKED ROOM short N`.
#![tactic(auto)]

use anyhow::{Context, anyhow, bail};
use codes::{Compaction, Kind, UnknownNumber};
use packing::{PackFault, UnpackFault, measure, pack, pack_as, unpack};
use std::alloc::{AllocError, Global};
use std::io::{BufRead, BufReader};
use vectors::bytes;

// What an output holds before a call; a call has to leave it where it writes nothing.
const FILL: u8 = 0xa5;

#[derive(Drop)]
struct Output(Vec<u8>);

impl Output {
    fn of(heap: Global, room: usize) -> Result<Self, AllocError> {
        Ok(Output(vec![in heap; FILL; room]?))
    }

    fn room(&mut self) -> &mut [u8] {
        self.0.as_mut_slice()
    }

    // `wanted` at the front, and what was there before behind it.
    fn holds(&self, wanted: &[u8]) -> bool {
        self.0
            .strip_prefix(wanted)
            .is_some_and(|rest| rest.iter().all(|b| *b == FILL))
    }
}

// The kind or the code of a number, or that there is none.
fn numbered<T: TryFrom<u8, Error = UnknownNumber>>(
    word: &str,
    none: &'static str,
) -> anyhow::Result<T> {
    T::try_from(word.parse::<u8>()?).ok().context(none)
}

fn kind_of(word: &str) -> anyhow::Result<Kind> {
    numbered(word, "no such kind")
}

fn code_of(word: &str) -> anyhow::Result<Compaction> {
    numbered(word, "no such code")
}

// The code is a number: one above 7 is no error, but differs.
fn packs(heap: Global, kind: Kind, object: &[u8], code: u8, packed: &[u8]) -> anyhow::Result<bool> {
    let mut out = Output::of(heap, 2100)?;
    let Ok(p) = pack(kind, object, out.room()) else {
        return Ok(false);
    };
    Ok(u8::from(p.code) == code && p.length == packed.len() && out.holds(packed))
}

fn says(heap: Global, code: Compaction, packed: &[u8], object: &[u8]) -> anyhow::Result<bool> {
    let mut out = Output::of(heap, 5000)?;
    let (Ok(length), Ok(written)) = (measure(code, packed), unpack(code, packed, out.room())) else {
        return Ok(false);
    };
    Ok(length == object.len() && written == object.len() && out.holds(object))
}

fn fails(
    heap: Global,
    code: Compaction,
    packed: &[u8],
    number: u8,
    group: usize,
) -> anyhow::Result<bool> {
    let mut out = Output::of(heap, 5000)?;
    let Err(UnpackFault::Code(f)) = unpack(code, packed, out.room()) else {
        return Ok(false);
    };
    Ok(f.number() == number && f.group() == group && out.holds(&[]))
}

// Whether an output is told to be too short for as many bytes as the last words of a case say.
fn says_short(why: &[&str], n: usize) -> anyhow::Result<bool> {
    match why {
        ["short", needed] => Ok(n == needed.parse::<usize>()?),
        _ => Ok(false),
    }
}

fn refuses_to_pack(
    heap: Global,
    code: Compaction,
    object: &[u8],
    room: usize,
    why: &[&str],
) -> anyhow::Result<bool> {
    let mut out = Output::of(heap, room)?;
    let right = match (pack_as(code, object, out.room()), why) {
        (Err(PackFault::Size), ["size", ..]) | (Err(PackFault::NotPermitted), ["code", ..]) => true,
        (Err(PackFault::TooShort(n)), _) => says_short(why, n)?,
        _ => false,
    };
    Ok(right && out.holds(&[]))
}

fn refuses_to_unpack(
    heap: Global,
    code: Compaction,
    packed: &[u8],
    room: usize,
    why: &[&str],
) -> anyhow::Result<bool> {
    let mut out = Output::of(heap, room)?;
    let Err(UnpackFault::Short(n)) = unpack(code, packed, out.room()) else {
        return Ok(false);
    };
    Ok(says_short(why, n)? && out.holds(&[]))
}

// What is said of packed bytes: an object, or a fault's number and group.
fn unpacks(heap: Global, code: Compaction, packed: &[u8], said: &[&str]) -> anyhow::Result<bool> {
    match said {
        ["object", object, ..] => says(heap, code, packed, bytes(heap, object)?.as_slice()),
        [_, number, group] => fails(heap, code, packed, number.parse()?, group.parse()?),
        _ => Err(anyhow!("a fault has a number and a group")),
    }
}

fn packing_case(heap: Global, words: &[&str]) -> anyhow::Result<bool> {
    let [kind, object, code, packed] = words else {
        bail!("a pack case has five words");
    };
    packs(
        heap,
        kind_of(kind)?,
        bytes(heap, object)?.as_slice(),
        code.parse()?,
        bytes(heap, packed)?.as_slice(),
    )
}

fn unpacking_case(heap: Global, words: &[&str]) -> anyhow::Result<bool> {
    match words {
        [code, packed, said @ ..] if said.len() >= 2 => unpacks(
            heap,
            code_of(code)?,
            bytes(heap, packed)?.as_slice(),
            said,
        ),
        _ => Err(anyhow!("an unpack case has five words or six")),
    }
}

fn refusal_case(heap: Global, words: &[&str], packing: bool) -> anyhow::Result<bool> {
    match words {
        [code, given, room, why @ ..] if !why.is_empty() => {
            let code = code_of(code)?;
            let given = bytes(heap, given)?;
            let room = room.parse()?;
            if packing {
                refuses_to_pack(heap, code, given.as_slice(), room, why)
            } else {
                refuses_to_unpack(heap, code, given.as_slice(), room, why)
            }
        }
        _ => Err(anyhow!("a refusal has five words or six")),
    }
}

fn case(heap: Global, words: &[&str]) -> anyhow::Result<bool> {
    match words {
        ["pack", rest @ ..] => packing_case(heap, rest),
        ["unpack", rest @ ..] => unpacking_case(heap, rest),
        ["refuse-pack", rest @ ..] => refusal_case(heap, rest, true),
        ["refuse-unpack", rest @ ..] => refusal_case(heap, rest, false),
        _ => Err(anyhow!("no such case")),
    }
}

#[derive(Default, Drop)]
struct Counts {
    packed: u64,
    unpacked: u64,
    refused: u64,
}

impl Counts {
    fn count(&mut self, words: &[&str]) {
        let sort = match words.first().copied() {
            Some("pack") => &mut self.packed,
            Some("unpack") => &mut self.unpacked,
            _ => &mut self.refused,
        };
        *sort = sort.saturating_add(1);
    }
}

// Stays: the loop of `gap_vectors` is alike; shared it would be public, and no contract can say what is read and printed.
fn main(rt: HostRuntime) -> anyhow::Result<()> {
    let mut counts = Counts::default();
    for line in BufReader::new(rt.alloc(), rt.stdin())?.lines(rt.alloc()) {
        let line = line?;
        let words: Vec<&str> = line.split(' ').collect(rt.alloc())?;
        if !case(rt.alloc(), words.as_slice())? {
            println!(rt; "differs: {line}")?;
            bail!("a case differs");
        }
        counts.count(words.as_slice());
    }
    let Counts {
        packed,
        unpacked,
        refused,
    } = counts;
    println!(rt; "packed {packed} unpacked {unpacked} refused {refused} differ 0")?;
    println!(rt;
        "worked examples held by the definitions {}",
        codes::examples_hold()
    )?;
    Ok(())
}
