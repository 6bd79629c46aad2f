// Plays lists with a record: each case loads the record of a map, makes calls and proposals with it, and has it changed by other hands.
// The register goes from case to case. The cases come in one block of 65,536 bytes.
// `host/run cases --write` writes the cases and, by an implementation of its own, the lines that must come out.
#![tactic(auto)]

ghost use Rattle.std.specs.Prelude.{◌≡◌, ◌≤◌, ◌<◌, IfOk, IfSome, length};
ghost use Rattle.map.specs.Format.{read_map};
ghost use Rattle.records.specs.Promises.{loaded_by};

use cases::{Played, byte_at, licence_at, line, map_in, print, proposed, u32_at};
use records::{Kept, Next, Record, RecordStep};
use register::{Licence, Register};
use std::io;
use std::io::Read;
use units::{Cells, MhzPops, People};

// What is done to the register or the record.
#[derive(Clone, Copy)]
enum Item {
    Grant(Licence),
    Cancel(u32),
    Propose(u32),
    // An entry that stands at a place from here on. A place of 32 or more changes nothing.
    Entry(u8, Kept),
    Count(u64),
    Empty,
}

fn main(rt: HostRuntime) -> io::Result<()> {
    let mut cases = Vec::new(rt.alloc());
    rt.reader().take(65536).read_to_end(&mut cases)?;
    play_all(&rt, &cases)
}

// Kept in both programs: what a case is differs, and a closure from a case to its register would say no less.
fn play_all(rt: &impl Print, s: &[u8]) -> io::Result<()> {
    let mut rest = s;
    let mut register = Register::empty();
    // Kept as a while: each case says how many bytes it takes, so no range or chunk gives them.
    while !rest.is_empty() {
        let done = play(rt, rest, register)?;
        rest = &rest[done.used..];
        register = done.register;
    }
    Ok(())
}

// One case: R, a map's length and bytes, a count of items, and the items. Anything else ends the block.
// Kept as a clause, here and in play_items: a slice can't say that it has a first byte.
fn play(rt: &impl Print, s: &[u8], register: Register) -> io::Result<Played>
    requires { 0 < length s.now }
    ensures { IfOk result (λ done. (0 < done.used) × (done.used ≤ length s.now)) }
{
    let block_ends = Played {
        used: s.len(),
        register,
    };
    if s[0] != b'R' {
        return Ok(block_ends);
    }
    let Some(map) = map_in(&s[1..]) else {
        return Ok(block_ends);
    };
    let end = 5 + map.len();
    if s.len() == end {
        return Ok(block_ends);
    }
    let kept = loaded(rt, map)?;
    let done = play_items(rt, &s[end..], map, Next { register, kept })?;
    Ok(Played {
        used: end + done.used,
        register: done.register,
    })
}

// The record of a map; of one that is refused, the record of no area.
fn loaded(rt: &impl Print, map: &[u8]) -> io::Result<Record>
    ensures { IfOk result (λ kept. kept ≡ loaded_by (read_map map.now)) }
{
    let load = Record::load_step(map);
    print(rt, "record", u64::from(load.refusal))?;
    Ok(load.kept)
}

// A count of items, and the items; then the record that they leave. An item that isn't there whole ends the block.
fn play_items(rt: &impl Print, s: &[u8], map: &[u8], start: Next) -> io::Result<Played>
    requires { 0 < length s.now }
    ensures { IfOk result (λ done. done.used ≤ length s.now) }
{
    let mut both = start;
    let mut rest = &s[1..];
    for _ in 0..s[0] {
        let Some((item, size)) = item_in(rest) else {
            return Ok(Played {
                used: s.len(),
                register: both.register,
            });
        };
        both = play_item(rt, item, map, both)?;
        rest = &rest[size..];
    }
    show(rt, &both.kept)?;
    Ok(Played {
        used: s.len() - rest.len(),
        register: both.register,
    })
}

// The item that stands first and how many bytes it takes, by its letter: G a grant without a width, W a grant with one, C a
// cancellation, P a proposal, A an entry of the record, N the record's count, E an empty register. None where it isn't there whole.
fn item_in(s: &[u8]) -> Option<(Item, usize)>
    ensures { IfSome result (λ item. item.1 ≤ length s.now) }
{
    let (item, size) = match byte_at(s, 0) {
        b'G' => (Item::Grant(licence_at(s)), 24),
        b'W' => (Item::Grant(licence_at(s)), 28),
        b'C' => (Item::Cancel(u32_at(s, 1)), 5),
        b'P' => (Item::Propose(u32_at(s, 1)), 5),
        b'A' => (Item::Entry(byte_at(s, 1), entry_at(s)), 34),
        b'N' => (Item::Count(u64_at(s, 1)), 9),
        b'E' => (Item::Empty, 1),
        _ => return None,
    };
    if s.len() < size {
        return None;
    }
    Some((item, size))
}

fn entry_at(s: &[u8]) -> Kept {
    Kept {
        number: u32_at(s, 2),
        weight: u32_at(s, 6),
        population: People(u64_at(s, 10)),
        mhz_pops: MhzPops(u64_at(s, 18)),
        cells: Cells(u64_at(s, 26)),
    }
}

// The u64 at a position of an item, 0 past the end.
fn u64_at(s: &[u8], at: usize) -> u64 {
    match s.get(at..).and_then(|rest| rest.first_chunk()) {
        Some(bytes) => u64::from_le_bytes(*bytes),
        None => 0,
    }
}

fn play_item(rt: &impl Print, item: Item, map: &[u8], both: Next) -> io::Result<Next> {
    let Next { register, mut kept } = both;
    match item {
        Item::Grant(l) => stepped(rt, "grant", kept.grant_step(map, register, l)),
        Item::Cancel(sign) => stepped(rt, "cancel", kept.cancel_step(map, register, sign)),
        Item::Propose(draw) => {
            print(rt, "propose", u64::from(draw))?;
            proposed(rt, kept.propose(draw))?;
            Ok(both)
        }
        Item::Entry(place, entry) => {
            if place < 32 {
                kept.areas[usize::from(place)] = entry;
            }
            Ok(Next { register, kept })
        }
        Item::Count(count) => {
            kept.count = count;
            Ok(Next { register, kept })
        }
        Item::Empty => {
            line(rt, "empty")?;
            Ok(Next {
                register: Register::empty(),
                kept,
            })
        }
    }
}

// Prints what a call is and the number of its refusal, 0 for none, and gives what it handed back to go on with.
fn stepped(rt: &impl Print, call: &str, done: RecordStep) -> io::Result<Next>
    ensures { IfOk result (λ next. (next.register ≡ done.step.next) × (next.kept ≡ done.kept)) }
{
    let RecordStep { step, kept } = done;
    print(rt, call, u64::from(step.refusal))?;
    Ok(Next {
        register: step.next,
        kept,
    })
}

// The record's count, and its entries that aren't all 0.
fn show(rt: &impl Print, kept: &Record) -> io::Result<()> {
    print(rt, "kept", kept.count)?;
    for (place, k) in kept.areas.iter().enumerate() {
        show_entry(rt, place, *k)?;
    }
    Ok(())
}

fn show_entry(rt: &impl Print, place: usize, k: Kept) -> io::Result<()> {
    let sums = k.population.0 | k.mhz_pops.0 | k.cells.0;
    if k.number == 0 && k.weight == 0 && sums == 0 {
        return Ok(());
    }
    print(rt, " entry", place as u64)?;
    print(rt, "  number", u64::from(k.number))?;
    print(rt, "  weight", u64::from(k.weight))?;
    print(rt, "  population", k.population.0)?;
    print(rt, "  mhz-pops", k.mhz_pops.0)?;
    print(rt, "  cells", k.cells.0)
}
