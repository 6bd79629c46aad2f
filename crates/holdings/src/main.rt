// Plays a file of cases: maps that are checked and looked up in, calls on one register, and lists of calls that each start from an
// empty one. They come in up to three blocks of 65,536 bytes.
// `host/run cases --write` writes the cases and, by an implementation of its own, the lines that must come out.
#![tactic(auto)]

ghost use Rattle.std.specs.Prelude.{◌<◌, ◌≤◌, IfOk, length};

use cases::{Played, answered, licence_at, line, map_in, print, proposed, u16_at, u32_at};
use footprint::FootprintRefusal;
use register::Register;
use std::io;
use std::io::Read;

// 9 is no byte of a footprint, so a 9 that is left in a mask was not written.
const UNWRITTEN_BYTE: u8 = 9;

// 777 is more than the places that a mask here can have, so a 777 that is left in a table was not written.
const UNWRITTEN_ENTRY: u16 = 777;

// What a call is lent: the first bytes of a mask, the first entries of a table, and the entry from which none may change.
#[derive(Clone, Copy)]
struct Lent {
    mask: [u8; 64],
    table: [u16; 4096],
    bytes: usize,
    entries: usize,
    from: usize,
    ghost few: { (bytes ≤ 64) × (entries ≤ 4096) },
}

impl Lent {
    // What the three numbers at a position ask for, with nothing written: None where it is more than there is to lend.
    fn at(s: &[u8], at: usize) -> Option<Lent>
        requires { at < 64 }
    {
        let bytes = usize::from(u16_at(s, at));
        let entries = usize::from(u16_at(s, at + 2));
        if 64 < bytes || 4096 < entries {
            return None;
        }
        Some(Lent {
            mask: [UNWRITTEN_BYTE; 64],
            table: [UNWRITTEN_ENTRY; 4096],
            bytes,
            entries,
            from: usize::from(u16_at(s, at + 4)),
        })
    }
}

fn main(rt: HostRuntime) -> io::Result<()> {
    let mut register = Register::empty();
    for _ in 0..3 {
        register = play_block(&rt, register)?;
    }
    Ok(())
}

// The next block of the file, which may be empty, and the register that it leaves.
fn play_block(rt: &(impl Input + Print + AllocGlobal), register: Register) -> io::Result<Register> {
    let mut cases = Vec::new(rt.alloc());
    rt.reader().take(65536).read_to_end(&mut cases)?;
    play_all(rt, &cases, register)
}

// Kept in both programs: what a case is differs, and a closure from a case to its register would say no less.
fn play_all(rt: &impl Print, s: &[u8], start: Register) -> io::Result<Register> {
    let mut rest = s;
    let mut register = start;
    // Kept as a while: each case says how many bytes it takes, so no range or chunk gives them.
    while !rest.is_empty() {
        let done = play(rt, rest, register)?;
        rest = &rest[done.used..];
        register = done.register;
    }
    Ok(register)
}

// One case, by its first byte: M a map, G a grant without a width, W a grant with one, C a cancellation, E an empty register,
// P proposals, F footprints, L a list of calls. Anything else ends the block, as does a case that isn't there whole.
// Kept as a match, and no enum like Item of kept_holdings: there the letter tells how long an item is, here only playing a case does.
// Kept as a clause here and in two cases: a slice can't say that it has a first byte.
fn play(rt: &impl Print, s: &[u8], register: Register) -> io::Result<Played>
    requires { 0 < length s.now }
    ensures { IfOk result (λ done. (0 < done.used) × (done.used ≤ length s.now)) }
{
    let rest = &s[1..];
    match s[0] {
        b'M' => {
            let used = 1 + map_case(rt, rest)?;
            Ok(Played { used, register })
        }
        b'G' => grant_case(rt, s, 24, register),
        b'W' => grant_case(rt, s, 28, register),
        b'C' => cancel_case(rt, s, register),
        b'E' => {
            line(rt, "empty")?;
            Ok(Played {
                used: 1,
                register: Register::empty(),
            })
        }
        b'P' => {
            let used = 1 + proposal_case(rt, rest, register)?;
            Ok(Played { used, register })
        }
        b'F' => {
            let used = 1 + footprint_case(rt, rest, register)?;
            Ok(Played { used, register })
        }
        b'L' => {
            let done = list_case(rt, rest, register)?;
            Ok(Played {
                used: 1 + done.used,
                register: done.register,
            })
        }
        _ => Ok(Played {
            used: s.len(),
            register,
        }),
    }
}

// A map: its length, its bytes, and the numbers that are looked up in it.
fn map_case(rt: &impl Print, s: &[u8]) -> io::Result<usize>
    ensures { IfOk result (λ used. used ≤ length s.now) }
{
    let Some(map) = map_in(s) else {
        return Ok(s.len());
    };
    let refusal = map::check(map).map_or_else(u32::from, |()| 0);
    print(rt, "map", u64::from(refusal))?;
    let end = 4 + map.len();
    Ok(end + look_ups(rt, &s[end..], map)?)
}

// A count of numbers, and the numbers.
fn look_ups(rt: &impl Print, s: &[u8], map: &[u8]) -> io::Result<usize>
    ensures { IfOk result (λ used. used ≤ length s.now) }
{
    if s.is_empty() {
        return Ok(0);
    }
    let count = usize::from(s[0]);
    let numbers = &s[1..];
    for number in numbers.chunks_exact(2).take(count) {
        look_up(rt, map, u16_at(number, 0))?;
    }
    Ok(1 + numbers.len().min(2 * count))
}

// The head of the area with a number, and the length and the sum of the part that holds its rows.
fn look_up(rt: &impl Print, map: &[u8], number: u16) -> io::Result<()> {
    print(rt, "area", u64::from(number))?;
    match map::look_up(map, number) {
        Err(fault) => print(rt, " refused", u64::from(u32::from(fault)))?,
        Ok(None) => line(rt, " lacking")?,
        Ok(Some(a)) => {
            print(rt, " weight", u64::from(a.weight))?;
            print(rt, " rows", a.rows as u64)?;
            print(rt, " columns", a.columns as u64)?;
            print(rt, " people", a.population.0)?;
        }
    }
    let part = map::rows_of(map, number);
    print(rt, " bytes", part.len() as u64)?;
    print(rt, " sum", u64::from(sum(part)))
}

// The sum of the bytes, modulo 2^32.
fn sum(s: &[u8]) -> u32 {
    s.iter()
        .fold(0u32, |total, b| total.wrapping_add(u32::from(*b)))
}

// A grant in so many bytes: the call sign; 0 and an area's number, or 1 and the four edges of a box. Of 28 bytes the last four are
// the width; of 24 there is none.
fn grant_case(rt: &impl Print, s: &[u8], used: usize, register: Register) -> io::Result<Played>
    requires { (0 < length s.now) × (0 < used) }
    ensures { IfOk result (λ done. (0 < done.used) × (done.used ≤ length s.now)) }
{
    if s.len() < used {
        return Ok(Played {
            used: s.len(),
            register,
        });
    }
    let register = answered(rt, "grant", register, register.grant(licence_at(s)))?;
    Ok(Played { used, register })
}

// A cancellation: the call sign.
fn cancel_case(rt: &impl Print, s: &[u8], register: Register) -> io::Result<Played>
    requires { 0 < length s.now }
    ensures { IfOk result (λ done. (0 < done.used) × (done.used ≤ length s.now)) }
{
    if s.len() < 5 {
        return Ok(Played {
            used: s.len(),
            register,
        });
    }
    let register = answered(rt, "cancel", register, register.cancel(u32_at(s, 1)))?;
    Ok(Played { used: 5, register })
}

// Proposals: a map's length and bytes, how many numbers and draws there are, the numbers whose coverage and blocks are asked for,
// and the draws.
fn proposal_case(rt: &impl Print, s: &[u8], register: Register) -> io::Result<usize>
    ensures { IfOk result (λ used. used ≤ length s.now) }
{
    let Some(map) = map_in(s) else {
        return Ok(s.len());
    };
    let end = 4 + map.len();
    let rest = &s[end..];
    if rest.len() < 2 {
        return Ok(s.len());
    }
    let at = end + 2 + coverages(rt, &rest[2..], map, register, rest[0])?;
    Ok(at + proposals(rt, &s[at..], map, register, rest[1])?)
}

// The coverage and the blocks of the areas with some numbers.
// Kept beside look_ups, proposals and footprints: what they do with an item differs, and a closure that prints would say no less.
fn coverages(
    rt: &impl Print,
    s: &[u8],
    map: &[u8],
    register: Register,
    count: u8,
) -> io::Result<usize>
    ensures { IfOk result (λ used. used ≤ length s.now) }
{
    for number in s.chunks_exact(2).take(usize::from(count)) {
        covered(rt, map, register, u16_at(number, 0))?;
    }
    Ok(s.len().min(2 * usize::from(count)))
}

fn covered(rt: &impl Print, map: &[u8], register: Register, number: u16) -> io::Result<()> {
    print(rt, "coverage", u64::from(number))?;
    match coverage::coverage(map, register, number) {
        Err(fault) => print(rt, " refused", u64::from(u32::from(fault)))?,
        Ok(sums) => {
            print(rt, " mhz-pops", sums.mhz_pops.0)?;
            print(rt, " cells", sums.cells.0)?;
        }
    }
    match coverage::blocks(map, register, number) {
        Err(fault) => print(rt, " refused", u64::from(u32::from(fault))),
        Ok(b) => {
            print(rt, " whole", b.whole)?;
            print(rt, " value", b.value.0)?;
            print(rt, " size", b.size.0)
        }
    }
}

// The proposals with some draws.
fn proposals(
    rt: &impl Print,
    s: &[u8],
    map: &[u8],
    register: Register,
    count: u8,
) -> io::Result<usize>
    ensures { IfOk result (λ used. used ≤ length s.now) }
{
    for bytes in s.chunks_exact(4).take(usize::from(count)) {
        let draw = u32_at(bytes, 0);
        print(rt, "propose", u64::from(draw))?;
        proposed(rt, proposal::propose(map, register, draw))?;
    }
    Ok(s.len().min(4 * usize::from(count)))
}

// Footprints: a map's length and bytes, and the calls.
fn footprint_case(rt: &impl Print, s: &[u8], register: Register) -> io::Result<usize>
    ensures { IfOk result (λ used. used ≤ length s.now) }
{
    let Some(map) = map_in(s) else {
        return Ok(s.len());
    };
    let end = 4 + map.len();
    Ok(end + footprints(rt, &s[end..], map, register)?)
}

// A count of calls, and the calls. One that asks for more than there is to lend ends the block.
fn footprints(rt: &impl Print, s: &[u8], map: &[u8], register: Register) -> io::Result<usize>
    ensures { IfOk result (λ used. used ≤ length s.now) }
{
    if s.is_empty() {
        return Ok(0);
    }
    let count = usize::from(s[0]);
    let calls = &s[1..];
    for call in calls.chunks_exact(10).take(count) {
        if !outlined(rt, call, map, register)? {
            return Ok(s.len());
        }
    }
    Ok(1 + calls.len().min(10 * count))
}

// One call: the draw, the bytes of the mask, the entries of the table, and the entry from which none may change. False where it
// asks for more bytes or entries than there are to lend.
fn outlined(rt: &impl Print, s: &[u8], map: &[u8], register: Register) -> io::Result<bool> {
    let Some(lent) = Lent::at(s, 4) else {
        line(rt, " too long")?;
        return Ok(false);
    };
    let (mut mask, mut table) = (lent.mask, lent.table);
    let mask = &mut mask[..lent.bytes];
    let table = &mut table[..lent.entries];
    let draw = u32_at(s, 0);
    print(rt, "footprint", u64::from(draw))?;
    match footprint::footprint(map, register, draw, mask, table) {
        Ok(number) => print(rt, " area", u64::from(number))?,
        Err(FootprintRefusal::TableShort(needed)) => print(rt, " needed", needed as u64)?,
        Err(refusal) => print(rt, " refused", u64::from(u32::from(refusal)))?,
    }
    show_lent(rt, mask, table, lent.from)?;
    Ok(true)
}

// The mask that a call leaves, a character for each byte, and how many entries of the table from a position on were not written.
fn show_lent(rt: &impl Print, mask: &[u8], table: &[u16], from: usize) -> io::Result<()> {
    print!(rt; " mask ")?;
    for b in mask {
        show_byte(rt, *b)?;
    }
    println!(rt)?;
    print(rt, " unchanged", unchanged(table, from) as u64)
}

fn show_byte(rt: &impl Print, b: u8) -> io::Result<()> {
    match b {
        0 => print!(rt; "0"),
        1 => print!(rt; "1"),
        UNWRITTEN_BYTE => print!(rt; "."),
        _ => print!(rt; "?"),
    }
}

// How many entries from a position on were not written.
fn unchanged(table: &[u16], from: usize) -> usize {
    table[from.min(table.len())..]
        .iter()
        .filter(|entry| **entry == UNWRITTEN_ENTRY)
        .count()
}

// A list of calls: a map's length and bytes, and the list. The register that it leaves takes the place of the one before.
fn list_case(rt: &impl Print, s: &[u8], register: Register) -> io::Result<Played>
    ensures { IfOk result (λ done. done.used ≤ length s.now) }
{
    let Some(map) = map_in(s) else {
        return Ok(Played {
            used: s.len(),
            register,
        });
    };
    let end = 4 + map.len();
    let done = listed(rt, &s[end..], map, register)?;
    Ok(Played {
        used: end + done.used,
        register: done.register,
    })
}

// The bytes of the mask, the entries of the table, the entry from which none may change, the number of words, and the words. The block
// ends, and nothing is played, where words are missing or where it asks for more than there is to lend.
fn listed(rt: &impl Print, s: &[u8], map: &[u8], register: Register) -> io::Result<Played>
    ensures { IfOk result (λ done. done.used ≤ length s.now) }
{
    let block_ends = Played {
        used: s.len(),
        register,
    };
    let count = usize::from(u16_at(s, 6));
    let end = 8 + 4 * count;
    if s.len() < end {
        return Ok(block_ends);
    }
    let words = words_in(&s[8..end]);
    let (Some(lent), Some(words)) = (Lent::at(s, 0), words.get(..count)) else {
        line(rt, " too long")?;
        return Ok(block_ends);
    };
    let register = play_list(rt, map, words, lent)?;
    Ok(Played {
        used: end,
        register,
    })
}

// The words of a list; those past its end are 0, and are not lent.
// Kept as an array: a list of the cases has so many words at most, and a Vec would bring a second way to fail, for want of memory.
fn words_in(s: &[u8]) -> [u32; 1024] {
    let mut words = [0u32; 1024];
    for (word, bytes) in words.iter_mut().zip(s.chunks_exact(4)) {
        *word = u32_at(bytes, 0);
    }
    words
}

// How many calls of a list were made and refused, the mask that they leave, and how much of the table they leave as it was. Gives the
// register after the last of them.
fn play_list(rt: &impl Print, map: &[u8], words: &[u32], lent: Lent) -> io::Result<Register> {
    let (mut mask, mut table) = (lent.mask, lent.table);
    let mask = &mut mask[..lent.bytes];
    let table = &mut table[..lent.entries];
    print(rt, "list", words.len() as u64)?;
    let played = ledger::play(map, words, mask, table);
    print(rt, " calls", played.calls as u64)?;
    print(rt, " refused", played.refused as u64)?;
    show_lent(rt, mask, table, lent.from)?;
    Ok(played.register)
}
