// What the programs holdings and kept_holdings both do with a file of cases: words, maps, grounds and licences that are read from its
// bytes, and the lines that are printed.
#![tactic(auto)]

ghost use Rattle.std.specs.Prelude.{◌≡◌, ◌≤◌, ◌+◌, IfOk, IfSome, option_map, get_or, length};
ghost use Rattle.cases.specs.Cases.{u16_in, u32_in, i32_in, map_in, ground_in, licence_in, next_of};

use map::fields;
use proposal::{AreaAnswer, Gets, Proposal, ProposalRefusal};
use register::{GeoBox, Ground, Licence, Register};
use std::io;

// How many bytes a case took, and the register that it leaves.
#[derive(Clone, Copy)]
pub struct Played {
    pub used: usize,
    pub register: Register,
}

// The byte at a position, 0 past the end.
pub fn byte_at(s: &[u8], at: usize) -> u8
    ensures { result ≡ get_or s.now at 0 }
{
    s.get(at).copied().unwrap_or(0)
}

// The u16 at a position, 0 past the end.
// Kept beside u32_at: they differ in size, limit and type, and a function generic in three would be no plainer.
pub fn u16_at(s: &[u8], at: usize) -> u16
    ensures { result ≡ u16_in s.now at }
{
    match fields::field::<2>(s, at, 0, 65535) {
        Ok((v, _)) => v as u16,
        Err(_) => 0,
    }
}

// The u32 at a position, 0 past the end.
pub fn u32_at(s: &[u8], at: usize) -> u32
    ensures { result ≡ u32_in s.now at }
{
    match fields::field::<4>(s, at, 0, u32::MAX) {
        Ok((v, _)) => v,
        Err(_) => 0,
    }
}

// The i32 at a position, 0 past the end.
#[tactic(auto, using(map::proofs::SignedLaws::signed_is))]
fn i32_at(s: &[u8], at: usize) -> i32
    ensures { result ≡ i32_in s.now at }
{
    u32_at(s, at).cast_signed()
}

// The map whose length and bytes stand first: its bytes start at 4. None where it isn't there whole.
pub fn map_in(s: &[u8]) -> Option<&[u8]>
    ensures value { option_map (λ map. map.now) result ≡ map_in s.now }
    ensures room { IfSome result (λ map. 4 + length map.now ≤ length s.now) }
{
    let size = u32_at(s, 0) as usize;
    s.get(4..4 + size)
}

// The ground of a grant, from its sixth byte on: 0 and an area's number, or else the four edges of a box.
pub fn ground_at(s: &[u8]) -> Ground
    ensures { result ≡ ground_in s.now }
{
    if byte_at(s, 5) == 0 {
        return Ground::Area(u16_at(s, 6));
    }
    Ground::Box(GeoBox {
        south: i32_at(s, 8),
        north: i32_at(s, 12),
        west: i32_at(s, 16),
        east: i32_at(s, 20),
    })
}

// The licence of a grant: the call sign, the ground, and the width where the letter isn't G.
pub fn licence_at(s: &[u8]) -> Licence
    ensures { result ≡ licence_in s.now }
{
    let licence = Licence::full(u32_at(s, 1), ground_at(s));
    if byte_at(s, 0) == b'G' {
        return licence;
    }
    Licence {
        width: u32_at(s, 24),
        ..licence
    }
}

// Prints what a call is and the number of its refusal, 0 for none, and gives what the caller goes on with.
pub fn answered<T: Copy, E: Into<u32>>(
    rt: &impl Print,
    call: &str,
    before: T,
    answer: Result<T, E>,
) -> io::Result<T>
    ensures { IfOk result (λ next. next ≡ next_of before answer) }
{
    match answer {
        Ok(next) => {
            print(rt, call, 0)?;
            Ok(next)
        }
        Err(refusal) => {
            print(rt, call, u64::from(refusal.into()))?;
            Ok(before)
        }
    }
}

// Prints a proposal, or why there is none.
pub fn proposed(rt: &impl Print, answer: Result<Proposal, ProposalRefusal>) -> io::Result<()> {
    match answer {
        Err(refusal) => print(rt, " refused", u64::from(u32::from(refusal))),
        Ok(p) => {
            print(rt, " kind", u64::from(u32::from(p.kind)))?;
            print(rt, " target", p.target.0)?;
            print(rt, " white", p.white_space.0)?;
            print(rt, " tied", p.tied as u64)?;
            for a in p.areas() {
                given(rt, *a)?;
            }
            Ok(())
        }
    }
}

// What an area is given.
// Kept as lines of these programs, which print numbers: a Display of `Gets` in the engine would be words that nothing else there prints.
fn given(rt: &impl Print, a: AreaAnswer) -> io::Result<()> {
    print(rt, " area", u64::from(a.number))?;
    print(rt, "  blocks", a.blocks)?;
    print(rt, "  cells", a.cells.0)?;
    match a.gets {
        Gets::Nothing => line(rt, "  nothing"),
        Gets::Whole => line(rt, "  whole"),
        Gets::RoundedUp => line(rt, "  rounded up"),
        Gets::Share(amount) => print(rt, "  share", amount.0),
    }
}

// A line.
pub fn line(rt: &impl Print, text: &str) -> io::Result<()> {
    println!(rt; "{text}")
}

// A line that ends in a number.
pub fn print(rt: &impl Print, text: &str, n: u64) -> io::Result<()> {
    println!(rt; "{text} {n}")
}
