// The C interface: the engine's functions for callers in C and Rust, declared in host/include/codwalet.h and exported by the static library
// `abi_c`. Structs are flat, have no padding and cross by value; maps, masks and tables cross as pointer and length. Refusals are
// document 01's numbers, 0 for none.
#![tactic(auto)]

ghost use Rattle.std.specs.Prelude.{◌≡◌, map as each, length};
ghost use Rattle.map.specs.Format.{read_map};
ghost use Rattle.map.specs.Answers.{number_of};
ghost use Rattle.register.specs.Licences.{full_width, licence_at_width, in_force};
ghost use Rattle.register.specs.Promises.{EmptyDone, GrantStep, CancelStep};
ghost use Rattle.coverage.specs.Answers.{coverage_at, blocks_at};
ghost use Rattle.proposal.specs.Answer.{proposal_on};
ghost use Rattle.proposal.specs.Promises.{area_means};
ghost use Rattle.footprint.specs.Footprint.{footprint_on};
ghost use Rattle.footprint.specs.Promises.{means, needed_by};
ghost use Rattle.abi.specs.Flat.{version, flat_covered, flat_held, flat_given, flat_proposal};
ghost use Rattle.abi.specs.Flat.{outline_means};
ghost use Rattle.abi.specs.Promises.{FoundDone, OutlineDone};

use footprint::FootprintRefusal;
use proposal::{AreaAnswer, Gets};
use register::{FlatLicence, Licence, Register, Step};

// An area of a map: its head, its population, and where its rows stand. All 0 where the map is refused or lacks the number.
// Kept as plain numbers for C: a refusal is 0 for none.
#[repr(C)]
#[derive(Clone, Copy)]
pub struct FoundArea {
    pub refusal: u32,
    pub weight: u32,
    pub rows: u64,
    pub columns: u64,
    pub population: u64,
    pub offset: u64,
    pub length: u64,
}

// The MHz-pops and the cells that licences in force cover in an area.
// Kept as plain numbers for C: a refusal is 0 for none.
#[repr(C)]
#[derive(Clone, Copy)]
pub struct Covered {
    pub mhz_pops: u64,
    pub cells: u64,
    pub refusal: u32,
    pub unused: u32,
}

// The blocks of an area.
// Kept as plain numbers for C: a refusal is 0 for none.
#[repr(C)]
#[derive(Clone, Copy)]
pub struct Held {
    pub whole: u64,
    pub value: u64,
    pub size: u64,
    pub refusal: u32,
    pub unused: u32,
}

// What a proposal gives an area, and its sum of cells. Gets is 0 for nothing, 1 for whole, 2 for rounded up and 3 for a share.
// Kept as plain numbers for C: what an area gets has a number.
#[repr(C)]
#[derive(Clone, Copy)]
pub struct Given {
    pub number: u32,
    pub gets: u32,
    pub blocks: u64,
    pub share: u64,
    pub cells: u64,
}

// A proposal. The map's areas are the first count of areas, and the others are all 0.
// Kept as plain numbers for C: refusal and kind are 0 for none, and 32 areas stand with a count.
#[repr(C)]
#[derive(Clone, Copy)]
pub struct FlatProposal {
    pub refusal: u32,
    pub kind: u32,
    pub tied: u64,
    pub count: u64,
    pub target: u64,
    pub white_space: u64,
    pub areas: [Given; 32],
}

// What a footprint answers: the area's number, and at refusal 8 the count of entries that the table must have.
// Kept as plain numbers for C: a refusal is 0 for none.
#[repr(C)]
#[derive(Clone, Copy)]
pub struct Outline {
    pub refusal: u32,
    pub area: u32,
    pub needed: u64,
}

impl FoundArea {
    // No area.
    const NONE: FoundArea = FoundArea {
        refusal: 0,
        weight: 0,
        rows: 0,
        columns: 0,
        population: 0,
        offset: 0,
        length: 0,
    };
}

impl Covered {
    // What is covered in no area.
    const NONE: Covered = Covered {
        mhz_pops: 0,
        cells: 0,
        refusal: 0,
        unused: 0,
    };
}

impl Held {
    // The blocks of no area.
    const NONE: Held = Held {
        whole: 0,
        value: 0,
        size: 0,
        refusal: 0,
        unused: 0,
    };
}

impl Given {
    // What stands at the entries past the areas of a map.
    const NONE: Given = Given {
        number: 0,
        gets: 0,
        blocks: 0,
        share: 0,
        cells: 0,
    };
}

// What a proposal gives an area, in plain numbers.
impl From<AreaAnswer> for Given {
    ghost from_gives = { λ a g. g ≡ flat_given (area_means a) };

    fn from(a: AreaAnswer) -> Given {
        let (gets, share) = match a.gets {
            Gets::Nothing => (0, 0),
            Gets::Whole => (1, 0),
            Gets::RoundedUp => (2, 0),
            Gets::Share(share) => (3, share.0),
        };
        Given {
            number: u32::from(a.number),
            gets,
            blocks: a.blocks,
            share,
            cells: a.cells.0,
        }
    }
}

impl FlatProposal {
    // The proposal for no area.
    const NONE: FlatProposal = FlatProposal {
        refusal: 0,
        kind: 0,
        tied: 0,
        count: 0,
        target: 0,
        white_space: 0,
        areas: [Given::NONE; 32],
    };
}

// The version of the interface that these functions have: callers compare it with the one that they were written for.
pub fn codwalet_version() -> u32
    ensures { result ≡ version }
{
    3
}

// The register with no licence in force.
pub fn codwalet_empty() -> Register
    ensures { EmptyDone result }
{
    Register::empty()
}

// The register with a licence granted without a width: it counts as 50 MHz.
pub fn codwalet_grant(current: Register, licence: FlatLicence) -> Step
    ensures { GrantStep current (licence_at_width licence full_width) result }
{
    current.grant_step(licence.granted(Licence::FULL_WIDTH))
}

// The register with a licence granted at a width in MHz.
pub fn codwalet_grant_width(current: Register, licence: FlatLicence, width: u32) -> Step
    ensures { GrantStep current (licence_at_width licence width) result }
{
    current.grant_step(licence.granted(width))
}

// The register with a licence cancelled.
pub fn codwalet_cancel(current: Register, call_sign: u32) -> Step
    ensures { CancelStep current call_sign result }
{
    current.cancel_step(call_sign)
}

// Whether a map is accepted: 0, or the number of the refusal.
pub fn codwalet_check_map(map: &[u8]) -> u32
    ensures { result ≡ number_of (read_map map.now) }
{
    map::check(map).map_or_else(u32::from, |()| 0)
}

// The area with a number.
pub fn codwalet_look_up(map: &[u8], number: u16) -> FoundArea
    ensures { FoundDone map.now number result }
{
    match map::look_up(map, number) {
        Err(fault) => FoundArea {
            refusal: u32::from(fault),
            ..FoundArea::NONE
        },
        Ok(None) => FoundArea::NONE,
        Ok(Some(a)) => FoundArea {
            refusal: 0,
            weight: a.weight,
            rows: a.rows as u64,
            columns: a.columns as u64,
            population: a.population.0,
            offset: a.start as u64,
            length: (a.end - a.start) as u64,
        },
    }
}

// The MHz-pops and the cells that licences in force cover in the area with a number.
pub fn codwalet_coverage(map: &[u8], current: Register, number: u16) -> Covered
    ensures { result ≡ flat_covered (coverage_at number (in_force current.places) (read_map map.now)) }
{
    match coverage::coverage(map, current, number) {
        Err(fault) => Covered {
            refusal: u32::from(fault),
            ..Covered::NONE
        },
        Ok(sums) => Covered {
            mhz_pops: sums.mhz_pops.0,
            cells: sums.cells.0,
            ..Covered::NONE
        },
    }
}

// The blocks of the area with a number.
pub fn codwalet_blocks(map: &[u8], current: Register, number: u16) -> Held
    ensures { result ≡ flat_held (blocks_at number (in_force current.places) (read_map map.now)) }
{
    match coverage::blocks(map, current, number) {
        Err(fault) => Held {
            refusal: u32::from(fault),
            ..Held::NONE
        },
        Ok(b) => Held {
            whole: b.whole,
            value: b.value.0,
            size: b.size.0,
            ..Held::NONE
        },
    }
}

// The proposal with a draw among tied areas.
pub fn codwalet_propose(map: &[u8], current: Register, draw: u32) -> FlatProposal
    ensures { result ≡ flat_proposal (proposal_on (read_map map.now) (in_force current.places) draw) }
{
    match proposal::propose(map, current, draw) {
        Err(refusal) => FlatProposal {
            refusal: u32::from(refusal),
            ..FlatProposal::NONE
        },
        Ok(p) => FlatProposal {
            refusal: 0,
            kind: u32::from(p.kind),
            tied: p.tied as u64,
            count: p.count as u64,
            target: p.target.0,
            white_space: p.white_space.0,
            areas: given_to(p.areas),
        },
    }
}

// What a proposal gives each area.
fn given_to(areas: [AreaAnswer; 32]) -> [Given; 32]
    ensures { result ≡ each (λ a. flat_given (area_means a)) areas }
{
    areas.map(Given::from)
}

// The footprint of the partial area of the proposal with a draw.
pub fn codwalet_footprint(
    map: &[u8],
    current: Register,
    draw: u32,
    mask: &mut [u8],
    table: &mut [u16],
) -> Outline
    ensures { OutlineDone
        (footprint_on (read_map map.now) (in_force current.places) draw
        (length mask.old) (length table.old)) result
        mask.old mask.new table.old table.new }
{
    let answer = footprint::footprint(map, current, draw, mask, table);
    outline_of(answer)
}

// The answer of a footprint in numbers.
fn outline_of(answer: Result<u16, FootprintRefusal>) -> Outline
    ensures { outline_means result ≡ means answer }
{
    match answer {
        Ok(number) => Outline {
            refusal: 0,
            area: u32::from(number),
            needed: 0,
        },
        Err(refusal) => Outline {
            refusal: u32::from(refusal),
            area: 0,
            needed: entries_needed(refusal),
        },
    }
}

// The entries that the table must have at refusal 8, 0 at another refusal.
fn entries_needed(refusal: FootprintRefusal) -> u64
    ensures { result ≡ needed_by refusal }
{
    match refusal {
        FootprintRefusal::TableShort(needed) => needed as u64,
        _ => 0,
    }
}
