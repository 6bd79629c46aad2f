// The static library of the C interface, declared in host/include/codwalet.h: each export calls the function of its name in `abi`, with
// the same clauses.
// Kept beside `abi`, whose functions are Rattle's: an export must be `extern "C"`, and no Rattle crate calls one.
#![tactic(auto)]

ghost use Rattle.std.specs.Prelude.{◌≡◌, length};
ghost use Rattle.map.specs.Format.{read_map};
ghost use Rattle.map.specs.Answers.{number_of};
ghost use Rattle.register.specs.Licences.{full_width, licence_at_width, in_force};
ghost use Rattle.register.specs.Promises.{EmptyDone, GrantStep, CancelStep};
ghost use Rattle.coverage.specs.Answers.{coverage_at, blocks_at};
ghost use Rattle.proposal.specs.Answer.{proposal_on};
ghost use Rattle.footprint.specs.Footprint.{footprint_on};
ghost use Rattle.abi.specs.Flat.{version, flat_covered, flat_held, flat_proposal};
ghost use Rattle.abi.specs.Promises.{FoundDone, OutlineDone};

use abi::{Covered, FlatProposal, FoundArea, Held, Outline};
use register::{FlatLicence, Register, Step};

// The version of the interface that these functions have: callers compare it with the one that they were written for.
#[unsafe(no_mangle)]
pub extern "C" fn codwalet_version() -> u32
    ensures { result ≡ version }
{
    abi::codwalet_version()
}

// The register with no licence in force.
#[unsafe(no_mangle)]
pub extern "C" fn codwalet_empty() -> Register
    ensures { EmptyDone result }
{
    abi::codwalet_empty()
}

// The register with a licence granted without a width: it counts as 50 MHz.
#[unsafe(no_mangle)]
pub extern "C" fn codwalet_grant(current: Register, licence: FlatLicence) -> Step
    ensures { GrantStep current (licence_at_width licence full_width) result }
{
    abi::codwalet_grant(current, licence)
}

// The register with a licence granted at a width in MHz.
#[unsafe(no_mangle)]
pub extern "C" fn codwalet_grant_width(current: Register, licence: FlatLicence, width: u32) -> Step
    ensures { GrantStep current (licence_at_width licence width) result }
{
    abi::codwalet_grant_width(current, licence, width)
}

// The register with a licence cancelled.
#[unsafe(no_mangle)]
pub extern "C" fn codwalet_cancel(current: Register, call_sign: u32) -> Step
    ensures { CancelStep current call_sign result }
{
    abi::codwalet_cancel(current, call_sign)
}

// Whether a map is accepted: 0, or the number of the refusal.
#[unsafe(no_mangle)]
pub extern "C" fn codwalet_check_map(map: &[u8]) -> u32
    ensures { result ≡ number_of (read_map map.now) }
{
    abi::codwalet_check_map(map)
}

// The area with a number.
#[unsafe(no_mangle)]
pub extern "C" fn codwalet_look_up(map: &[u8], number: u16) -> FoundArea
    ensures { FoundDone map.now number result }
{
    abi::codwalet_look_up(map, number)
}

// The MHz-pops and the cells that licences in force cover in the area with a number.
#[unsafe(no_mangle)]
pub extern "C" fn codwalet_coverage(map: &[u8], current: Register, number: u16) -> Covered
    ensures { result ≡ flat_covered (coverage_at number (in_force current.places) (read_map map.now)) }
{
    abi::codwalet_coverage(map, current, number)
}

// The blocks of the area with a number.
#[unsafe(no_mangle)]
pub extern "C" fn codwalet_blocks(map: &[u8], current: Register, number: u16) -> Held
    ensures { result ≡ flat_held (blocks_at number (in_force current.places) (read_map map.now)) }
{
    abi::codwalet_blocks(map, current, number)
}

// The proposal with a draw among tied areas.
#[unsafe(no_mangle)]
pub extern "C" fn codwalet_propose(map: &[u8], current: Register, draw: u32) -> FlatProposal
    ensures { result ≡ flat_proposal (proposal_on (read_map map.now) (in_force current.places) draw) }
{
    abi::codwalet_propose(map, current, draw)
}

// The footprint of the partial area of the proposal with a draw.
#[unsafe(no_mangle)]
pub extern "C" fn codwalet_footprint(
    map: &[u8],
    current: Register,
    draw: u32,
    mask: &mut [u8],
    table: &mut [u16],
) -> Outline
    ensures { OutlineDone
        (footprint_on (read_map map.now) (in_force current.places) draw
        (length mask.old) (length table.old)) result
        mask.old mask.new table.old table.new }
{
    abi::codwalet_footprint(map, current, draw, mask, table)
}
