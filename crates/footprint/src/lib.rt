// Document 01, "The footprint": the cells that a carrier keeps of the one area that it holds in part. The way in is footprint.
#![tactic(auto)]

ghost use Rattle.std.specs.Prelude.{◌≡◌, map as each, length, take};
ghost use Rattle.map.specs.Format.{read_map};
ghost use Rattle.register.specs.Licences.{in_force};
ghost use Rattle.proposal.specs.Promises.{area_means};
ghost use Rattle.footprint.specs.declared.FootprintRefusal.TheVariants.{Map};
ghost use Rattle.footprint.specs.Footprint.{footprint_on};
ghost use Rattle.footprint.specs.Promises.{FootprintDone, refusal_number};
ghost use Rattle.footprint.specs.Code.{refused_proposal, refused_rounds, shared_from, shared_means, place_within, part_by, Readable, Outlines};

use map::{Area, Fault};
use proposal::{AreaAnswer, Gets, Proposal, ProposalRefusal};
use register::Register;
use ring::Grid;
use rounds::MakeRefusal;
use search::Kind;
use units::Weighted;

// Why there is no footprint.
#[derive(Clone, Copy, Debug, PartialEq, Eq)]
pub enum FootprintRefusal {
    // 1 to 5: the map is refused.
    Map(Fault),
    // 12: more than 20 partial areas.
    TooMany,
    // 13: the proposal isn't kind 3.
    NotOnePart,
    // 7: the mask is shorter than rows × columns.
    MaskShort,
    // 8: the table is too short, and this is the count of entries needed.
    TableShort(usize),
}

impl From<Fault> for FootprintRefusal {
    ghost from_gives = { λ f r. r ≡ Map f };

    fn from(f: Fault) -> FootprintRefusal {
        FootprintRefusal::Map(f)
    }
}

impl From<ProposalRefusal> for FootprintRefusal {
    ghost from_gives = { λ p r. r ≡ refused_proposal p };

    fn from(p: ProposalRefusal) -> FootprintRefusal {
        match p {
            ProposalRefusal::Map(f) => FootprintRefusal::Map(f),
            ProposalRefusal::TooMany => FootprintRefusal::TooMany,
        }
    }
}

// The rounds refuse what is outside the limits of a map and a proposal; the share of a proposal of kind 3 is within them.
impl From<MakeRefusal> for FootprintRefusal {
    ghost from_gives = { λ m r. r ≡ refused_rounds m };

    fn from(m: MakeRefusal) -> FootprintRefusal {
        match m {
            MakeRefusal::TableShort(needed) => FootprintRefusal::TableShort(needed),
            MakeRefusal::Outside => FootprintRefusal::NotOnePart,
        }
    }
}

// Document 01's number of the refusal.
impl From<FootprintRefusal> for u32 {
    ghost from_gives = { λ r n. n ≡ refusal_number r };

    fn from(r: FootprintRefusal) -> u32 {
        match r {
            FootprintRefusal::Map(f) => u32::from(f),
            FootprintRefusal::TooMany => 12,
            FootprintRefusal::NotOnePart => 13,
            FootprintRefusal::MaskShort => 7,
            FootprintRefusal::TableShort(_) => 8,
        }
    }
}

// The place of the area that gets a share among the areas of the map, and the share.
fn share_in(areas: &[AreaAnswer]) -> Option<(usize, Weighted)>
    ensures { (shared_means result ≡ shared_from 0 (each area_means areas.now)) × place_within (length areas.now) result }
{
    for (i, a) in areas.iter().enumerate() {
        if let Gets::Share(share) = a.gets {
            return Some((i, share));
        }
    }
    None
}

// The partial area of a proposal, by where its rows stand, and its share: stands are the areas of the map, at the same places as the
// proposal's.
// Kept as an array: it has an entry at each place of a proposal, by type, where of a slice that would be a clause.
fn partial_area(p: &Proposal, stands: &[Area; 32]) -> Result<(Area, Weighted), FootprintRefusal>
    ensures { result ≡ part_by stands.now p.now.kind (shared_from 0 (each area_means (take p.now.count p.now.areas))) }
{
    match p.kind {
        Kind::Exact | Kind::RoundedUp => Err(FootprintRefusal::NotOnePart),
        Kind::OnePart => match share_in(p.areas()) {
            Some((i, share)) => Ok((stands[i], share)),
            None => Err(FootprintRefusal::NotOnePart),
        },
    }
}

// The footprint of an area for a share: its cells are laid out by place, the covered ones in the mask, and the rounds start from them.
fn outline(
    map: &[u8],
    register: Register,
    a: Area,
    share: Weighted,
    mask: &mut [u8],
    table: &mut [u16],
) -> Result<u16, FootprintRefusal>
    requires { Readable map.now a }
    ensures { Outlines map.now (in_force register.places) a share.0 result
        (record { mask = mask.old; after = mask.new; table = table.old; entries = table.new }) }
{
    if mask.len() < a.rows * a.columns {
        return Err(FootprintRefusal::MaskShort);
    }
    let always = register.naming(a.number);
    let boxes = register.boxes();
    // Kept as arrays for the largest area: there is no heap.
    let mut people = [0u32; 16384];
    let mut cells = [0u8; 16384];
    places::lay_out(
        map,
        &a,
        always.licences,
        &boxes,
        &mut people,
        &mut cells,
        mask,
    );
    let grid = Grid {
        rows: a.rows,
        columns: a.columns,
    };
    let places = rounds::Area {
        cells: &cells,
        people: &people,
        grid,
        weight: a.weight,
    };
    rounds::make(mask, places, share, table)?;
    Ok(a.number)
}

// The footprint of the partial area of the proposal with a draw, for a map and the licences in force: the number of that area. The mask
// gets a byte for each place of the area, 1 in the footprint; the table is working store. The map is read once, and then the rows of that
// area once more.
// Kept as parameters, here and in what is below: callers in C lend the map, the mask and the table and pass the register, each by itself.
pub fn footprint(
    map: &[u8],
    register: Register,
    draw: u32,
    mask: &mut [u8],
    table: &mut [u16],
) -> Result<u16, FootprintRefusal>
    ensures { FootprintDone
        (footprint_on (read_map map.now) (in_force register.places) draw
        (length mask.old) (length table.old)) result
        mask.old mask.new table.old table.new }
{
    let held = coverage::parts::holdings_in(map, register)?;
    let p = proposal::parts::propose_from(held.areas(), draw)?;
    let (a, share) = partial_area(&p, &held.stands)?;
    outline(map, register, a, share, mask, table)
}
