// What is under propose: the proposal for areas with their c, which the crates above make too. No way in for users.
ghost use Rattle.std.specs.Prelude.{◌≡◌, cond, ◌-◌, ◌≤◌, length};
ghost use Rattle.search.specs.Choice.{cap};
ghost use Rattle.search.specs.Proposal.{kind_number, sizes};
ghost use Rattle.proposal.specs.Answer.{gets_by, gets_nothing, proposal};
ghost use Rattle.proposal.specs.Promises.{gets_means, Answers};
ghost use Rattle.proposal.specs.Code.{Bounded, Gathered, mark_of, Settled};

use super::{AreaAnswer, Gets, Proposal, ProposalRefusal};
use coverage::Holding;
use search::{Kind, Partial};
use units::{Amount, Weighted};

// The partial areas, which are the first count of areas, and the sum of their values.
// Kept as an array with a count, as in a proposal: the engine has no heap to collect them on.
#[derive(Clone, Copy)]
pub struct Partials {
    pub count: usize,
    pub target: Weighted,
    pub areas: [Partial; 32],
}

// The share of the partial area at an entry, or 0 if there is none.
fn share_at(partials: &[Partial], entry: usize, white: Weighted) -> Weighted
    requires { (entry ≤ length partials.now) × (white.0 ≤ cap (sizes partials.now) entry) }
    ensures { result.0 ≡ cap (sizes partials.now) entry - white.0 }
{
    if entry == 0 {
        Weighted(0)
    } else {
        partials[entry - 1].size.minus(white)
    }
}

// What a partial area gets, by the entry and the set number that are left: it is the one in part at entry 1, and whole at an odd number.
#[tactic(auto, unfolding(crate::specs::Answer::gets_by, crate::specs::Code::mark_of))]
fn gets_at(kind: Kind, share: Weighted, entry: usize, number: u32) -> Gets
    ensures { gets_means result ≡ gets_by (kind_number kind) share.0 (mark_of entry number) }
{
    if entry == 1 {
        match kind {
            Kind::RoundedUp => Gets::RoundedUp,
            Kind::Exact | Kind::OnePart => Gets::Share(share),
        }
    } else if number % 2 == 1 {
        Gets::Whole
    } else {
        Gets::Nothing
    }
}

// What is read of the partial areas, one area a turn.
// Kept as a clause, here, in `settle` and in `propose_from`: a slice has no fact of its own, and a struct around it would be made in two crates.
fn gather(areas: &[Holding]) -> Partials
    requires { Bounded areas.now }
    ensures { Gathered areas.now result }
{
    let mut partials = [Partial {
        size: Weighted(0),
        weight: 0,
    }; 32];
    let mut n: usize = 0;
    let mut target = Weighted(0);
    for a in areas {
        let b = a.blocks();
        if 0 < b.size.0 {
            partials[n] = Partial {
                size: b.size,
                weight: u64::from(a.weight),
            };
            target = target.plus(b.value);
            n += 1;
        }
    }
    Partials {
        count: n,
        target,
        areas: partials,
    }
}

// What each area is given, one area a turn, and its sum of cells. The entry and the set number that the search found are used up from
// their first place.
// Kept as an array, the one that a proposal holds: there is no heap to collect the areas on.
fn settle(
    areas: &[Holding],
    kind: Kind,
    share: Weighted,
    entry: usize,
    number: u32,
) -> [AreaAnswer; 32]
    requires { Bounded areas.now }
    ensures { Settled areas.now (kind_number kind) share.0 entry number result }
{
    let mut given = [AreaAnswer::NONE; 32];
    let mut e = entry;
    let mut s = number;
    for (i, a) in areas.iter().enumerate() {
        let b = a.blocks();
        let mut gets = Gets::Nothing;
        if 0 < b.size.0 {
            gets = gets_at(kind, share, e, s);
            e = e.saturating_sub(1);
            s /= 2;
        }
        given[i] = AreaAnswer {
            number: a.number,
            blocks: b.whole,
            cells: a.cells,
            gets,
        };
    }
    given
}

// The proposal for the areas of a map, each with its c and its sum of cells.
pub fn propose_from(areas: &[Holding], draw: u32) -> Result<Proposal, ProposalRefusal>
    requires { Bounded areas.now }
    ensures { Answers (proposal areas.now draw) result }
{
    let gathered = gather(areas);
    let n = gathered.count;
    if 20 < n {
        return Err(ProposalRefusal::TooMany);
    }
    let partials = &gathered.areas[..n];
    let target = gathered.target;
    let found = search::propose(partials, target, draw).unwrap();
    let share = share_at(partials, found.entry, found.white);
    let given = settle(areas, found.kind, share, found.entry, found.number);
    Ok(Proposal {
        kind: found.kind,
        target,
        white_space: found.white,
        tied: found.tied,
        count: areas.len(),
        areas: given,
    })
}
