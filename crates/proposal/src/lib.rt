// Document 01, "The proposal": which partial areas a carrier gets whole, and the one that it gets in part. The way in is propose; the
// module parts serves the crates above.
#![tactic(auto)]

pub mod answer;
pub mod parts;

ghost use Rattle.std.specs.Prelude.{◌≡◌};
ghost use Rattle.map.specs.Format.{read_map};
ghost use Rattle.register.specs.Licences.{in_force};
ghost use Rattle.proposal.specs.Answer.{proposal_on};
ghost use Rattle.proposal.specs.Promises.{refusal_number, Answers};
ghost use Rattle.proposal.specs.declared.ProposalRefusal.TheVariants.{Map};

pub use answer::Proposal;
use map::Fault;
use register::Register;
use units::{Cells, Weighted};

// What an area gets: nothing, whole, rounded up, or a share with its amount.
#[derive(Clone, Copy, Debug, PartialEq, Eq)]
pub enum Gets {
    Nothing,
    Whole,
    RoundedUp,
    Share(Weighted),
}

// An area of the map: its number, its whole blocks, its sum of cells (document 02, Paper 1) and what it gets.
#[derive(Clone, Copy, Debug, PartialEq, Eq)]
pub struct AreaAnswer {
    pub number: u16,
    pub blocks: u64,
    pub cells: Cells,
    pub gets: Gets,
}

// Why there is no proposal (document 01, "Proposal: 1 to 5, 12").
#[derive(Clone, Copy, Debug, PartialEq, Eq)]
pub enum ProposalRefusal {
    // 1 to 5: the map is refused.
    Map(Fault),
    // 12: more than 20 partial areas.
    TooMany,
}

impl AreaAnswer {
    // What stands at the entries past the areas of a map.
    const NONE: AreaAnswer = AreaAnswer {
        number: 0,
        blocks: 0,
        cells: Cells(0),
        gets: Gets::Nothing,
    };
}

impl From<Fault> for ProposalRefusal {
    ghost from_gives = { λ f r. r ≡ Map f };

    fn from(fault: Fault) -> ProposalRefusal {
        Self::Map(fault)
    }
}

// Document 01's number of the refusal.
impl From<ProposalRefusal> for u32 {
    ghost from_gives = { λ r n. n ≡ refusal_number r };

    fn from(refusal: ProposalRefusal) -> u32 {
        match refusal {
            ProposalRefusal::Map(f) => u32::from(f),
            ProposalRefusal::TooMany => 12,
        }
    }
}

// The proposal for a map and the licences in force, with a draw among tied areas.
pub fn propose(map: &[u8], register: Register, draw: u32) -> Result<Proposal, ProposalRefusal>
    ensures { Answers (proposal_on (read_map map.now) (in_force register.places) draw) result }
{
    let held = coverage::parts::holdings_in(map, register)?;
    parts::propose_from(held.areas(), draw)
}
