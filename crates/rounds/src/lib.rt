// Document 01, "The footprint": the footprint of a partial area, made in the mask that shows the set F. It serves the crate above.
#![tactic(auto)]

ghost use Rattle.std.specs.Prelude.{◌≡◌, true, cond, ℕ, ◌+◌, ◌-◌, ◌*◌, ◌/◌, ◌≤◌, ◌<◌, eqb, length, get_or};
ghost use Rattle.lists.specs.Sums.{flag};
ghost use Rattle.ring.specs.Ring.{shown, fits};
ghost use Rattle.rounds.specs.Footprint.{in_share, growing};
ghost use Rattle.rounds.specs.Promises.{part_of, in_limits, MakeDone};
ghost use Rattle.rounds.specs.Code.{sizes_fit, Limited, Within, Countable, people_with, RoundDone, RoundsDone, Finished};

use ring::Grid;
use units::{Amount, People, Weighted};

// A partial area: what stands at each place of its grid, a byte that is 1 for a cell and a count of people, and the weight of its cells.
#[derive(Clone, Copy)]
pub struct Area<'a> {
    pub cells: &'a [u8],
    pub people: &'a [u32],
    pub grid: Grid,
    pub weight: u32,
}

// Why no footprint is made.
#[derive(Clone, Copy, Debug, PartialEq, Eq)]
pub enum MakeRefusal {
    // 8: the table is too short, and this is the count of entries needed.
    TableShort(usize),
    // The area or the share is outside the limits of a map and a proposal.
    Outside,
}

// A course of rounds in an area within the limits, towards a share: the set grows, or it shrinks.
// Kept as a test: document 01 compares V with the share, its definitions take the outcome, and an enum would be turned back into it there.
#[derive(Clone, Copy)]
struct Course<'a> {
    area: Area<'a>,
    share: Weighted,
    grow: bool,
    ghost within: { Limited area.grid.rows area.grid.columns area.weight share.0 area.cells.now area.people.now },
}

// What a round comes to.
#[derive(Clone, Copy)]
enum Reached {
    // It is made; these are the people of the next set.
    Next(People),
    // Its ring is the last ring; these are the people of the outer set.
    LastRing(People),
    // V equals the share.
    Share,
}

// Makes the footprint for a share, from the set F that the mask shows: 1 in the footprint, else 0, and bytes past the area stay. If the
// table is too short the area's bytes are 0 and the count of entries needed comes. Outside the limits nothing is touched.
pub fn make(
    mask: &mut [u8],
    area: Area<'_>,
    share: Weighted,
    table: &mut [u16],
) -> Result<(), MakeRefusal>
    ensures { MakeDone (part_of area.entry) share.0 result
        mask.old mask.new area.entry.cells.now area.entry.people.now table.old table.new }
{
    if !area.allows(mask, share) {
        return Err(MakeRefusal::Outside);
    }
    let start = area.people_of(mask, 1);
    let v = area.value(start);
    let grow = v < share;
    let course = Course { area, share, grow };
    match course.rounds(mask, start) {
        None => Ok(()),
        Some(outer) => course.finish(mask, course.slack(outer), table),
    }
}

impl Area<'_> {
    // The sizes of the grid are within the limits, and what is lent has an element for each place.
    #[tactic(auto, unfolding(crate::specs::Code::sizes_fit))]
    fn sizes_fit(self, mask: usize) -> bool
        ensures { result ≡ sizes_fit self.entry.grid.rows self.entry.grid.columns mask (length self.entry.cells.now) (length self.entry.people.now) }
    {
        self.grid.fits(mask)
            && self.grid.fits(self.cells.len())
            && self.grid.rows * self.grid.columns <= self.people.len()
            && self.grid.rows * self.grid.columns <= 65535
    }

    // The area, the mask and the share are within the limits.
    #[tactic(auto, unfolding(crate::specs::Promises::in_limits, crate::specs::Code::sizes_fit, crate::specs::Code::some_above))]
    fn allows(self, mask: &[u8], share: Weighted) -> bool
        ensures { result
            ≡ in_limits (part_of self.entry) share.0
            mask.now self.entry.cells.now self.entry.people.now }
    {
        if !self.sizes_fit(mask.len()) || self.weight < 1 || 65535 < self.weight {
            return false;
        }
        let n = self.grid.rows * self.grid.columns;
        let marked = mask[..n].iter().any(|b| 1 < *b);
        if marked {
            return false;
        }
        let crowded = self.people[..n].iter().any(|people| 1000000 < *people);
        if crowded {
            return false;
        }
        0 < share.0 && share < self.value(self.people_of(self.cells, 1))
    }

    // The people of the places whose byte is the one given. The people of a place are read whatever its byte, so that several are added at
    // once: over 193 rings a zip that adds where the byte is right took a tenth longer.
    fn people_of(self, bytes: &[u8], byte: u8) -> People
        requires { Countable bytes.now self.people.now (self.grid.rows * self.grid.columns) }
        ensures { result.0 ≡ people_with bytes.now self.entry.people.now (self.entry.grid.rows * self.entry.grid.columns) byte }
    {
        let mut sum = 0;
        for i in 0..self.grid.rows * self.grid.columns {
            let people = u64::from(self.people[i]);
            sum += if bytes[i] == byte { people } else { 0 };
        }
        People(sum)
    }

    // "V of a set is 100 × weight × its people".
    // Kept as a clause, here, in next_people, slack and finish: People is a unit of any count, and a type for an area's would need its own sums.
    fn value(self, people: People) -> Weighted
        requires { (people.0 ≤ 65535 * 1000000) × (self.weight ≤ 65535) }
        ensures { result.0 ≡ 100 * self.entry.weight * people.0 }
    {
        people.weighted(100, self.weight)
    }
}

impl Course<'_> {
    // Rounds until one is not made: the people of the outer set, if there is a last ring. Each round changes a place, so they end.
    fn rounds(self, mask: &mut [u8], start: People) -> Option<People>
        requires within { Within self.area.grid.rows self.area.grid.columns self.area.weight self.share.0
            mask.old self.area.cells.now self.area.people.now }
        requires start_value { start.0 ≡ people_with mask.old self.area.people.now (self.area.grid.rows * self.area.grid.columns) 1 }
        requires grow_value { self.grow
            ≡ growing (part_of self.area)
            self.share.0 (shown mask.old) }
        ensures { RoundsDone (part_of self.entry.area) self.entry.share.0 result mask.old mask.new }
    {
        let mut sum = start;
        // Kept as a loop: how many rounds there are shows in their data alone.
        loop {
            match self.round(mask, sum) {
                Reached::Next(people) => sum = people,
                Reached::LastRing(outer) => return Some(outer),
                Reached::Share => return None,
            }
        }
    }

    // One round. The people of the set are known; those of its ring are counted.
    fn round(self, mask: &mut [u8], sum: People) -> Reached
        requires within { Within self.area.grid.rows self.area.grid.columns self.area.weight self.share.0
            mask.old self.area.cells.now self.area.people.now }
        requires sum_value { sum.0 ≡ people_with mask.old self.area.people.now (self.area.grid.rows * self.area.grid.columns) 1 }
        ensures { RoundDone (part_of self.entry.area) self.entry.share.0 self.entry.grow result mask.old mask.new }
    {
        let v = self.area.value(sum);
        if v == self.share {
            return Reached::Share;
        }
        ring::form(mask, self.area.cells, self.area.grid, self.grow);
        let ring = self.area.people_of(mask, 2);
        let next = self.next_people(sum, ring);
        if !self.in_share(self.area.value(next)) {
            // "the outer set is F and B when growing, F when shrinking"
            return Reached::LastRing(if self.grow { next } else { sum });
        }
        ring::settle(mask, self.area.grid, u8::from(self.grow));
        Reached::Next(next)
    }

    // "While V(F and B) ≤ share" growing, "While V(F without B) ≥ share" shrinking.
    fn in_share(self, v: Weighted) -> bool
        ensures { result ≡ in_share self.entry.grow v.0 self.entry.share.0 }
    {
        if self.grow {
            v <= self.share
        } else {
            self.share <= v
        }
    }

    // The people of the next set: "B joins F" growing, "B leaves F" shrinking.
    fn next_people(self, sum: People, ring: People) -> People
        requires { (sum.0 ≤ 65535 * 1000000) × (ring.0 ≤ 65535 * 1000000) }
        ensures { result.0 ≡ cond self.entry.grow (sum.0 + ring.0) (sum.0 - ring.0) }
    {
        if self.grow {
            sum.plus(ring)
        } else {
            sum.minus(ring)
        }
    }

    // "The slack is (V(outer) - share) / (100 × weight), rounded down": so many people may be left out.
    fn slack(self, outer: People) -> usize
        requires { (outer.0 ≤ 65535 * 1000000) × (self.share.0 ≤ 100 * self.area.weight * outer.0) }
        ensures { (result ≡ (100 * self.entry.area.weight * outer.0 - self.entry.share.0) / (100 * self.entry.area.weight))
            × (result ≤ 65535 * 1000000) }
    {
        let v = self.area.value(outer);
        let unit = 100 * u64::from(self.area.weight);
        ((v.0 - self.share.0) / unit) as usize
    }

    // After the last ring is marked: 8 if the table is too short; else the choice is made, and the rest of the marks join the footprint.
    fn finish(self, mask: &mut [u8], slack: usize, table: &mut [u16]) -> Result<(), MakeRefusal>
        requires masked { fits self.area.grid.rows self.area.grid.columns (length mask.old) ≡ true }
        requires marked { (i : ℕ) → i < self.area.grid.rows * self.area.grid.columns → get_or mask.old i 0 ≤ 2 }
        requires few { slack ≤ 65535 * 1000000 }
        ensures { Finished self.entry.area.people.now (self.entry.area.grid.rows * self.entry.area.grid.columns) slack result
            mask.old mask.new table.old table.new }
    {
        if table.len() < slack + 1 {
            ring::wipe(mask, self.area.grid);
            return Err(MakeRefusal::TableShort(slack + 1));
        }
        let n = self.area.grid.rows * self.area.grid.columns;
        subset::leave_out(mask, self.area.people, n, slack, table);
        ring::settle(mask, self.area.grid, 1);
        Ok(())
    }
}
