// Document 01, "The proposal": the search over all choices, and the answer that its table gives. It serves the crate proposal and is
// no way in for users.
// Partial areas come as a slice, ascending, with their sizes M in weighted MHz-pops. Amounts between those are plain u64: no other unit
// enters this crate.
// The search keeps an entry for each partial area, and entry 0 for exact choices: the least white space, and at that white space
// the smallest set number. With one partial area rank goes by white space alone, so the rest is decided on the entries afterwards.
#![tactic(auto)]

ghost use Rattle.std.specs.Prelude.{◌≡◌, true, cond, ◌+◌, ◌≤◌, ◌<◌, length, Some, None};
ghost use Rattle.search.specs.Search.{kept_of, whites, lesser, leaf_held, within_held, searched, Room, Ready};
ghost use Rattle.search.specs.Choice.{rank_of, ahead, largest_size, largest_weight};
ghost use Rattle.search.specs.Proposal.{sizes, weights, kind_number, start, present, rank_at, rank_held, clear, best_at, tied_to, pick};
ghost use Rattle.search.specs.Proposal.{kind_at, answer_at, propose, Small, Limits, in_limits};

use units::Weighted;

// A partial area: its size M and its weight.
#[derive(Clone, Copy)]
pub struct Partial {
    pub size: Weighted,
    pub weight: u64,
}

// "kind (1 exact, 2 rounded up, 3 one part)".
#[derive(Clone, Copy, Debug, PartialEq, Eq)]
pub enum Kind {
    Exact = 1,
    RoundedUp = 2,
    OnePart = 3,
}

impl From<Kind> for u32 {
    ghost from_gives = { λ k n. n ≡ kind_number k };

    fn from(kind: Kind) -> u32 {
        kind as u32
    }
}

// How a choice ranks: whether it is far from all-whole; its white space; the weight of its partial area.
#[derive(Clone, Copy)]
pub struct Rank {
    pub far: bool,
    pub white: u64,
    pub weight: u64,
}

// What an entry of the table holds: the least white space, then the smallest set number.
// Kept without an Option: an entry starts with as much white space as no allowed choice has, where None would come first in the order.
#[derive(Clone, Copy, Debug, PartialEq, Eq, PartialOrd, Ord)]
pub struct Held {
    pub white: u64,
    pub set: u32,
}

// The rank of a choice by its partial area's size, its white space and that area's weight.
fn rank_of(size: u64, white: u64, weight: u64) -> Rank
    requires { (size ≤ largest_size) × (white ≤ size) }
    ensures { result ≡ rank_of size white weight }
{
    Rank {
        far: 10 * (size - white) < 9 * size,
        white,
        weight,
    }
}

// Whether a ranks ahead of b. White-space people are compared as fractions, by their products across.
// Kept: the order is written out and not derived, as ranks that tie need not be equal.
fn ahead(a: Rank, b: Rank) -> bool
    requires { Small a × Small b }
    ensures { result ≡ ahead a b }
{
    if a.far != b.far {
        return b.far;
    }
    if a.white < b.white {
        return true;
    }
    if b.white < a.white {
        return false;
    }
    a.white * b.weight < b.white * a.weight
}

// An allowed choice: its entry holds the lesser of what it held and this one.
fn keep(white: u64, set: u32, held: &mut Held)
    ensures { held.new ≡ lesser (record { white = white; set = set }) held.old }
{
    let choice = Held { white, set };
    if choice < *held {
        *held = choice;
    }
}

// A complete choice whose partial area has the size `cap`, and which leaves the shortfall `left`: kept if it is allowed.
fn leaf(left: u64, set: u32, cap: u64, held: &mut Held)
    ensures { held.new ≡ leaf_held left set cap held.old }
{
    if 0 < left && left < cap {
        keep(cap - left, set, held);
    }
}

// Every choice of the remaining areas, left out or whole, where the partial area is chosen and its entry lent.
// The last area is decided one level up, which saves half of the calls.
// Kept: `left`, `set` and `bit` stand apart, here and in `visit`; as one struct they cost a fourth more time (20 areas: 58 ms, not 45).
fn within(rest: &[Partial], left: u64, set: u32, bit: u32, cap: u64, held: &mut Held)
    requires { Room (length rest.now) set bit }
    ensures { held.new ≡ within_held (sizes rest.now) left set bit cap held.old }
{
    match rest {
        [] => leaf(left, set, cap, held),
        [last] => {
            leaf(left, set, cap, held);
            if last.size.0 <= left {
                leaf(left - last.size.0, set + bit, cap, held);
            }
        }
        [first, more @ ..] => {
            within(more, left, set, bit * 2, cap, held);
            if first.size.0 <= left {
                within(more, left - first.size.0, set + bit, bit * 2, cap, held);
            }
        }
    }
}

// Every choice of the areas from `at` on, where no area before is partial: the area at `at` is left out, whole if it fits, or partial.
fn visit(partials: &[Partial], at: usize, left: u64, set: u32, bit: u32, table: &mut [Held])
    requires { Ready (length partials.now) at 0 set bit (length table.old) }
    ensures { kept_of table.new ≡ searched (sizes partials.now) at left 0 set bit (kept_of table.old) }
{
    if at == partials.len() {
        if left == 0 {
            keep(0, set, &mut table[0]);
        }
    } else {
        let m = partials[at].size.0;
        let next = at + 1;
        let double = bit * 2;
        visit(partials, next, left, set, double, table);
        if m <= left {
            visit(partials, next, left - m, set + bit, double, table);
        }
        within(&partials[next..], left, set, double, m, &mut table[next]);
    }
}

// The partial areas and the table after the search: an entry for each area and one more.
#[derive(Clone, Copy)]
struct Searched<'a> {
    partials: &'a [Partial],
    table: &'a [Held],
    ghost limits: { Limits (sizes partials.now) (weights partials.now) },
    ghost entries: { length table.now ≡ length partials.now + 1 },
}

impl Searched<'_> {
    // The rank of the choice that an entry holds, if it holds one.
    fn rank_at(&self, t: usize) -> Option<Rank>
        ensures { result ≡ rank_held (sizes self.now.partials.now) (weights self.now.partials.now) (whites self.now.table.now) t }
    {
        let white = self.table.get(t)?.white;
        if t == 0 {
            return if white < 1 {
                Some(rank_of(0, white, 1))
            } else {
                None
            };
        }
        let area = self.partials[t - 1];
        if white < area.size.0 {
            Some(rank_of(area.size.0, white, area.weight))
        } else {
            None
        }
    }

    // Whether no entry that holds a choice ranks ahead of r.
    fn clear(&self, r: Rank) -> bool
        requires { Small r }
        ensures { result ≡ clear (sizes self.now.partials.now) (weights self.now.partials.now) (whites self.now.table.now) r
            (length self.now.partials.now + 1) }
    {
        for i in 0..self.table.len() {
            if let Some(q) = self.rank_at(i) {
                if ahead(q, r) {
                    return false;
                }
            }
        }
        true
    }

    // Whether an entry is that of a best-ranked choice.
    fn best_at(&self, t: usize) -> bool
        ensures { result ≡ best_at (sizes self.now.partials.now) (weights self.now.partials.now) (whites self.now.table.now) t }
    {
        match self.rank_at(t) {
            Some(r) => self.clear(r),
            None => false,
        }
    }

    // How many areas are tied.
    fn tied(&self) -> usize
        ensures { result ≡ length (tied_to (sizes self.now.partials.now) (weights self.now.partials.now) (whites self.now.table.now)
            (length self.now.partials.now)) }
    {
        (1..self.table.len()).filter(|t| self.best_at(*t)).count()
    }

    // The entry of the answer: of the tied areas, ascending, the one at place draw mod tied, or 0 if there are none.
    fn pick(&self, tied: usize, draw: u32) -> usize
        requires { tied ≡ length (tied_to (sizes self.now.partials.now) (weights self.now.partials.now) (whites self.now.table.now)
            (length self.now.partials.now)) }
        ensures { result ≡ pick (tied_to (sizes self.now.partials.now) (weights self.now.partials.now) (whites self.now.table.now)
            (length self.now.partials.now)) draw }
    {
        if tied == 0 {
            return 0;
        }
        (1..self.table.len())
            .filter(|t| self.best_at(*t))
            .nth(draw as usize % tied)
            .unwrap_or(0)
    }

    // The kind of the answer at an entry that is 0 or holds a choice.
    fn kind_at(&self, t: usize) -> Kind
        requires { (t ≡ 0 → ⊥) → present (sizes self.now.partials.now) (whites self.now.table.now) t ≡ true }
        ensures { result ≡ kind_at (sizes self.now.partials.now) (weights self.now.partials.now) (whites self.now.table.now) t }
    {
        if t == 0 {
            return Kind::Exact;
        }
        match self.rank_at(t) {
            Some(r) if r.far => Kind::OnePart,
            _ => Kind::RoundedUp,
        }
    }

    // The answer at an entry that is 0 or holds a choice.
    fn answer_at(&self, tied: usize, t: usize) -> Answer
        requires { (t ≤ length self.now.partials.now)
            × ((t ≡ 0 → ⊥) → present (sizes self.now.partials.now) (whites self.now.table.now) t ≡ true) }
        ensures { result ≡ answer_at (sizes self.now.partials.now) (weights self.now.partials.now) (kept_of self.now.table.now) tied t }
    {
        let held = self.table[t];
        Answer {
            kind: self.kind_at(t),
            white: Weighted(held.white),
            tied,
            entry: t,
            number: held.set,
        }
    }
}

// The table before the search: no allowed choice has as much white space as its entry starts with.
fn fill(partials: &[Partial], table: &mut [Held])
    requires { length table.old ≡ length partials.now + 1 }
    ensures { kept_of table.new ≡ start (sizes partials.now) }
{
    table[0] = Held { white: 1, set: 0 };
    for (i, p) in partials.iter().enumerate() {
        table[i + 1] = Held {
            white: p.size.0,
            set: 0,
        };
    }
}

// The answer of the search: kind, white space and tied count of document 01's answer; the entry of the partial area, 0 if exact;
// and the set number of the whole areas.
#[derive(Clone, Copy)]
pub struct Answer {
    pub kind: Kind,
    pub white: Weighted,
    pub tied: usize,
    pub entry: usize,
    pub number: u32,
}

// The answer for the partial areas, over a table that the caller lends: an entry for each area and one more.
fn propose_over(partials: &[Partial], target: u64, draw: u32, table: &mut [Held]) -> Answer
    requires { Limits (sizes partials.now) (weights partials.now) × (length table.old ≡ length partials.now + 1) }
    ensures { result ≡ propose target (sizes partials.now) (weights partials.now) draw }
{
    fill(partials, table);
    visit(partials, 0, target, 0, 1, table);
    let searched = Searched { partials, table };
    let tied = searched.tied();
    let t = searched.pick(tied, draw);
    searched.answer_at(tied, t)
}

// Whether the areas are as few, and their sizes and weights as small, as a map's partial areas that are not refused.
fn in_limits(partials: &[Partial]) -> bool
    ensures { result ≡ in_limits (sizes partials.now) (weights partials.now) }
{
    partials.len() <= 20
        && partials
            .iter()
            .all(|p| p.size.0 <= 262140000000000 && p.weight <= 65535)
}

// The answer for the partial areas, with a table of its own; none where the areas are not within the limits.
pub fn propose(partials: &[Partial], target: Weighted, draw: u32) -> Option<Answer>
    ensures { result ≡ cond (in_limits (sizes partials.now) (weights partials.now))
        (Some (propose target.0 (sizes partials.now) (weights partials.now) draw)) None }
{
    if !in_limits(partials) {
        return None;
    }
    let mut table = [Held { white: 0, set: 0 }; 21];
    let n = partials.len() + 1;
    Some(propose_over(partials, target.0, draw, &mut table[..n]))
}
