// The cells that are left out of a last ring (document 01, "The footprint"): the subset of greatest total within the slack, then of
// smallest set number. The rule and its laws are for lists of any length; the code finds its set by a table over sums, lent by the caller.
#![tactic(auto)]

ghost use Rattle.std.specs.Prelude.{◌≡◌, true, cond, ℕ, ◌+◌, min, ◌≤◌, ◌<◌, length, get_or, eqb};
ghost use Rattle.subset.specs.Marked.{roomy, LeavesOut};
ghost use Rattle.subset.specs.Table.{member, chosen, weight, renewed, Room, Readable, Filled, Added, Enough, Topmost, Struck};

// The mark of a sum that is not reached.
// Kept as a number: callers in C lend the table, in u16.
const NONE: u16 = 65535;

// Entries 0 to slack as they are before the first place.
fn clear(table: &mut [u16], slack: usize)
    requires { slack < length table.old }
    ensures { (w : ℕ → ℕ) → Filled 65535 w 0 slack table.old table.new }
{
    table[..=slack].fill(NONE);
    table[0] = 0;
}

// An entry after one place more, given the entry of the sum without the place.
fn renew(here: u16, lower: u16, place: u16) -> u16
    ensures { result ≡ renewed 65535 place here true lower }
{
    if here != NONE {
        return here;
    }
    if lower != NONE { place } else { here }
}

// One place more: each sum up to top that is not reached yet, and is p above one that is, gets the place's number. The sums go down, so
// that no sum takes the place twice.
fn add_place(table: &mut [u16], top: usize, p: usize, place: u16)
    requires { top < length table.old }
    ensures { Added 65535 top p place table.old table.new }
{
    if p == 0 || top < p {
        return;
    }
    for d in (0..top - p + 1).rev() {
        let s = d + p;
        table[s] = renew(table[s], table[d], place);
    }
}

// The greatest sum up to slack that has an entry.
// Kept as a loop: by rposition a million entries took 0.66 ms, and so 0.34 ms.
fn greatest(table: &[u16], slack: usize) -> usize
    requires { slack < length table.now }
    ensures { Topmost 65535 slack table.now result }
{
    for s in (0..slack + 1).rev() {
        if table[s] != NONE {
            return s;
        }
    }
    0
}

// The sums that one place more can reach, of p people, are up to this, where those that were reached are up to top.
fn upto(slack: usize, top: usize, p: usize) -> usize
    requires { top ≤ slack }
    ensures { (top ≤ result) × (result ≤ slack) × (p ≤ slack → min slack (top + p) ≤ result) }
{
    if slack < p {
        top
    } else {
        top + p.min(slack - top)
    }
}

// The people that a place adds to a sum.
fn weigh(mark: u8, people: u32) -> usize
    ensures { result ≡ cond (eqb mark 2) people 0 }
{
    if mark == 2 { people as usize } else { 0 }
}

// Kept as parameters, here and in `choose`: a struct of what leave_out is lent would be made once, to be taken apart in its two callees; and
// `n` and `slack` beside slices, since the definitions speak of them as amounts.
// Takes the places in turn, until the sum slack is reached or there are no more, and returns how many it took.
fn fill(mask: &[u8], people: &[u32], n: usize, slack: usize, table: &mut [u16]) -> usize
    requires { Room 65535 (length mask.now) (length people.now) n slack (length table.old) }
    ensures { Enough 65535 (weight mask.now people.now) n result slack table.old table.new }
{
    clear(table, slack);
    let mut top: usize = 0;
    for k in 0..n {
        if table[slack] != NONE {
            return k;
        }
        let p = weigh(mask[k], people[k]);
        top = upto(slack, top, p);
        add_place(table, top, p, k as u16);
    }
    n
}

// Sets to 0 the marks of the set of a sum, by its entries.
fn read_back(mask: &mut [u8], people: &[u32], k: usize, table: &[u16], sum: usize)
    requires { Readable 65535 mask.old people.now k table.now sum }
    ensures { Struck (member (weight mask.old people.now) k sum) mask.old mask.new }
{
    let mut s = sum;
    // Kept: no range gives these sums, since each entry's place says how far the next step goes down.
    while 0 < s {
        let e = usize::from(table[s]);
        mask[e] = 0;
        s -= people[e] as usize;
    }
}

// Sets to 0 the marks of the set of greatest sum within the slack, then of smallest set number.
fn choose(mask: &mut [u8], people: &[u32], n: usize, slack: usize, table: &mut [u16])
    requires { Room 65535 (length mask.old) (length people.now) n slack (length table.old) }
    ensures marks { Struck (chosen (weight mask.old people.now) n slack)
        mask.old mask.new }
    ensures rest { (s : ℕ) → slack < s → get_or table.new s 0 ≡ get_or table.old s 0 }
{
    let k = fill(mask, people, n, slack, table);
    let s = greatest(table, slack);
    read_back(mask, people, k, table, s);
}

// The table has its entries 0 to slack, and every place below n a byte, a count of people and a number that is not the mark for none.
#[tactic(auto, unfolding(crate::specs::Marked::roomy))]
fn has_room(mask: usize, people: usize, n: usize, slack: usize, table: usize) -> bool
    ensures { result ≡ roomy mask people n slack table }
{
    slack < table && n <= 65535 && n <= mask && n <= people
}

// Document 01, "The footprint": sets to 0 the marks of the cells that are left out of the last ring, whose cells have the mark 2 among the
// first n places. The table's entries 0 to slack may hold anything afterwards. Without room nothing is touched.
pub fn leave_out(mask: &mut [u8], people: &[u32], n: usize, slack: usize, table: &mut [u16])
    ensures { LeavesOut people.now n slack mask.old mask.new
        table.old table.new }
{
    if has_room(mask.len(), people.len(), n, slack, table.len()) {
        choose(mask, people, n, slack, table);
    }
}
