// What the cells of a row come to: their people, and under boxes the MHz-pops and the cells.

ghost use Rattle.std.specs.Prelude.{◌≡◌, ◌&&◌, ◌||◌, ◌≤◌, ◌<◌, Bool, ℕ, ℤ, leb, pos, neg_ℤ, ◌^◌, true, length, get_or, max, sum};
ghost use Rattle.std.specs.Int.Signed.{le_z, lt_z};
ghost use Rattle.boxes.specs.Boxes.{edges_of};
ghost use Rattle.boxes.specs.Rows.{RowCounted, SpanOf, Outlined, FewPeople, join_to};
ghost use Rattle.boxes.specs.Rows.{cell_under, test_at, UnderBox, UnderBoxes};

use super::{Boxes, Edges, Row};

// The least and the greatest of some coordinates.
#[derive(Clone, Copy)]
pub struct Span {
    least: i32,
    greatest: i32,
}

// The spans of a row's latitudes and longitudes, and its people.
#[derive(Clone, Copy)]
struct Outline {
    latitudes: Span,
    longitudes: Span,
    people: u32,
}

// What a box covers of a row.
#[derive(Clone, Copy)]
struct Under {
    people: u32,
    cells: u32,
}

// What all boxes cover of a row, once for each box: MHz-pops, which are its width × the people, and cells.
#[derive(Clone, Copy)]
struct BoxSums {
    mhz_pops: u64,
    cells: u64,
}

// What a row's cells come to: their people, and under the boxes the MHz-pops and the cells, once for each box.
#[derive(Clone, Copy)]
pub struct RowCounts {
    pub people: u32,
    pub boxed_mhz_pops: u64,
    pub boxed_cells: u64,
}

impl Span {
    // Whether all coordinates are between two edges, the first included.
    fn is_between(self, low: i32, high: i32) -> bool
        ensures { result ≡ le_z low self.least && lt_z self.greatest high }
    {
        (low <= self.least) & (self.greatest < high)
    }

    // Whether all coordinates are at most so far from 0.
    fn is_within(self, limit: i32) -> bool
        requires { le_z (pos 0) limit ≡ true }
        ensures { result ≡ le_z (neg_ℤ limit) self.least && le_z self.greatest limit }
    {
        (-limit <= self.least) & (self.greatest <= limit)
    }
}

// The least and the greatest of some coordinates; of none, the greatest and the least i32.
fn span_of(values: &[i32]) -> Span
    ensures { SpanOf values.now (length values.now) result }
{
    let mut least = i32::MAX;
    let mut greatest = i32::MIN;
    for value in values {
        least = least.min(*value);
        greatest = greatest.max(*value);
    }
    Span { least, greatest }
}

// The most people of a cell.
fn most(people: &[u32]) -> u32
    ensures { result ≡ join_to max 0 (λ k. get_or people.now k 0) (length people.now) }
{
    let mut most: u32 = 0;
    for held in people {
        most = most.max(*held);
    }
    most
}

// The people of some cells.
fn total(people: &[u32]) -> u32
    requires { sum people.now < 2 ^ 32 }
    ensures { result ≡ sum people.now }
{
    people.iter().sum()
}

// Whether a box is apart from all of a row's cells: it covers none then.
fn is_apart(edges: Edges, outline: Outline) -> bool
    ensures { result
        ≡ lt_z outline.latitudes.greatest edges.south || le_z edges.north outline.latitudes.least
        || lt_z outline.longitudes.greatest edges.west || le_z edges.east outline.longitudes.least }
{
    (outline.latitudes.greatest < edges.south)
        | (edges.north <= outline.latitudes.least)
        | (outline.longitudes.greatest < edges.west)
        | (edges.east <= outline.longitudes.least)
}

// Kept as a clause of three functions: that a row's people are few is known once its limits are tested, after its outline is made, so it is
// a fact of neither.
// The cells that pass a test, and their people: a product with 0 or 1 and no branch, so that the loop can take several cells at once.
fn count_under<F: Fn(i32, i32) -> bool>(row: &Row, covers: F) -> Under
    requires can { F.IsAlwaysCallable covers }
    requires few { FewPeople row.now.people row.now.count }
    ensures { (test : ℤ → ℤ → Bool) → ((x y : ℤ) (b : Bool) → F.post covers x y b → b ≡ test x y)
        → UnderBox row.now.people (test_at test row.now.latitudes row.now.longitudes) row.now.count result }
{
    let mut people = 0;
    let mut cells = 0;
    for k in 0..row.count {
        let covered = u32::from(covers(row.latitudes[k], row.longitudes[k]));
        people += row.people[k] * covered;
        cells += covered;
    }
    Under { people, cells }
}

// What a box covers. A box apart from the row or around it needs no look at the cells; of most others, which span the row from south
// to north, the longitudes decide.
fn under_box(edges: Edges, outline: Outline, row: &Row) -> Under
    requires few { FewPeople row.now.people row.now.count }
    requires outlined { Outlined row.now.people row.now.latitudes row.now.longitudes row.now.count outline }
    ensures { UnderBox row.now.people
        (cell_under edges.south edges.north edges.west edges.east row.now.latitudes row.now.longitudes) row.now.count result }
{
    if is_apart(edges, outline) {
        return Under {
            people: 0,
            cells: 0,
        };
    }
    if !outline.latitudes.is_between(edges.south, edges.north) {
        return count_under(row, |latitude, longitude| edges.covers(latitude, longitude));
    }
    if outline.longitudes.is_between(edges.west, edges.east) {
        return Under {
            people: outline.people,
            cells: row.count as u32,
        };
    }
    let Edges { west, east, .. } = edges;
    count_under(row, |_, longitude| (west <= longitude) & (longitude < east))
}

// What all boxes cover, once for each box.
fn under_boxes(boxes: &Boxes, outline: Outline, row: &Row) -> BoxSums
    requires few { FewPeople row.now.people row.now.count }
    requires outlined { Outlined row.now.people row.now.latitudes row.now.longitudes row.now.count outline }
    ensures { UnderBoxes (edges_of boxes.now) boxes.now.widths row.now.people row.now.latitudes row.now.longitudes
        row.now.count result }
{
    let mut mhz_pops = 0;
    let mut cells = 0;
    for i in 0..boxes.count {
        let under = under_box(boxes.at(i), outline, row);
        mhz_pops += u64::from(boxes.widths[i]) * u64::from(under.people);
        cells += u64::from(under.cells);
    }
    BoxSums { mhz_pops, cells }
}

// Counts a row's cells under boxes; none where a cell is outside the map's limits.
pub fn count_row(boxes: &Boxes, row: &Row) -> Option<RowCounts>
    ensures { RowCounted (edges_of boxes.now) boxes.now.widths row.now.people row.now.latitudes row.now.longitudes
        row.now.count result }
{
    let latitudes = span_of(&row.latitudes[..row.count]);
    let longitudes = span_of(&row.longitudes[..row.count]);
    let cells = &row.people[..row.count];
    if !((most(cells) <= 1_000_000)
        & latitudes.is_within(32_400_000)
        & longitudes.is_within(64_800_000))
    {
        return None;
    }
    let people = total(cells);
    let outline = Outline {
        latitudes,
        longitudes,
        people,
    };
    let under = under_boxes(boxes, outline, row);
    Some(RowCounts {
        people,
        boxed_mhz_pops: under.mhz_pops,
        boxed_cells: under.cells,
    })
}
