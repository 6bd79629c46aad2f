// Document 01, "The footprint": the ring of a set of cells, marked with 2 in the mask that shows the set. Every byte is written by a
// row writer, which is lent the mask's part from the row's first place on. The functions serve the crates above.
#![tactic(auto)]

ghost use Rattle.std.specs.Prelude.{◌≡◌, true, false, cond, not, ◌&&◌, ◌||◌, ℕ, ◌+◌, ◌-◌, ◌*◌, ◌≤◌, ◌<◌, length, get_or, eqb};
ghost use Rattle.lists.specs.Sums.{some_below};
ghost use Rattle.ring.specs.Ring.{above, below, left, right, some_side, all_sides, edge, ring};
ghost use Rattle.ring.specs.Ring.{shown, seen, marked, settled, wiped, fits};
ghost use Rattle.ring.specs.Code.{grows, to_mark, Inside};

// The byte of a place of the ring.
const MARK: u8 = 2;

// A grid of places: its rows and columns.
#[derive(Clone, Copy, Debug, PartialEq, Eq)]
pub struct Grid {
    pub rows: usize,
    pub columns: usize,
}

impl Grid {
    // Whether there are so many bytes that each place has one, and the sizes are in their limits.
    #[tactic(auto, unfolding(crate::specs::Ring::fits))]
    pub fn fits(self, bytes: usize) -> bool
        ensures { result ≡ fits self.rows self.columns bytes }
    {
        1 <= self.columns
            && self.columns <= 256
            && self.rows <= 256
            && self.rows * self.columns <= bytes
    }
}

// The places that one pass over the grid marks.
#[derive(Clone, Copy, Debug, PartialEq, Eq)]
enum Pass {
    // Growing: the cells outside the set that neighbour it.
    Around,
    // Growing: all cells outside the set.
    Outside,
    // Shrinking: the cells of the set with a side on a place that is not in it.
    Edge,
}

// A place of a grid that a pass looks at in a mask: its row, its column and its number, by row, then column. The tests of its row are the
// same for the whole row.
#[derive(Clone, Copy)]
struct Place<'a> {
    mask: &'a [u8],
    pass: Pass,
    grid: Grid,
    row: usize,
    column: usize,
    number: usize,
    ghost inside: { Inside grid.rows grid.columns row column number },
    ghost masked: { grid.rows * grid.columns ≤ length mask.now },
}

// Puts 2 at the places of the ring, and changes no other byte. Nothing is done where the mask or the cells are too short.
// Kept as two parameters, cells and grid, here and below: the crate above holds both in its Area, and a second struct of them would be
// made of that one for each ring.
// Kept: `grow` is a flag, since the crate above computes it by document 01's test, V < share; an enum would be turned back into that test.
#[tactic(auto, unfolding(crate::specs::Code::to_mark, crate::specs::Ring::ring))]
pub fn form(mask: &mut [u8], cells: &[u8], grid: Grid, grow: bool)
    ensures { (i : ℕ) →
        get_or mask.new i 0
        ≡ marked
        (fits grid.rows grid.columns (length mask.old) && (fits grid.rows grid.columns (length cells.now)
        && ring grow (shown cells.now) (seen grow mask.old) (grid.rows * grid.columns) grid.columns i))
        (get_or mask.old i 0) }
{
    if !grid.fits(mask.len()) || !grid.fits(cells.len()) {
        return;
    }
    if !grow {
        mark_rows(mask, cells, grid, Pass::Edge);
    } else if !mark_rows(mask, cells, grid, Pass::Around) {
        mark_rows(mask, cells, grid, Pass::Outside);
    }
}

// Turns the marks of the area to the byte given.
#[tactic(auto, using(crate::proofs::MarkLaws::row_fits, lists::proofs::InPlace::part_room))]
pub fn settle(mask: &mut [u8], grid: Grid, to: u8)
    ensures { (i : ℕ) →
        get_or mask.new i 0
        ≡ cond (fits grid.rows grid.columns (length mask.old))
        (settled to (grid.rows * grid.columns) i (get_or mask.old i 0))
        (get_or mask.old i 0) }
{
    if grid.fits(mask.len()) {
        for r in 0..grid.rows {
            let start = r * grid.columns;
            settle_row(&mut mask[start..], grid.columns, to);
        }
    }
}

// Turns every byte of the area to 0.
// Kept beside settle: document 01 wants a row writer for each row, and a closure over both would carry two contracts for a line less.
#[tactic(auto, using(crate::proofs::MarkLaws::row_fits, lists::proofs::InPlace::part_room))]
pub fn wipe(mask: &mut [u8], grid: Grid)
    ensures { (i : ℕ) →
        get_or mask.new i 0
        ≡ cond (fits grid.rows grid.columns (length mask.old))
        (wiped (grid.rows * grid.columns) i (get_or mask.old i 0))
        (get_or mask.old i 0) }
{
    if grid.fits(mask.len()) {
        for r in 0..grid.rows {
            let start = r * grid.columns;
            wipe_row(&mut mask[start..], grid.columns);
        }
    }
}

// Marks the places of a pass row by row, and says whether there are any. The marks do not change the set that the mask shows, so a row is
// read after those before it are marked.
#[tactic(auto, using(crate::proofs::MarkLaws::row_fits, lists::proofs::InPlace::part_room))]
fn mark_rows(mask: &mut [u8], cells: &[u8], grid: Grid, pass: Pass) -> bool
    requires masked { fits grid.rows grid.columns (length mask.old) ≡ true }
    requires celled { fits grid.rows grid.columns (length cells.now) ≡ true }
    ensures told { result
        ≡ some_below (to_mark pass (shown cells.now) (seen (grows pass) mask.old) (grid.rows * grid.columns) grid.columns)
        (grid.rows * grid.columns) }
    ensures bytes { (i : ℕ) →
        get_or mask.new i 0
        ≡ marked (to_mark pass (shown cells.now) (seen (grows pass) mask.old) (grid.rows * grid.columns) grid.columns i)
        (get_or mask.old i 0) }
{
    let mut any = false;
    for r in 0..grid.rows {
        let start = r * grid.columns;
        let marks = row_marks(mask, cells, grid, r, pass);
        let some = mark_row(&mut mask[start..], &marks[..grid.columns]);
        any |= some;
    }
    any
}

// Which places of row r a pass marks.
// Kept as an array for the longest row: there is no heap, and a row is read before it is written.
fn row_marks(mask: &[u8], cells: &[u8], grid: Grid, r: usize, pass: Pass) -> [bool; 256]
    requires masked { fits grid.rows grid.columns (length mask.now) ≡ true }
    requires celled { fits grid.rows grid.columns (length cells.now) ≡ true }
    requires low { r < grid.rows }
    ensures room { length result ≡ 256 }
    ensures told { (c : ℕ) → c < grid.columns →
        get_or result c false
        ≡ to_mark pass (shown cells.now) (seen (grows pass) mask.now) (grid.rows * grid.columns) grid.columns (r * grid.columns + c) }
{
    let start = r * grid.columns;
    let mut marks = [false; 256];
    for c in 0..grid.columns {
        let place = Place {
            mask,
            pass,
            grid,
            row: r,
            column: c,
            number: start + c,
        };
        marks[c] = place.to_mark(cells);
    }
    marks
}

// Marks the row that starts the part, and says whether it has any marks.
fn mark_row(part: &mut [u8], marks: &[bool]) -> bool
    requires { length marks.now ≤ length part.old }
    ensures told { result ≡ some_below (λ c. get_or marks.now c false) (length marks.now) }
    ensures bytes { (c : ℕ) → get_or part.new c 0 ≡ marked (get_or marks.now c false) (get_or part.old c 0) }
{
    let mut any = false;
    for (c, mark) in marks.iter().enumerate() {
        if *mark {
            part[c] = MARK;
            any = true;
        }
    }
    any
}

// Turns the marks of the row that starts the part to the byte given.
fn settle_row(part: &mut [u8], columns: usize, to: u8)
    requires { columns ≤ length part.old }
    ensures { (c : ℕ) → get_or part.new c 0 ≡ settled to columns c (get_or part.old c 0) }
{
    for b in part[..columns].iter_mut() {
        *b = if *b == MARK { to } else { *b };
    }
}

// Turns every byte of the row that starts the part to 0.
fn wipe_row(part: &mut [u8], columns: usize)
    requires { columns ≤ length part.old }
    ensures { (c : ℕ) → get_or part.new c 0 ≡ wiped columns c (get_or part.old c 0) }
{
    part[..columns].fill(0);
}

impl Place<'_> {
    // Whether the pass marks it.
    #[tactic(auto, unfolding(crate::specs::Code::to_mark, crate::specs::Ring::around, crate::specs::Ring::outside, crate::specs::Ring::edge))]
    fn to_mark(self, cells: &[u8]) -> bool
        requires { self.grid.rows * self.grid.columns ≤ length cells.now }
        ensures { result
            ≡ to_mark self.entry.pass (shown cells.now) (seen (grows self.entry.pass) self.entry.mask.now)
            (self.entry.grid.rows * self.entry.grid.columns) self.entry.grid.columns self.entry.number }
    {
        match self.pass {
            Pass::Around => self.is_outside(cells) && self.some_side(),
            Pass::Outside => self.is_outside(cells),
            Pass::Edge => self.is_in(self.number) && !self.all_sides(),
        }
    }

    // Whether it has a cell and is not in the set.
    fn is_outside(self, cells: &[u8]) -> bool
        requires { self.grid.rows * self.grid.columns ≤ length cells.now }
        ensures { result
            ≡ (shown cells.now self.entry.number && not (seen (grows self.entry.pass) self.entry.mask.now self.entry.number)) }
    {
        cells[self.number] == 1 && !self.is_in(self.number)
    }

    // Whether it neighbours the set.
    // Kept beside all_sides, with no array of the four sides: `contains` on one reads all four, 479 us in the place of 264 for a disc that grows.
    #[tactic(auto, unfolding(crate::specs::Ring::some_side))]
    fn some_side(self) -> bool
        ensures { result
            ≡ some_side (seen (grows self.entry.pass) self.entry.mask.now)
            (self.entry.grid.rows * self.entry.grid.columns) self.entry.grid.columns self.entry.number }
    {
        self.above() || self.below() || self.left() || self.right()
    }

    // Whether all its sides are on the set.
    #[tactic(auto, unfolding(crate::specs::Ring::all_sides))]
    fn all_sides(self) -> bool
        ensures { result
            ≡ all_sides (seen (grows self.entry.pass) self.entry.mask.now)
            (self.entry.grid.rows * self.entry.grid.columns) self.entry.grid.columns self.entry.number }
    {
        self.above() && self.below() && self.left() && self.right()
    }

    // Whether the place above it is in the set; in the first row there is none.
    #[tactic(auto, unfolding(crate::specs::Ring::above))]
    fn above(self) -> bool
        ensures { result ≡ above (seen (grows self.entry.pass) self.entry.mask.now) self.entry.grid.columns self.entry.number }
    {
        self.row != 0 && self.is_in(self.number - self.grid.columns)
    }

    // Whether the place below it is in the set; in the last row there is none.
    #[tactic(auto, unfolding(crate::specs::Ring::below))]
    fn below(self) -> bool
        ensures { result
            ≡ below (seen (grows self.entry.pass) self.entry.mask.now)
            (self.entry.grid.rows * self.entry.grid.columns) self.entry.grid.columns self.entry.number }
    {
        self.row + 1 != self.grid.rows && self.is_in(self.number + self.grid.columns)
    }

    // Whether the place left of it is in the set; in the first column there is none.
    #[tactic(auto, unfolding(crate::specs::Ring::left))]
    fn left(self) -> bool
        ensures { result ≡ left (seen (grows self.entry.pass) self.entry.mask.now) self.entry.grid.columns self.entry.number }
    {
        self.column != 0 && self.is_in(self.number - 1)
    }

    // Whether the place right of it is in the set; in the last column there is none.
    #[tactic(auto, unfolding(crate::specs::Ring::right), using(crate::proofs::PlaceLaws::ends_row))]
    fn right(self) -> bool
        ensures { result ≡ right (seen (grows self.entry.pass) self.entry.mask.now) self.entry.grid.columns self.entry.number }
    {
        self.column + 1 != self.grid.columns && self.is_in(self.number + 1)
    }

    // Whether place i is in the set. A mark, 2, is outside the set growing and in it shrinking, so marking leaves the set.
    #[tactic(auto, unfolding(crate::specs::Ring::seen))]
    fn is_in(self, i: usize) -> bool
        requires { i < self.grid.rows * self.grid.columns }
        ensures { result ≡ seen (grows self.entry.pass) self.entry.mask.now i }
    {
        match self.pass {
            Pass::Around | Pass::Outside => self.mask[i] == 1,
            Pass::Edge => self.mask[i] != 0,
        }
    }
}
