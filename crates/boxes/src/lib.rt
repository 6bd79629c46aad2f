// Boxes held against points, and against all cells of a row at once (document 01, "Coverage and blocks"). No way in for users.
#![tactic(auto)]

ghost use Rattle.std.specs.Prelude.{◌≡◌, ◌+◌, ◌*◌, ◌≤◌, ◌<◌, pos, get_or};
ghost use Rattle.lists.specs.Sums.{flag};

pub mod points;
pub mod rows;

pub use points::{boxes_over, covering};
pub use rows::{RowCounts, count_row};

// Boxes, each with its width in MHz: the souths at 0, the norths at count, the wests at 2 * count and the easts at 3 * count.
// Kept packed, as the definitions read them, so that a loop takes several boxes at once: for 25,000 points and 64 boxes an array of structs
// took 1,590 us, this 510.
#[derive(Clone, Copy)]
pub struct Boxes {
    pub count: usize,
    pub edges: [i32; 256],
    pub widths: [u8; 64],
    ghost few: { count ≤ 64 },
}

// The cells of a row, which are the first count of the three arrays.
// Kept as three arrays with a count: there is no heap, and a loop over one field takes several cells at once, as with boxes above.
#[derive(Clone, Copy)]
pub struct Row {
    pub people: [u32; 256],
    pub latitudes: [i32; 256],
    pub longitudes: [i32; 256],
    pub count: usize,
    ghost within: { count ≤ 256 },
}

// The edges of a box.
// Kept beside the register's GeoBox: that one is a licence's ground in document 01's terms, and this four numbers out of the packed edges.
#[derive(Clone, Copy)]
struct Edges {
    south: i32,
    north: i32,
    west: i32,
    east: i32,
}

impl Edges {
    ghost use Rattle.boxes.specs.Boxes.{box_covers};

    // Four tests and no branch, so that a loop over boxes can take several at once.
    fn covers(self, latitude: i32, longitude: i32) -> bool
        ensures { result ≡ box_covers self.south self.north self.west self.east latitude longitude }
    {
        (self.south <= latitude)
            & (latitude < self.north)
            & (self.west <= longitude)
            & (longitude < self.east)
    }
}

impl Boxes {
    ghost use Rattle.boxes.specs.Boxes.{edges_of, boxes_over};

    pub const NONE: Boxes = Boxes {
        count: 0,
        edges: [0; 256],
        widths: [0; 64],
    };

    // The edges of box i.
    fn at(&self, i: usize) -> Edges
        requires { i < self.now.count }
        ensures south { result.south ≡ get_or self.now.edges i (pos 0) }
        ensures north { result.north ≡ get_or self.now.edges (self.now.count + i) (pos 0) }
        ensures west { result.west ≡ get_or self.now.edges (2 * self.now.count + i) (pos 0) }
        ensures east { result.east ≡ get_or self.now.edges (3 * self.now.count + i) (pos 0) }
    {
        let n = self.count;
        Edges {
            south: self.edges[i],
            north: self.edges[n + i],
            west: self.edges[2 * n + i],
            east: self.edges[3 * n + i],
        }
    }

    // How many boxes cover a point.
    pub fn covering(&self, latitude: i32, longitude: i32) -> u32
        ensures { (result ≡ boxes_over (edges_of self.now) latitude longitude) × (result ≤ 64) }
    {
        let mut covering = 0;
        for i in 0..self.count {
            covering += u32::from(self.at(i).covers(latitude, longitude));
        }
        covering
    }
}

impl Row {
    pub const EMPTY: Row = Row {
        people: [0; 256],
        latitudes: [0; 256],
        longitudes: [0; 256],
        count: 0,
    };
}
