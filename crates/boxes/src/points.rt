// Boxes that a caller lends as a slice of their edges, held against a point.
// Kept beside Boxes::at and Boxes::covering, which have their count by a fact: of a slice its length tells it, and any slice may be lent.
ghost use Rattle.std.specs.Prelude.{◌≡◌, ◌+◌, ◌*◌, ◌/◌, ◌≤◌, ◌<◌, cond, leb, pos, length, get_or};
ghost use Rattle.boxes.specs.Boxes.{boxes_over};

use super::Edges;

// The edges of box i.
fn edges_at(edges: &[i32], i: usize) -> Edges
    requires { (length edges.now ≤ 256) × (i < length edges.now / 4) }
    ensures south { result.south ≡ get_or edges.now i (pos 0) }
    ensures north { result.north ≡ get_or edges.now (length edges.now / 4 + i) (pos 0) }
    ensures west { result.west ≡ get_or edges.now (2 * (length edges.now / 4) + i) (pos 0) }
    ensures east { result.east ≡ get_or edges.now (3 * (length edges.now / 4) + i) (pos 0) }
{
    let n = edges.len() / 4;
    Edges {
        south: edges[i],
        north: edges[n + i],
        west: edges[2 * n + i],
        east: edges[3 * n + i],
    }
}

// How many boxes cover a point, of boxes that a caller lends packed as those of Boxes: a quarter as many as there are edges.
pub fn boxes_over(edges: &[i32], latitude: i32, longitude: i32) -> u32
    requires { length edges.now ≤ 256 }
    ensures { (result ≡ boxes_over edges.now latitude longitude) × (result ≤ 64) }
{
    let mut count = 0;
    for i in 0..edges.len() / 4 {
        count += u32::from(edges_at(edges, i).covers(latitude, longitude));
    }
    count
}

// The same of any slice: 0 for more edges than a register has.
pub fn covering(edges: &[i32], latitude: i32, longitude: i32) -> u32
    ensures { (result ≡ cond (leb (length edges.now) 256) (boxes_over edges.now latitude longitude) 0)
        × (result ≤ 64) }
{
    if edges.len() <= 256 {
        return boxes_over(edges, latitude, longitude);
    }
    0
}
