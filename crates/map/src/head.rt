// The head of an area. It has a file of its own, since the definitions that the other modules name lead back to it.
ghost use Rattle.std.specs.Prelude.{◌≤◌};

// What stands before an area's rows. A row of so many columns has few cells, and so many rows have few, so that sums over them fit.
#[derive(Clone, Copy)]
pub struct Head {
    pub number: u16,
    pub weight: u32,
    pub rows: usize,
    pub columns: usize,
    ghost fits: { (rows ≤ 256) × (columns ≤ 256) },
}
