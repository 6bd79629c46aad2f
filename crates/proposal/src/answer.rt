// The answer of propose.
ghost use Rattle.std.specs.Prelude.{◌≡◌, ◌≤◌, take};

use super::AreaAnswer;
use search::Kind;
use units::Weighted;

// The kind, T, white space, the tied count and the map's areas, which are the first count of areas.
// Kept as an array with a count, like Holdings: the engine has no heap to collect them on, and an ArrayVec is not copied as this is.
#[derive(Clone, Copy)]
pub struct Proposal {
    pub kind: Kind,
    pub target: Weighted,
    pub white_space: Weighted,
    pub tied: usize,
    pub count: usize,
    pub areas: [AreaAnswer; 32],
    pub ghost few: { count ≤ 32 },
}

impl Proposal {
    // The map's areas.
    pub fn areas(&self) -> &[AreaAnswer]
        ensures { result.now ≡ take self.now.count self.now.areas }
    {
        &self.areas[..self.count]
    }
}
