// Document 01, "The register": the licences in force, and what a grant and a cancellation do to them; document 02, Paper 4: their
// widths. naming and boxes hand out what the crates above count people by, and struck what they subtract.
#![tactic(auto)]

ghost use Rattle.std.specs.Prelude.{◌≡◌, ◌-◌, ◌≤◌, ◌<◌, is_some};
ghost use Rattle.std.specs.List.{IsAfterLastMatch};
ghost use Rattle.register.specs.Licences.{full_width, full_licence, box_formed, ground_formed, width_formed, well_formed};
ghost use Rattle.register.specs.Licences.{ground_of, licence_at_width, licence_of, flat_of, standing, in_force, held, struck, release};
ghost use Rattle.register.specs.Rules.{grant_number, cancel_number};
ghost use Rattle.register.specs.Sums.{SameLicences};
ghost use Rattle.register.specs.Promises.{EmptyDone, PlaceFound, GrantDone, CancelDone, GrantStep, CancelStep, step_to};
ghost use Rattle.register.specs.Grounds.{area_at, names_at, box_at, NamingDone, EdgesDone, WidthsDone, BoxesDone};

use boxes::Boxes;

// A box of latitudes and longitudes, in hundredths of an arc second. Degrees south and west are negative.
#[derive(Clone, Copy, Debug, PartialEq, Eq)]
pub struct GeoBox {
    pub south: i32,
    pub north: i32,
    pub west: i32,
    pub east: i32,
}

// The ground of a licence: a PEA by its number, or a box.
#[derive(Clone, Copy, Debug, PartialEq, Eq)]
pub enum Ground {
    Area(u16),
    Box(GeoBox),
}

// A licence, as its grant gives it. The width is in MHz.
#[derive(Clone, Copy, Debug, PartialEq, Eq)]
pub struct Licence {
    pub call_sign: u32,
    pub ground: Ground,
    pub width: u32,
}

// A licence laid out in plain numbers, as it stands at a place of the register and as callers in C hand it over. Kind 0 is an area and
// kind 1 a box; any other kind is an ill-formed ground, which covers nothing. A place keeps how many MHz its licence is narrower than 50,
// so one that was kept before licences had widths, with 0 there, is 50 MHz wide as it was. There is no padding.
// Kept as numbers: the C interface and kept registers have this layout.
#[repr(C)]
#[derive(Clone, Copy)]
pub struct FlatLicence {
    pub call_sign: u32,
    pub area: u16,
    pub kind: u8,
    pub narrower_by: u8,
    pub south: i32,
    pub north: i32,
    pub west: i32,
    pub east: i32,
}

// A register has a place for each licence in force. A place with call sign 0 is free.
// Kept as that number and no Option: the C interface and kept registers have this layout.
#[repr(C)]
#[derive(Clone, Copy)]
pub struct Register {
    places: [FlatLicence; Register::LIMIT],
}

// Why a grant is refused, by document 01's numbers.
#[derive(Clone, Copy, Debug, PartialEq, Eq)]
pub enum GrantRefusal {
    IllFormed = 6,
    InForce = 9,
    Full = 10,
}

// Why a cancellation is refused: no licence in force has the call sign.
#[derive(Clone, Copy, Debug, PartialEq, Eq)]
pub struct NotInForce;

// What a grant or a cancellation hands back in plain numbers: the next register, and document 01's number of the refusal, 0 for none.
// Kept as numbers: the C interface hands out this layout.
#[repr(C)]
#[derive(Clone, Copy)]
pub struct Step {
    pub next: Register,
    pub refusal: u32,
}

// How many licences in force have an area as their ground, and their widths added.
#[derive(Clone, Copy, Debug, PartialEq, Eq)]
pub struct Naming {
    pub licences: u32,
    pub width: u32,
}

impl GeoBox {
    // A box that covers nothing.
    const NONE: GeoBox = GeoBox {
        south: 0,
        north: 0,
        west: 0,
        east: 0,
    };
}

impl Licence {
    // The width of a licence that is granted without one.
    pub const FULL_WIDTH: u32 = 50;

    // The licence that is granted without a width.
    pub fn full(call_sign: u32, ground: Ground) -> Self
        ensures { result ≡ full_licence call_sign ground }
    {
        Licence {
            call_sign,
            ground,
            width: Self::FULL_WIDTH,
        }
    }
}

// Document 01's number of the refusal.
impl From<GrantRefusal> for u32 {
    ghost from_gives = { λ r n. n ≡ grant_number r };

    fn from(refusal: GrantRefusal) -> u32 {
        refusal as u32
    }
}

// Document 01's number of the refusal.
impl From<NotInForce> for u32 {
    ghost from_gives = { λ r n. n ≡ cancel_number r };

    fn from(_refusal: NotInForce) -> u32 {
        11
    }
}

// The place that a licence takes.
impl From<Licence> for FlatLicence {
    ghost from_gives = { λ l p. p ≡ flat_of l };

    fn from(l: Licence) -> FlatLicence {
        let plain = FlatLicence {
            call_sign: l.call_sign,
            narrower_by: narrower_by(l.width),
            ..Self::FREE
        };
        match l.ground {
            Ground::Area(area) => FlatLicence { area, ..plain },
            Ground::Box(b) => FlatLicence {
                kind: 1,
                south: b.south,
                north: b.north,
                west: b.west,
                east: b.east,
                ..plain
            },
        }
    }
}

// The licence that stands at the place.
impl From<FlatLicence> for Licence {
    ghost from_gives = { λ p l. l ≡ licence_of p };

    fn from(place: FlatLicence) -> Licence {
        place.granted(u32::from(place.width()))
    }
}

impl FlatLicence {
    // What stands at a free place.
    const FREE: FlatLicence = FlatLicence {
        call_sign: 0,
        area: 0,
        kind: 0,
        narrower_by: 0,
        south: 0,
        north: 0,
        west: 0,
        east: 0,
    };

    // The licence at a width, whatever width the place keeps: what a caller in C lays out in plain numbers and grants.
    pub fn granted(self, width: u32) -> Licence
        ensures { result ≡ licence_at_width self width }
    {
        Licence {
            call_sign: self.call_sign,
            ground: self.ground(),
            width,
        }
    }

    // The width of the licence that stands at the place: 0 where it is narrower by 50 or more.
    fn width(self) -> u8
        ensures { result ≡ full_width - self.narrower_by }
    {
        50u8.saturating_sub(self.narrower_by)
    }

    // The ground of the licence that stands at the place.
    #[tactic(auto, unfolding(crate::specs::Licences::ground_of))]
    fn ground(self) -> Ground
        ensures { result ≡ ground_of self }
    {
        match self.kind {
            0 => Ground::Area(self.area),
            1 => Ground::Box(GeoBox {
                south: self.south,
                north: self.north,
                west: self.west,
                east: self.east,
            }),
            _ => Ground::Area(0),
        }
    }

    // The licence in force that stands at the place, None where the place is free.
    fn standing(self) -> Option<Licence>
        ensures { result ≡ standing self }
    {
        if self.call_sign == 0 {
            return None;
        }
        Some(Licence::from(self))
    }

    // The area of the licence in force that stands at the place, where its ground is one.
    fn area(self) -> Option<u16>
        ensures { result ≡ area_at self }
    {
        match self.standing()?.ground {
            Ground::Area(n) => Some(n),
            Ground::Box(_) => None,
        }
    }

    // Whether a licence in force with the area of a number as its ground stands at the place.
    fn names(self, number: u16) -> bool
        ensures { result ≡ names_at number self }
    {
        self.area() == Some(number)
    }

    // The box of the licence in force that stands at the place, where it has one.
    fn geo_box(self) -> Option<GeoBox>
        ensures { result ≡ box_at self }
    {
        match self.standing()?.ground {
            Ground::Area(_) => None,
            Ground::Box(b) => Some(b),
        }
    }
}

impl Register {
    // The most licences that are in force at once.
    pub const LIMIT: usize = 64;

    // The register with no licence in force.
    pub fn empty() -> Self
        ensures { EmptyDone result }
    {
        Register {
            places: [FlatLicence::FREE; Self::LIMIT],
        }
    }

    // Refuses by 6, 9 or 10, in this order, and else puts the licence at a free place.
    pub fn grant(mut self, l: Licence) -> Result<Register, GrantRefusal>
        ensures { GrantDone self l result }
    {
        self.put(l)?;
        Ok(self)
    }

    // Refuses by 11 what is not in force, as call sign 0 never is, and else frees every place of the call sign.
    pub fn cancel(mut self, call_sign: u32) -> Result<Register, NotInForce>
        ensures { CancelDone self call_sign result }
    {
        self.free(call_sign)?;
        Ok(self)
    }

    // A grant that hands back the register in each case, with its refusal as a number beside it.
    pub fn grant_step(mut self, l: Licence) -> Step
        ensures { GrantStep self l result }
    {
        let refusal = self.put(l).map_or_else(u32::from, |()| 0);
        Step {
            next: self,
            refusal,
        }
    }

    // So does a cancellation.
    // Kept beside grant_step: a function over both answers, generic in the refusal, would carry a clause longer than these two lines.
    pub fn cancel_step(mut self, call_sign: u32) -> Step
        ensures { CancelStep self call_sign result }
    {
        let refusal = self.free(call_sign).map_or_else(u32::from, |()| 0);
        Step {
            next: self,
            refusal,
        }
    }

    // A register of just what a cancellation strikes, at its first places, so that few boxes are held against the cells of a map.
    // Kept as a count: which place comes next shows in the data alone, and a zip of the places with those that pass would say it no plainer.
    pub fn struck(self, call_sign: u32) -> Register
        ensures { SameLicences (in_force result.places) (struck call_sign (in_force self.places)) }
    {
        let mut only = Self::empty();
        let mut count = 0;
        for p in &self.places {
            if p.call_sign == call_sign {
                only.places[count] = *p;
                count += 1;
            }
        }
        only
    }

    // How many licences in force have the area of a number as their ground, and their widths added.
    pub fn naming(self, number: u16) -> Naming
        ensures { NamingDone number self.places result }
    {
        let mut licences: u32 = 0;
        let mut width: u32 = 0;
        for p in &self.places {
            if p.names(number) {
                licences += 1;
                width += u32::from(p.width());
            }
        }
        Naming { licences, width }
    }

    // The boxes of the licences in force, up to the last place that has one, so that few licences cost few tests for a cell. The loop
    // over the boxes at a cell takes eight at a time, so boxes that cover nothing make up a multiple of 8 and it has none left over.
    pub fn boxes(self) -> Boxes
        ensures { BoxesDone self.places result }
    {
        let count = (self.last_box() + 7) / 8 * 8;
        Boxes {
            count,
            edges: self.edges(count),
            widths: self.widths(count),
        }
    }

    // A grant in this register itself, which stays as it is where the licence is refused.
    fn put(&mut self, l: Licence) -> Result<(), GrantRefusal>
        ensures { GrantStep self.old l (step_to grant_number self.new result) }
    {
        let place = self.place_for(l)?;
        self.places[place] = FlatLicence::from(l);
        Ok(())
    }

    // A cancellation in this register itself, which stays as it is where the call sign is not in force.
    fn free(&mut self, call_sign: u32) -> Result<(), NotInForce>
        ensures { CancelStep self.old call_sign (step_to cancel_number self.new result) }
    {
        if call_sign == 0 || !self.release(call_sign) {
            return Err(NotInForce);
        }
        Ok(())
    }

    // The place that a licence to grant takes, the first that is free; or the refusal: 6, 9, 10, in this order.
    fn place_for(&self, l: Licence) -> Result<usize, GrantRefusal>
        ensures { PlaceFound self.now.places l result }
    {
        if !well_formed(l) {
            return Err(GrantRefusal::IllFormed);
        }
        if self.holds(l.call_sign) {
            return Err(GrantRefusal::InForce);
        }
        self.places
            .iter()
            .position(|p| p.call_sign == 0)
            .ok_or(GrantRefusal::Full)
    }

    // Whether a licence in force has the call sign; none has call sign 0.
    fn holds(&self, call_sign: u32) -> bool
        ensures { result ≡ held call_sign (in_force self.now.places) }
    {
        call_sign != 0 && self.places.iter().any(|p| p.call_sign == call_sign)
    }

    // Frees the places of a call sign, and says whether a licence in force had it.
    fn release(&mut self, call_sign: u32) -> bool
        requires { 0 < call_sign }
        ensures told { result ≡ held call_sign (in_force self.old.places) }
        ensures freed { self.new.places ≡ release call_sign self.old.places }
    {
        let mut any = false;
        for place in &mut self.places {
            if place.call_sign == call_sign {
                *place = FlatLicence::FREE;
                any = true;
            }
        }
        any
    }

    // One more than the last place with a box in force, 0 where no place has one.
    fn last_box(self) -> usize
        ensures few { result ≤ 64 }
        ensures last { IsAfterLastMatch (λ p. is_some (box_at p)) self.places result }
    {
        match self.places.iter().rposition(|p| p.geo_box().is_some()) {
            Some(last) => last + 1,
            None => 0,
        }
    }

    // The edges of the boxes at the first count places.
    fn edges(self, count: usize) -> [i32; 256]
        requires { count ≤ 64 }
        ensures { EdgesDone self.places count result }
    {
        let mut edges = [0i32; 256];
        for i in 0..count {
            let b = self.places[i].geo_box().unwrap_or(GeoBox::NONE);
            edges[i] = b.south;
            edges[count + i] = b.north;
            edges[2 * count + i] = b.west;
            edges[3 * count + i] = b.east;
        }
        edges
    }

    // The widths of what stands at the first count places.
    fn widths(self, count: usize) -> [u8; 64]
        requires { count ≤ 64 }
        ensures { WidthsDone self.places count result }
    {
        let mut widths = [0u8; 64];
        for i in 0..count {
            widths[i] = self.places[i].width();
        }
        widths
    }
}

// Whether a box is well formed.
fn box_formed(b: GeoBox) -> bool
    ensures { result ≡ box_formed b }
{
    (b.south < b.north)
        & (b.west < b.east)
        & units::in_range(-32_400_000, 32_400_000, b.south)
        & units::in_range(-32_400_000, 32_400_000, b.north)
        & units::in_range(-64_800_000, 64_800_000, b.west)
        & units::in_range(-64_800_000, 64_800_000, b.east)
}

// Whether a ground is well formed.
fn ground_formed(g: Ground) -> bool
    ensures { result ≡ ground_formed g }
{
    match g {
        Ground::Area(n) => 1 <= n && n <= 416,
        Ground::Box(b) => box_formed(b),
    }
}

// Whether a width is well formed.
#[tactic(auto, unfolding(crate::specs::Licences::width_formed))]
fn width_formed(width: u32) -> bool
    ensures { result ≡ width_formed width }
{
    1 <= width && width <= Licence::FULL_WIDTH
}

// Whether a licence is well formed: its call sign is not 0, and its ground and its width are well formed.
fn well_formed(l: Licence) -> bool
    ensures { result ≡ well_formed l }
{
    (l.call_sign != 0) & ground_formed(l.ground) & width_formed(l.width)
}

// How many MHz a width is narrower than 50, 0 where it is not.
fn narrower_by(width: u32) -> u8
    ensures { result ≡ full_width - width }
{
    Licence::FULL_WIDTH.saturating_sub(width) as u8
}
