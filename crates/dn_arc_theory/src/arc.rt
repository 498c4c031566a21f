// Arcs without their nodes.
ghost use Rattle.std.specs.Prelude.{◌≡◌, ◌<◌, ℤ, List, [], ◌∷◌, length, slice_get};

/// An arc's numbers in the order of its line, after SRC and DST.
pub trait Parts: Copy {
    /// The numbers in this order.
    ghost numbers: { Self → List ℤ };

    /// Returns how many numbers the arc has.
    fn len(&self) -> usize
        ensures { result ≡ length (numbers self.now) };

    /// Returns the number at `i`, counted from 0.
    fn part(&self, i: usize) -> i64
        requires { i < length (numbers self.now) }
        ensures { slice_get (numbers self.now) i ≡ Some result };
}

/// An arc with a length (Ninth DIMACS Challenge: `a U V W`).
#[derive(Clone, Copy, PartialEq, Eq)]
pub struct LengthArc {
    pub length: i64,
}

impl Parts for LengthArc {
    ghost numbers = { λ a. a.length ∷ [] };

    fn len(&self) -> usize {
        1
    }

    fn part(&self, _i: usize) -> i64 {
        self.length
    }
}

/// An arc with a capacity (First DIMACS Challenge, `max`: `a SRC DST CAP`).
#[derive(Clone, Copy, PartialEq, Eq)]
pub struct CapArc {
    pub cap: i64,
}

impl Parts for CapArc {
    ghost numbers = { λ a. a.cap ∷ [] };

    fn len(&self) -> usize {
        1
    }

    fn part(&self, _i: usize) -> i64 {
        self.cap
    }
}

/// An arc with a lower bound, a capacity and a cost per unit (First DIMACS Challenge, `min`: `a SRC DST LOW CAP COST`).
#[derive(Clone, Copy, PartialEq, Eq)]
pub struct CostArc {
    pub low: i64,
    pub cap: i64,
    pub cost: i64,
}

impl Parts for CostArc {
    ghost numbers = { λ a. a.low ∷ a.cap ∷ a.cost ∷ [] };

    fn len(&self) -> usize {
        3
    }

    fn part(&self, i: usize) -> i64 {
        match i {
            0 => self.low,
            1 => self.cap,
            _ => self.cost,
        }
    }
}

/// The two canonical forms, which differ only for `min` (this project's profile).
#[derive(Clone, Copy, PartialEq, Eq)]
pub enum Form {
    /// Fixed arcs come first, and then free arcs by ascending cost.
    One,
    /// There is one arc for each cost, by ascending cost.
    Two,
}
