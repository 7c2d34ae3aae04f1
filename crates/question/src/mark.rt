// A mark: a place in the order of bays.
ghost use Rattle.std.specs.Prelude.{◌≡◌};
ghost use Rattle.question.specs.Mark.{before};

use measure::HowFar;

// How far, and a bay number, any values; (0, 0) is the start. The order of the fields is the order of bays: the nearer one,
// and of two as near the smaller number.
#[derive(Clone, Copy, PartialEq, Eq, PartialOrd, Ord, Default)]
pub struct Mark {
    pub far: HowFar,
    pub bay: u32,
}

impl Mark {
    // Whether this place comes strictly before another.
    // Kept (4): docs/STATEMENTS.md names it, by the definition that all orders of bays are made of.
    #[tactic(auto, unfolding(crate::specs::Mark::before))]
    pub fn is_before(self, other: Mark) -> bool
        ensures { result ≡ before self other }
    {
        self < other
    }
}
