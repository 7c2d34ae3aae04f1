// One axis at a time: its range, the place of the span nearest to the point, and the squares to it and to both faces.
// `all_axes` makes the tests, and then has ready axes; a caller outside goes by `mindist`.
ghost use Rattle.std.specs.Prelude.{◌≡◌, true};
ghost use Rattle.measure.specs.Axis.{square_of, in_range, point_in, span_in, box_in, nearest_on, min_sq, near_sq, far_sq, Ready};
ghost use Rattle.measure.specs.Answer.{point_ok};

use crate::{Axis, Point, Span, SquaredMm};

// An axis that nothing refuses.
#[derive(Clone, Copy)]
pub struct ReadyAxis {
    pub axis: Axis,
    ghost ready: { Ready axis },
}

// The squares from the point to the near face and to the far one.
#[derive(Clone, Copy)]
pub struct Faces {
    pub near: SquaredMm,
    pub far: SquaredMm,
}

// Within ±1,000,000.
#[tactic(auto, unfolding(crate::specs::Axis::in_range))]
fn in_range(z: i32) -> bool
    ensures { result ≡ in_range z }
{
    (-1_000_000..=1_000_000).contains(&z)
}

impl Point {
    pub fn in_range(self) -> bool
        ensures { result ≡ point_ok self }
    {
        in_range(self.x) & in_range(self.y)
    }
}

impl Span {
    // Both ends in range, and low ≤ high.
    #[tactic(auto, unfolding(crate::specs::Axis::span_in))]
    pub fn in_order(self) -> bool
        ensures { result ≡ span_in self }
    {
        in_range(self.low) & in_range(self.high) & (self.low <= self.high)
    }
}

impl Axis {
    #[tactic(auto, unfolding(crate::specs::Axis::point_in))]
    pub fn point_in(self) -> bool
        ensures { result ≡ point_in self }
    {
        in_range(self.at)
    }

    pub fn box_in(self) -> bool
        ensures { result ≡ box_in self }
    {
        self.span.in_order()
    }
}

impl ReadyAxis {
    // The place of the span that is nearest to the point.
    #[tactic(auto, unfolding(crate::specs::Axis::nearest_on))]
    fn nearest(self) -> i32
        ensures { result ≡ nearest_on self.axis }
    {
        let Axis { at, span } = self.axis;
        at.clamp(span.low, span.high)
    }

    // (p - place)², from the signed difference.
    // Kept (4): document 01 asks for squares of signed values, and the cast is shown to lose nothing.
    fn square_to(self, place: i32) -> SquaredMm
        requires { in_range place ≡ true }
        ensures { result.0 ≡ square_of self.axis.at place }
    {
        let d = i64::from(self.axis.at) - i64::from(place);
        SquaredMm((d * d) as u64)
    }

    pub fn min_squared(self) -> SquaredMm
        ensures { result.0 ≡ min_sq self.axis }
    {
        self.square_to(self.nearest())
    }

    // Both faces by comparing twice the point with the sum of the ends: no half is taken.
    pub fn faces(self) -> Faces
        ensures { (result.near.0 ≡ near_sq self.axis) × (result.far.0 ≡ far_sq self.axis) }
    {
        let Axis { at, span } = self.axis;
        let to_low = self.square_to(span.low);
        let to_high = self.square_to(span.high);
        let twice = 2 * i64::from(at);
        let ends = i64::from(span.low) + i64::from(span.high);
        Faces {
            near: if twice <= ends { to_low } else { to_high },
            far: if twice >= ends { to_low } else { to_high },
        }
    }
}
