// The three measures of document 01: MINDIST and MINMAXDIST of a point and a box, and the plain distance.
// A squared distance and a length are different types, and only `plain` turns one into the other.
// Any crate that measures calls this one; it knows nothing of maps, bays or badges.

#![tactic(auto)]

mod all_axes;
mod one_axis;
mod root;

ghost use Rattle.std.specs.Prelude.{◌≡◌, ◌+◌, ◌^◌, ◌<◌};
ghost use Rattle.measure.specs.Axes.{Each, min_dist, min_max_dist};
ghost use Rattle.measure.specs.Axis.{Ready};
ghost use Rattle.measure.specs.Answer.{axes_of, measured_by, reading_of, refusal_number};

use all_axes::{axes_of, min_max_over, min_over, ready, ready_axes};
pub use one_axis::ReadyAxis;
pub use root::plain;
use std::ops::Add;

// A squared distance, in square millimetres.
#[derive(Clone, Copy, PartialEq, Eq, PartialOrd, Ord)]
pub struct SquaredMm(pub u64);

// A length, in millimetres.
// Kept (2): document 01 keeps a squared distance and a length apart by two tuple structs; `HowFar` will have other units (M-104).
#[derive(Clone, Copy, PartialEq, Eq)]
pub struct Mm(pub u64);

// How far a box is from a point, by the measure of the map that it stands on: the number in a mark, in a record and in the
// best list. It is made of what a measure gives, and becomes that again, and nothing else.
#[derive(Clone, Copy, PartialEq, Eq, PartialOrd, Ord, Default)]
pub struct HowFar(pub u64);

impl Add for SquaredMm {
    type Output = SquaredMm;

    ghost can_add = { λ a b. a.0 + b.0 < 2 ^ 64 };

    ghost add_gives = { λ a b sum. sum.0 ≡ a.0 + b.0 };

    fn add(self, other: SquaredMm) -> SquaredMm {
        SquaredMm(self.0 + other.0)
    }
}

impl From<SquaredMm> for HowFar {
    ghost from_gives = { λ d far. far.0 ≡ d.0 };

    fn from(d: SquaredMm) -> HowFar {
        HowFar(d.0)
    }
}

impl From<HowFar> for SquaredMm {
    ghost from_gives = { λ far d. d.0 ≡ far.0 };

    fn from(far: HowFar) -> SquaredMm {
        SquaredMm(far.0)
    }
}

// A place on the floor, in millimetres.
#[derive(Clone, Copy, PartialEq, Eq)]
pub struct Point {
    pub x: i32,
    pub y: i32,
}

// From low to high on one axis, both ends included, in millimetres.
#[derive(Clone, Copy, PartialEq, Eq)]
pub struct Span {
    pub low: i32,
    pub high: i32,
}

// A box: a span on each axis.
#[derive(Clone, Copy, PartialEq, Eq)]
pub struct Bounds {
    pub x: Span,
    pub y: Span,
}

// One axis of a point and a box: where the point is, and the box's span.
#[derive(Clone, Copy, PartialEq, Eq)]
pub struct Axis {
    pub at: i32,
    pub span: Span,
}

// Why a point and a box are not measured: `reading_of` gives document 01's number and value for each case.
#[derive(Clone, Copy, PartialEq, Eq)]
pub enum OutOfRange {
    PointOutside = 1,
    BoxOutside = 2,
}

// Document 01's number of a refusal.
impl From<OutOfRange> for u32 {
    ghost from_gives = { λ e number. number ≡ refusal_number e };

    fn from(e: OutOfRange) -> u32 {
        e as u32
    }
}

// Document 01's answer number.
// Kept (2): docs/STATEMENTS.md names one for each of `measure`, `rules` and `ask`, each over its own definition.
pub fn answer_of(measured: Result<SquaredMm, OutOfRange>) -> u32
    ensures { result ≡ (reading_of measured).number }
{
    measured.map_or_else(u32::from, |_| 0)
}

// Document 01's value: 0 where the measure is refused.
pub fn value_of(measured: Result<SquaredMm, OutOfRange>) -> SquaredMm
    ensures { result.0 ≡ (reading_of measured).value }
{
    measured.unwrap_or(SquaredMm(0))
}

// MINDIST, or the refusal.
#[tactic(auto, using(crate::proofs::Answers::measured_ready))]
pub fn mindist(p: Point, b: Bounds) -> Result<SquaredMm, OutOfRange>
    ensures { reading_of result ≡ measured_by min_dist (axes_of p b) }
{
    Ok(min_over(ready(p, b)?))
}

// MINMAXDIST, or the refusal.
// Kept (2): docs/STATEMENTS.md names both, and each is one line.
#[tactic(auto, using(crate::proofs::Answers::measured_ready))]
pub fn minmaxdist(p: Point, b: Bounds) -> Result<SquaredMm, OutOfRange>
    ensures { reading_of result ≡ measured_by min_max_dist (axes_of p b) }
{
    Ok(min_max_over(ready(p, b)?))
}

// MINDIST of a point and a box that nothing refuses: for a search, which has made the tests once and asks many times.
pub fn squared_gap(p: Point, b: Bounds) -> SquaredMm
    requires { Each Ready (axes_of p b) }
    ensures { result.0 ≡ min_dist (axes_of p b) }
{
    min_over(ready_axes(axes_of(p, b)))
}
