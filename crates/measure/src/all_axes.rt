// All axes together: the refusals in their order, and the two measures as sums over the axes.
ghost use Rattle.std.specs.Prelude.{◌≡◌, Err, List, map, ℕ, IfOk, IfErr};
ghost use Rattle.measure.specs.declared.Axis.{Axis};
ghost use Rattle.measure.specs.Axis.{Ready};
ghost use Rattle.measure.specs.Axes.{Each, min_dist, min_max_dist};
ghost use Rattle.measure.specs.Answer.{axes_of, measured_by, reading_of};

use crate::one_axis::ReadyAxis;
use crate::{Axis, Bounds, OutOfRange, Point, SquaredMm};

// Who makes the list of axes.
pub fn axes_of(p: Point, b: Bounds) -> [Axis; 2]
    ensures { result ≡ axes_of p b }
{
    [Axis { at: p.x, span: b.x }, Axis { at: p.y, span: b.y }]
}

// The same, where nothing refuses them.
pub fn ready_axes(axes: [Axis; 2]) -> [ReadyAxis; 2]
    requires { Each Ready axes }
    ensures { map (λ r. r.axis) result ≡ axes }
{
    let [x, y] = axes;
    [ReadyAxis { axis: x }, ReadyAxis { axis: y }]
}

#[tactic(auto, using(crate::proofs::Range::min_small), unfolding(crate::specs::Axes::min_dist))]
pub fn min_over(axes: [ReadyAxis; 2]) -> SquaredMm
    ensures { result.0 ≡ min_dist (map (λ r. r.axis) axes) }
{
    let [x, y] = axes;
    x.min_squared() + y.min_squared()
}

// The near face on one axis and the far face on the other, each way; the smaller sum.
#[tactic(auto, using(crate::proofs::Range::near_small, crate::proofs::Range::far_small), unfolding(crate::specs::Axes::min_max_dist))]
pub fn min_max_over(axes: [ReadyAxis; 2]) -> SquaredMm
    ensures { result.0 ≡ min_max_dist (map (λ r. r.axis) axes) }
{
    let [x, y] = axes;
    let on_x = x.faces();
    let on_y = y.faces();
    (on_x.near + on_y.far).min(on_x.far + on_y.near)
}

// The refusals before the measure: the point's on any axis, then the box's on any axis.
pub fn ready(p: Point, b: Bounds) -> Result<[ReadyAxis; 2], OutOfRange>
    ensures ok { IfOk result (λ axes. map (λ r. r.axis) axes ≡ axes_of p b) }
    ensures err { IfErr result (λ e. (f : List Axis → ℕ) → measured_by f (axes_of p b) ≡ reading_of (Err e)) }
{
    let axes = axes_of(p, b);
    if !axes.iter().all(|a| a.point_in()) {
        return Err(OutOfRange::PointOutside);
    }
    if !axes.iter().all(|a| a.box_in()) {
        return Err(OutOfRange::BoxOutside);
    }
    Ok(ready_axes(axes))
}
