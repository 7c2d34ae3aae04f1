// How far the slots of an accepted map are from a point, by the map's measure: a slot is measured here, and nowhere else.
ghost use Rattle.std.specs.Prelude.{◌≡◌, true, ◌*◌, ◌<◌};
ghost use Rattle.measure.specs.Axis.{Ready};
ghost use Rattle.measure.specs.Axes.{Each, min_dist};
ghost use Rattle.measure.specs.Answer.{axes_of};
ghost use Rattle.floor.specs.Seen.{seen};
ghost use Rattle.floor.specs.View.{filled};
ghost use Rattle.nearest.specs.Sought.{away};

use crate::Seek;
use measure::{Bounds, HowFar, Point, squared_gap};

// How far a box is that no measure refuses.
pub fn far_to(p: Point, b: Bounds) -> HowFar
    requires { Each Ready (axes_of p b) }
    ensures { result.0 ≡ min_dist (axes_of p b) }
{
    HowFar::from(squared_gap(p, b))
}

impl<'a> Seek<'a> {
    // How far the box of a filled slot is.
    pub fn how_far(&self, j: usize) -> HowFar
        requires inside { j < 8 * (seen self.now.map).count }
        requires there { filled (seen self.now.map) j ≡ true }
        ensures { result.0 ≡ away self.now j }
    {
        far_to(self.q.from, self.map.bounds(j))
    }
}
