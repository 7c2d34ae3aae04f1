// Rule 15: a slot above the leaves carries the smallest box round the filled boxes of the node that it names.
ghost use Rattle.std.specs.Prelude.{◌≡◌, false, ◌*◌, ◌/◌, ◌<◌};
ghost use Rattle.floor.specs.Seen.{seen};
ghost use Rattle.floor.specs.View.{leaf};
ghost use Rattle.rules.specs.Boxes.{around, hull_of, grown_of, tight_ok, boxes_ok};

use crate::links::LinkedMap;
use floor::FloorMap;
use measure::{Bounds, Span};

// The smallest span round two.
fn span_around(s: Span, t: Span) -> Span
    ensures { result ≡ around s t }
{
    Span {
        low: s.low.min(t.low),
        high: s.high.max(t.high),
    }
}

// A box, grown round slot j where that is filled.
fn grown(map: &FloorMap, j: usize, hull: Bounds) -> Bounds
    requires { j < 8 * (seen map.now).count }
    ensures { result ≡ grown_of (seen map.now) j hull }
{
    if !map.is_filled(j) {
        return hull;
    }
    let b = map.bounds(j);
    let x = span_around(hull.x, b.x);
    let y = span_around(hull.y, b.y);
    Bounds { x, y }
}

// The smallest box round the filled slots of a node.
#[tactic(auto, unfolding(crate::specs::Boxes::hull))]
fn hull_of(map: &FloorMap, n: usize) -> Bounds
    requires { n < (seen map.now).count }
    ensures { result ≡ hull_of (seen map.now) n 8 }
{
    let none = Span {
        low: i32::MAX,
        high: i32::MIN,
    };
    let mut hull = Bounds { x: none, y: none };
    for i in 0..8 {
        hull = grown(map, 8 * n + i, hull);
    }
    hull
}

// A filled slot of a node above the leaves carries that box.
#[tactic(auto, using(crate::proofs::Spans::same_eq, crate::proofs::Spans::outer_same), unfolding(crate::specs::Boxes::tight_ok, crate::specs::Spans::same_span))]
fn tight_ok(map: &LinkedMap, j: usize) -> bool
    requires { (j < 8 * (seen map.now.floor).count)
        × (leaf (seen map.now.floor) (j / 8) ≡ false) }
    ensures { result ≡ tight_ok (seen map.now.floor) j }
{
    let Some(child) = map.child(j) else {
        return true;
    };
    let b = map.floor.bounds(j);
    let hull = hull_of(&map.floor, child);
    b == hull
}

// The rule, of node n.
#[tactic(auto, unfolding(crate::specs::Boxes::boxes_ok))]
pub fn boxes_ok(map: &LinkedMap, n: usize) -> bool
    requires { n < (seen map.now.floor).count }
    ensures { result ≡ boxes_ok (seen map.now.floor) n }
{
    map.floor.level(n) == 0 || (0..8).all(|i| tight_ok(map, 8 * n + i))
}
