// Rule 12: levels, zero bytes, and what stands in filled and unfilled slots.
ghost use Rattle.std.specs.Prelude.{◌≡◌, ◌&&◌, ◌*◌, ◌/◌, ◌<◌, ltb};
ghost use Rattle.floor.specs.Seen.{seen};
ghost use Rattle.floor.specs.View.{slot_of};
ghost use Rattle.rules.specs.Form.{refer_ok, entry_ok, slot_ok, form_ok};
ghost use Rattle.rules.specs.Leaning.{blank_slot};

use floor::{FloorMap, Slot};
use measure::{Bounds, Span};

// What a filled slot refers to.
// Kept (5): j goes with its slot, which is read once, before the branch on it: read after it, the form rule took 0.20 s for
// 20,000 checks, and not 0.14 s; a type for both would be made at every slot.
#[tactic(auto, unfolding(crate::specs::Form::refer_ok))]
fn refer_ok(map: &FloorMap, j: usize, s: Slot) -> bool
    requires { (j < 8 * (seen map.now).count) × (s ≡ slot_of (seen map.now) j) }
    ensures { result ≡ refer_ok (seen map.now) j }
{
    let reference = s.reference;
    let zone = s.zone;
    if map.level(j / 8) == 0 {
        return (reference != 0) & (zone < 32);
    }
    ((reference as usize) < map.count()) & (zone == 0)
}

#[tactic(auto, unfolding(crate::specs::Form::entry_ok))]
fn entry_ok(map: &FloorMap, j: usize, s: Slot) -> bool
    requires { (j < 8 * (seen map.now).count) × (s ≡ slot_of (seen map.now) j) }
    ensures { result ≡ entry_ok (seen map.now) j }
{
    let x = s.bounds.x;
    let y = s.bounds.y;
    x.in_order() & y.in_order() & refer_ok(map, j, s) & s.clear
}

#[tactic(auto, using(crate::proofs::Spans::same_eq), unfolding(crate::specs::Leaning::blank_slot, crate::specs::Spans::same_span))]
fn blank_ok(s: Slot) -> bool
    ensures { result ≡ blank_slot s }
{
    let zero = Span { low: 0, high: 0 };
    let none = Bounds { x: zero, y: zero };
    (s.bounds == none) & (s.reference == 0) & (s.zone == 0) & s.clear
}

#[tactic(auto, unfolding(crate::specs::Form::slot_ok, crate::specs::Form::blank_ok, crate::specs::Leaning::blank_slot))]
fn slot_ok(map: &FloorMap, j: usize) -> bool
    requires { j < 8 * (seen map.now).count }
    ensures { result ≡ slot_ok (seen map.now) j }
{
    let s = map.slot(j);
    if map.is_filled(j) {
        return entry_ok(map, j, s);
    }
    blank_ok(s)
}

fn node_ok(map: &FloorMap, n: usize) -> bool
    requires { n < (seen map.now).count }
    ensures { result ≡ (ltb ((seen map.now).level n) (seen map.now).height
        && (seen map.now).node_clear n) }
{
    let node = map.node(n);
    let height = map.height();
    (node.level < height) & node.clear
}

// The rule, of node n.
#[tactic(auto, unfolding(crate::specs::Form::form_ok))]
pub fn form_ok(map: &FloorMap, n: usize) -> bool
    requires { n < (seen map.now).count }
    ensures { result ≡ form_ok (seen map.now) n }
{
    node_ok(map, n) && (0..8).all(|i| slot_ok(map, 8 * n + i))
}
