// The writing side of a map: a slot, a whole node, the header; whatever is written, the zero bytes with it. Its functions
// have a `requires`, since whoever writes a map has tested once that the bytes are there.
ghost use Rattle.std.specs.Prelude.{◌≡◌, ◌+◌, ◌≤◌, length};
ghost use Rattle.std.proofs.lemmas.List.Edits.{sets};
ghost use Rattle.floor.specs.Layout.{axis_count, header_size, span_size, slot_size, node_at};
ghost use Rattle.floor.specs.Written.{span_bytes, slot_bytes, head_bytes, whole, HasSlot, HasNode, put_slot, put_node, put_header};

use crate::Slot;
use crate::layout::{REF_FROM, SPAN_SIZE, ZONE_FROM, node_at, slot_at, slot_place};
use measure::Span;
use words::Word;

// Low, then high.
#[tactic(auto, using(crate::proofs::Laid::span_laid))]
fn put_span(map: &mut [u8], at: usize, s: Span)
    requires { at + span_size ≤ length map.old }
    ensures { map.new ≡ sets map.old at (span_bytes s) }
{
    s.low.put(map, at);
    s.high.put(map, at + 4);
}

// A slot, from a place on.
#[tactic(auto, using(crate::proofs::Laid::slot_laid))]
fn put_at(map: &mut [u8], place: usize, s: Slot)
    requires { place + slot_size axis_count ≤ length map.old }
    ensures { map.new ≡ sets map.old place (slot_bytes s) }
{
    let x = s.bounds.x;
    let y = s.bounds.y;
    let zone = u32::from(s.zone);
    put_span(map, place, x);
    put_span(map, place + SPAN_SIZE, y);
    s.reference.put(map, place + REF_FROM);
    zone.put(map, place + ZONE_FROM);
}

// Slot j.
pub fn put_slot(map: &mut [u8], j: usize, s: Slot)
    requires { HasSlot map.old j }
    ensures { map.new ≡ put_slot map.old j s }
{
    put_at(map, slot_at(j), s);
}

// The level and the occupancy of node n.
fn put_head(map: &mut [u8], n: usize, level: u8, occupied: u8)
    requires { HasNode map.old n }
    ensures { map.new ≡ sets map.old (node_at n) (head_bytes level occupied) }
{
    let at = node_at(n);
    map[at] = level;
    map[at + 1] = occupied;
    map[at + 2] = 0;
    map[at + 3] = 0;
}

// All of node n.
// Kept (5): a `Node` and a `Header` have `clear`, which a writer does not choose, so this and `put_header` take the fields.
pub fn put_node(map: &mut [u8], n: usize, level: u8, occupied: u8, slots: [Slot; 8])
    requires { HasNode map.old n }
    ensures { map.new ≡ put_node map.old n (whole level occupied slots) }
{
    put_head(map, n, level, occupied);
    for i in 0..8 {
        put_at(map, slot_place(n, i), slots[i]);
    }
}

#[tactic(auto, using(crate::proofs::Laid::header_laid))]
pub fn put_header(map: &mut [u8], count: u16, root: u16, height: u8)
    requires { header_size ≤ length map.old }
    ensures { map.new ≡ put_header map.old count root height }
{
    count.put(map, 0);
    root.put(map, 2);
    u32::from(height).put(map, 4);
}
