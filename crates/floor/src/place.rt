// The fields of a slot by the place where it begins, one by one: for `FloorMap`, and for what keeps places and not numbers.
// All of the slot is there; `slot_place` gives such a place.
ghost use Rattle.std.specs.Prelude.{◌≡◌, ◌+◌, ◌≤◌, length};
ghost use Rattle.floor.specs.Layout.{axis_count, slot_size};
ghost use Rattle.floor.specs.View.{HasSpan, slot_span, slot_ref, slot_zone, slot_zeros};

use crate::layout::{REF_FROM, SPAN_SIZE, ZONE_FROM};
use measure::Span;
use words::Word;

// The span on an axis.
pub fn span_at(map: &[u8], place: usize, axis: usize) -> Span
    requires { HasSpan map.now place axis }
    ensures { result ≡ slot_span map.now place axis }
{
    let at = place + SPAN_SIZE * axis;
    Span {
        low: i32::read(map, at),
        high: i32::read(map, at + 4),
    }
}

pub fn ref_at(map: &[u8], place: usize) -> u32
    requires { place + slot_size axis_count ≤ length map.now }
    ensures { result ≡ slot_ref map.now place }
{
    u32::read(map, place + REF_FROM)
}

#[tactic(auto, using(words::proofs::Reading::le_byte))]
pub fn zone_at(map: &[u8], place: usize) -> u8
    requires { place + slot_size axis_count ≤ length map.now }
    ensures { result ≡ slot_zone map.now place }
{
    map[place + ZONE_FROM]
}

// Whether the three bytes after the zone are zero.
pub fn is_clear(map: &[u8], place: usize) -> bool
    requires { place + slot_size axis_count ≤ length map.now }
    ensures { result ≡ slot_zeros map.now place }
{
    u32::read(map, place + ZONE_FROM) / 256 == 0
}
