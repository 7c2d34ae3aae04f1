// The bytes of a floor map as a view: the header's fields, a node's by its number, a slot's by its flat number
// j = 8 · node + i. Nothing outside this crate knows an offset. The map check and the search read maps through it.
// A `FloorMap` is bytes of which the header rule has shown that every field that they count is there.
// Its functions have a `requires`: a node or a slot is one that a map has, and the bytes that are read or written are there.

#![tactic(auto)]

mod layout;
mod map;
mod place;
mod write;

ghost use Rattle.std.specs.Prelude.{◌<◌, ◌≤◌, length, MatchOption};
ghost use Rattle.floor.specs.Layout.{header_size};
ghost use Rattle.floor.specs.View.{view_of, Shaped, HeaderRead};

use layout::HEADER_SIZE;
pub use layout::{size_for, slot_place};
use measure::Bounds;
pub use place::{ref_at, span_at, zone_at};
use words::Word;
pub use write::{put_header, put_node, put_slot};

// Bytes of which the header rule has been tried: every node that the header counts is there, and the root is one.
#[derive(Clone, Copy)]
pub struct FloorMap<'a> {
    pub bytes: &'a [u8],
    ghost shaped: { Shaped (view_of bytes.now) },
}

// What stands in a slot, filled or not.
#[derive(Clone, Copy)]
pub struct Slot {
    pub bounds: Bounds,
    pub reference: u32,
    pub zone: u8,
    pub clear: bool,
}

// The header's fields.
#[derive(Clone, Copy)]
pub struct Header {
    pub count: usize,
    pub root: usize,
    pub height: u8,
    pub clear: bool,
}

// A node's fields before its slots.
#[derive(Clone, Copy)]
pub struct Node {
    pub level: u8,
    pub occupied: u8,
    pub clear: bool,
}

// The header's fields, where its bytes are there.
pub fn header_at(map: &[u8]) -> Header
    requires { header_size ≤ length map.now }
    ensures { HeaderRead (view_of map.now) result }
{
    Header {
        count: usize::from(u16::read(map, 0)),
        root: usize::from(u16::read(map, 2)),
        height: map[4],
        clear: u32::read(map, 4) / 256 == 0,
    }
}

// The header's fields, whatever they say, if there are bytes enough.
pub fn read_header(map: &[u8]) -> Option<Header>
    ensures { MatchOption result
        (length map.now < header_size)
        (λ h. (header_size ≤ length map.now) × HeaderRead (view_of map.now) h) }
{
    if map.len() < HEADER_SIZE {
        return None;
    }
    Some(header_at(map))
}
