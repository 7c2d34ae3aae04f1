// The maps that the figures speak of, put into zeros with room for three nodes. The root is node 0. What the figures print
// of these maps shows that they are right.
ghost use Rattle.std.specs.Prelude.{◌≤◌};

use floor::{Slot, put_header, put_node};
use measure::{Bounds, Span};

// Room for three nodes.
const ROOM: usize = 600;

// A map of so many nodes.
// Kept (6): no heap, so the room holds the longest of these maps, and `nodes` says how much of it is the map.
#[derive(Drop)]
pub struct Map {
    room: [u8; ROOM],
    nodes: usize,
    ghost fits: { nodes ≤ 3 },
}

impl Map {
    pub fn bytes(&self) -> &[u8] {
        &self.room[..floor::size_for(self.nodes)]
    }
}

// A root that is a leaf with no bay.
pub fn empty() -> Map {
    let mut room = [0u8; ROOM];
    put_header(&mut room, 1, 0, 1);
    Map { room, nodes: 1 }
}

// Document 01's example map.
pub fn example() -> Map {
    let mut room = [0u8; ROOM];
    put_header(&mut room, 1, 0, 1);
    put_node(&mut room, 0, 0, 7, example_leaf());
    Map { room, nodes: 1 }
}

// An inner root with one slot, whose box is the leaf's.
pub fn one_slot() -> Map {
    let mut room = [0u8; ROOM];
    put_header(&mut room, 2, 0, 2);
    let mut slots = blanks();
    slots[0] = entry(from(0, 20), from(0, 6), 1, 0);
    put_node(&mut room, 0, 1, 1, slots);
    put_node(&mut room, 1, 0, 7, example_leaf());
    Map { room, nodes: 2 }
}

// An inner root with two leaves. The far one's box ends at an edge, which is 37 where the box is tight.
pub fn two_leaves(edge: i32) -> Map {
    let mut room = [0u8; ROOM];
    put_header(&mut room, 3, 0, 2);
    let mut slots = blanks();
    slots[0] = entry(from(0, 20), from(0, 6), 1, 0);
    slots[1] = entry(from(30, edge), from(0, 5), 2, 0);
    put_node(&mut room, 0, 1, 3, slots);
    put_node(&mut room, 1, 0, 7, example_leaf());
    put_node(&mut room, 2, 0, 7, far_leaf());
    Map { room, nodes: 3 }
}

// The example map's three bays.
fn example_leaf() -> [Slot; 8] {
    let mut slots = blanks();
    slots[0] = entry(from(10, 20), from(0, 5), 7, 3);
    slots[1] = entry(from(0, 2), from(0, 2), 4, 3);
    slots[2] = entry(from(5, 6), from(5, 6), 9, 5);
    slots
}

// Three bays from x = 30 to x = 37.
fn far_leaf() -> [Slot; 8] {
    let mut slots = blanks();
    slots[0] = entry(from(30, 31), from(0, 1), 1, 3);
    slots[1] = entry(from(33, 34), from(2, 3), 2, 3);
    slots[2] = entry(from(36, 37), from(4, 5), 3, 3);
    slots
}

// Eight slots that are not filled.
fn blanks() -> [Slot; 8] {
    [entry(from(0, 0), from(0, 0), 0, 0); 8]
}

fn entry(x: Span, y: Span, reference: u32, zone: u8) -> Slot {
    Slot {
        bounds: Bounds { x, y },
        reference,
        zone,
        clear: true,
    }
}

fn from(low: i32, high: i32) -> Span {
    Span { low, high }
}
