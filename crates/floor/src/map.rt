// A floor map that may be read: its fields by the number of a node, and by the flat number of a slot.
ghost use Rattle.std.specs.Prelude.{◌≡◌, ◌+◌, ◌*◌, ◌<◌, ◌≤◌, length};
ghost use Rattle.floor.specs.Seen.{seen};
ghost use Rattle.floor.specs.Layout.{axis_count, node_size, slot_size, node_at, slot_at};
ghost use Rattle.floor.specs.View.{filled, bounds_of, slot_of, HeaderRead, NodeRead};

use crate::layout::{node_at, slot_at};
use crate::place::{is_clear, ref_at, span_at, zone_at};
use crate::{FloorMap, Header, Node, Slot, header_at};
use measure::Bounds;
use words::Word;

// Kept (5): `n` and `j` are below the map's nodes and slots in each clause, as an index is below a slice's length; a type for
// a slot with its map would be made anew at every turn of a loop.
impl<'a> FloorMap<'a> {
    #[tactic(auto, unfolding(crate::specs::View::view_of))]
    pub fn header(&self) -> Header
        ensures { HeaderRead (seen self.now) result }
    {
        header_at(self.bytes)
    }

    pub fn count(&self) -> usize
        ensures { result ≡ (seen self.now).count }
    {
        self.header().count
    }

    pub fn root(&self) -> usize
        ensures { result ≡ (seen self.now).root }
    {
        self.header().root
    }

    pub fn height(&self) -> u8
        ensures { result ≡ (seen self.now).height }
    {
        self.header().height
    }

    // Where node n begins; all of it is there.
    #[tactic(auto, unfolding(crate::specs::View::view_of))]
    fn head(&self, n: usize) -> usize
        requires { n < (seen self.now).count }
        ensures is { result ≡ node_at n }
        ensures inside { result + node_size axis_count ≤ length self.now.bytes.now }
    {
        node_at(n)
    }

    #[tactic(auto, using(words::proofs::Reading::le_byte), unfolding(crate::specs::View::view_of))]
    pub fn node(&self, n: usize) -> Node
        requires { n < (seen self.now).count }
        ensures { NodeRead (seen self.now) n result }
    {
        let at = self.head(n);
        Node {
            level: self.bytes[at],
            occupied: self.bytes[at + 1],
            clear: u16::read(self.bytes, at + 2) == 0,
        }
    }

    pub fn level(&self, n: usize) -> u8
        requires { n < (seen self.now).count }
        ensures { result ≡ (seen self.now).level n }
    {
        self.node(n).level
    }

    #[tactic(auto, unfolding(crate::specs::View::filled))]
    pub fn is_filled(&self, j: usize) -> bool
        requires { j < 8 * (seen self.now).count }
        ensures { result ≡ filled (seen self.now) j }
    {
        let i = j % 8;
        (self.node(j / 8).occupied >> i) % 2 == 1
    }

    // Where slot j begins; all of it is there.
    #[tactic(auto, unfolding(crate::specs::View::view_of))]
    fn place(&self, j: usize) -> usize
        requires { j < 8 * (seen self.now).count }
        ensures is { result ≡ slot_at j }
        ensures inside { result + slot_size axis_count ≤ length self.now.bytes.now }
    {
        slot_at(j)
    }

    #[tactic(auto, unfolding(crate::specs::View::view_of))]
    pub fn bounds(&self, j: usize) -> Bounds
        requires { j < 8 * (seen self.now).count }
        ensures { result ≡ bounds_of (seen self.now) j }
    {
        let at = self.place(j);
        Bounds {
            x: span_at(self.bytes, at, 0),
            y: span_at(self.bytes, at, 1),
        }
    }

    #[tactic(auto, unfolding(crate::specs::View::view_of))]
    pub fn reference(&self, j: usize) -> u32
        requires { j < 8 * (seen self.now).count }
        ensures { result ≡ (seen self.now).ref j }
    {
        ref_at(self.bytes, self.place(j))
    }

    // All of a slot, each field read once.
    #[tactic(auto, unfolding(crate::specs::View::view_of))]
    pub fn slot(&self, j: usize) -> Slot
        requires { j < 8 * (seen self.now).count }
        ensures { result ≡ slot_of (seen self.now) j }
    {
        let at = self.place(j);
        Slot {
            bounds: self.bounds(j),
            reference: ref_at(self.bytes, at),
            zone: zone_at(self.bytes, at),
            clear: is_clear(self.bytes, at),
        }
    }
}
