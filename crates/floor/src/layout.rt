// Where a map's fields lie. All of it follows from the number of axes; nothing else in the code has an offset.
ghost use Rattle.std.specs.Prelude.{◌≡◌, ◌+◌, ◌*◌, ◌<◌};
ghost use Rattle.floor.specs.Layout.{node_at, slot_at, map_size};

const AXES: usize = 2;

pub const HEADER_SIZE: usize = 8;

// A node before its slots, and a span.
const HEAD_SIZE: usize = 4;

pub const SPAN_SIZE: usize = 8;

// In a slot: the reference after the spans, then the zone with its three zero bytes.
pub const REF_FROM: usize = SPAN_SIZE * AXES;

pub const ZONE_FROM: usize = REF_FROM + 4;

const SLOT_SIZE: usize = ZONE_FROM + 4;

const NODE_SIZE: usize = HEAD_SIZE + 8 * SLOT_SIZE;

// How long a map of n nodes is.
pub fn size_for(n: usize) -> usize
    requires { n < 65536 }
    ensures { result ≡ map_size n }
{
    HEADER_SIZE + NODE_SIZE * n
}

// Where node n begins: where a map of n nodes ends.
pub fn node_at(n: usize) -> usize
    requires { n < 256 }
    ensures { result ≡ node_at n }
{
    size_for(n)
}

// Where slot i of node n begins: for a loop over a node's slots, which need not divide.
pub fn slot_place(n: usize, i: usize) -> usize
    requires { (n < 256) × (i < 8) }
    ensures { result ≡ slot_at (8 * n + i) }
{
    node_at(n) + HEAD_SIZE + SLOT_SIZE * i
}

// Where slot j begins.
pub fn slot_at(j: usize) -> usize
    requires { j < 2048 }
    ensures { result ≡ slot_at j }
{
    slot_place(j / 8, j % 8)
}
