// A record of an answer room: what is told of one bay, as bytes, written and read back. The reply writes records; whoever
// asked reads them. Nothing here knows of maps or questions.
// Its functions have a `requires`: whoever writes or reads has tested the room's length once, before the first record.

#![tactic(auto)]

ghost use Rattle.std.specs.Prelude.{◌≡◌, ◌+◌, ◌*◌, ◌≤◌, length, drop};
ghost use Rattle.std.proofs.lemmas.List.Edits.{sets};
ghost use Rattle.record.specs.Record.{record_size, record_bytes, record_in};

use measure::HowFar;
use words::Word;

// How many bytes a record has.
pub const SIZE: usize = 16;

// What is told of a bay: its number, its zone, and how far it is.
#[derive(Clone, Copy, PartialEq, Eq, Default)]
pub struct Record {
    pub bay: u32,
    pub zone: u8,
    pub far: HowFar,
}

// Writes record i of a room.
pub fn put_record(room: &mut [u8], i: usize, r: Record)
    requires { record_size * i + record_size ≤ length room.old }
    ensures { room.new ≡ sets room.old (record_size * i) (record_bytes r) }
{
    let at = SIZE * i;
    let zone = u32::from(r.zone);
    r.bay.put(room, at);
    zone.put(room, at + 4);
    r.far.0.put(room, at + 8);
}

// Reads record i of a room.
pub fn record_at(room: &[u8], i: usize) -> Record
    requires { record_size * i + record_size ≤ length room.now }
    ensures { result ≡ record_in (drop (record_size * i) room.now) }
{
    let at = SIZE * i;
    Record {
        bay: u32::read(room, at),
        zone: room[at + 4],
        far: HowFar(u64::read(room, at + 8)),
    }
}
