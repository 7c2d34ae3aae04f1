// A page in the answer room: a record for each bay, and zeros where there is none.
// What is here has a `requires`: whoever calls it has checked the map and the question, and tested the room's length.
ghost use Rattle.std.specs.Prelude.{◌≡◌, ◌*◌, ◌<◌, ◌≤◌, length};
ghost use Rattle.floor.specs.Seen.{seen};
ghost use Rattle.record.specs.Record.{record_size, room_with};
ghost use Rattle.nearest.specs.Best.{slot_in, Carried};
ghost use Rattle.ask.specs.Told.{record_of, told_of};
ghost use Rattle.ask.specs.Reply.{Answerable, PageFilled};

use floor::FloorMap;
use nearest::{Best, Key, nearest};
use question::Question;
use record::{Record, put_record};

// What is told of the bay of a key: the slot is read once.
// Kept (5): the list holds bare numbers (`keys_of`), so a key with its map would be made anew at each reading, here and in
// `nearest`.
fn record_of(map: &FloorMap, key: Key) -> Record
    requires { slot_in key.0 < 8 * (seen map.now).count }
    ensures { result ≡ record_of (seen map.now) key.0 }
{
    let slot = map.slot(key.slot());
    Record {
        bay: slot.reference,
        zone: slot.zone,
        far: key.far(),
    }
}

fn write_page(map: &FloorMap, best: &Best, k: usize, room: &mut [u8])
    requires carried { Carried (seen map.now) k best.now }
    requires fits { record_size * k ≤ length room.old }
    ensures { room.new ≡ room_with k (told_of (seen map.now) best.now) room.old }
{
    for i in 0..k {
        let r = if i < best.len {
            record_of(map, Key(best.keys[i]))
        } else {
            Record::default()
        };
        put_record(room, i, r);
    }
}

// The page that a question asks for, in the room, and how many bays it has.
pub fn fill_page(map: &[u8], q: Question, room: &mut [u8]) -> usize
    requires { Answerable map.now q (length room.old) }
    ensures { PageFilled map.now q room.old room.new result }
{
    let map = FloorMap { bytes: map };
    let best = nearest(&map, q);
    write_page(&map, &best, q.k, room);
    best.len
}
