// The bays' slots in the order of their numbers.
ghost use Rattle.std.specs.Prelude.{◌≡◌, ◌*◌, ◌<◌, ◌≤◌, IfSome};
ghost use Rattle.floor.specs.View.{view_of};
ghost use Rattle.bays.specs.Certificate.{InOrder, entry_from};

use crate::certificate::{Index, entry};
use crate::is_bay;
use floor::FloorMap;

// A bay number, and the entry of a slot that has it.
#[derive(Clone, Copy, Default)]
pub struct Key {
    pub number: u32,
    pub entry: u16,
}

// `places` has, for an entry, where its key stands: a search looks there before it halves. It is tested, and not believed.
#[derive(Drop)]
pub struct Sorted<'a> {
    pub keys: &'a [Key],
    places: [u16; 2049],
    ghost in_order: { InOrder keys.now },
}

// Puts every bay's key at the front; how many there are.
pub fn list(map: &FloorMap, keys: &mut [Key; 2048]) -> usize
    ensures { result ≤ 2048 }
{
    // Kept (6): no heap, so the keys lie in an array; the caller goes on with the slice of those that were put in.
    let mut n = 0;
    for j in 0..8 * map.count() {
        if is_bay(map, j) {
            keys[n] = Key {
                number: map.reference(j),
                entry: entry(j),
            };
            n += 1;
        }
    }
    n
}

// Where the key of each entry stands.
fn places_of(keys: &[Key]) -> [u16; 2049] {
    let mut places = [0u16; 2049];
    for (i, key) in keys.iter().enumerate() {
        if let Some(place) = places.get_mut(usize::from(key.entry)) {
            *place = (i % 65536) as u16;
        }
    }
    places
}

impl<'a> Sorted<'a> {
    pub fn of(keys: &'a mut [Key]) -> Sorted<'a> {
        keys.sort_unstable_by_key(|k| k.number);
        let places = places_of(keys);
        Sorted { keys, places }
    }

    // The entry that the first key has whose number is b, where that key is the one of entry `own`.
    fn hinted(&self, b: u32, own: u16) -> Option<u16>
        ensures { IfSome result (λ e. e ≡ entry_from self.now.keys.now b) }
    {
        let place = usize::from(*self.places.get(usize::from(own))?);
        let key = self.keys.get(place)?;
        if key.number != b {
            return None;
        }
        if 0 < place && b <= self.keys[place - 1].number {
            return None;
        }
        Some(key.entry)
    }

    // The same by halves, whichever key that is.
    fn halved(&self, b: u32) -> u16
        ensures { result ≡ entry_from self.now.keys.now b }
    {
        let at = self.keys.partition_point(|k| k.number < b);
        match self.keys.get(at) {
            Some(k) => k.entry,
            None => 0,
        }
    }
}

impl<'a> Index for Sorted<'a> {
    ghost find_of = { λ it _ b. entry_from it.keys.now b };

    fn find(&self, _map: &FloorMap, b: u32, own: u16) -> u16
        ensures { result ≡ entry_from self.now.keys.now b }
    {
        match self.hinted(b, own) {
            Some(entry) => entry,
            None => self.halved(b),
        }
    }
}
