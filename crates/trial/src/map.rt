// A map that is kept from one command to the next, in room for 65,536 bytes.
ghost use Rattle.std.specs.Prelude.{◌≤◌};

use crate::batch::read_all;
use crate::command::Load;
use crate::stop::Stop;
use std::io::Read;

// Kept (6): no heap; a load sets the length apart from the bytes, so a slice cannot stand for both; the ghost field ties them.
#[derive(Drop)]
pub struct Map {
    bytes: [u8; 65536],
    length: usize,
    ghost fits: { length ≤ 65536 },
}

impl Map {
    pub fn new() -> Map {
        Map {
            bytes: [0; 65536],
            length: 0,
        }
    }

    pub fn bytes(&self) -> &[u8] {
        &self.bytes[..self.length]
    }

    pub fn load(&mut self, batch: &mut impl Read, load: Load) -> Result<(), Stop> {
        let length = load.length as usize;
        if length > self.bytes.len() {
            return Err(Stop::Over);
        }
        let place = load.place as usize;
        let end = place + load.count as usize;
        let bytes = self.bytes.get_mut(place..end).ok_or(Stop::Over)?;
        read_all(batch, bytes)?;
        self.length = length;
        Ok(())
    }
}
