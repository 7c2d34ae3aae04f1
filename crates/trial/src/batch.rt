// The batch's bytes, which come from standard input.
use crate::command::Command;
use crate::stop::Stop;
use std::io::Read;

// As many of the next bytes as there is room for. Where they are not all there, the run is over.
pub fn read_all(batch: &mut impl Read, bytes: &mut [u8]) -> Result<(), Stop> {
    batch.read_exact(bytes).map_err(|_| Stop::Over)
}

// How many commands the batch has.
pub fn read_count(batch: &mut impl Read) -> Result<u32, Stop> {
    let mut bytes = [0u8; 4];
    read_all(batch, &mut bytes)?;
    Ok(u32::from_le_bytes(bytes))
}

pub fn read_command(batch: &mut impl Read) -> Result<Command, Stop> {
    let mut head = [0u8; 32];
    read_all(batch, &mut head)?;
    Command::try_from(head)
}
