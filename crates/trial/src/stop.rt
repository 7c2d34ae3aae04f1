// Why a run ends before its last command.
use std::io;

#[derive(Drop)]
pub enum Stop {
    // The batch has no such command, or no more bytes.
    Over,
    // What was to be written could not be.
    Unwritten(io::Error),
}

impl From<io::Error> for Stop {
    fn from(error: io::Error) -> Stop {
        Stop::Unwritten(error)
    }
}
