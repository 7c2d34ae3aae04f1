// The file floor.map, read in the folder that a program is run in. The programs call it; what its bytes mean is said
// elsewhere, and what is read is run and not proved.

#![tactic(auto)]

ghost use Rattle.std.specs.Prelude.{take};
ghost use Rattle.std.specs.Counts.{IsPrefixLen};
ghost use Rattle.std.specs.Io.KnownBytes.{Consumes};

use std::fs::{File, Files};
use std::io::Read;

// One byte more than the longest map has: enough to see that a file is too long.
pub const MAP_ROOM: usize = 50185;

// The bytes of floor.map, none where it is missing or cannot be read: how many stand at the buffer's start.
// Kept (1): document 01 has a missing file count as 0 bytes.
// Kept (6): as `read_full`.
pub fn read_map<R: Files>(files: &R, map: &mut [u8]) -> usize
    ensures { IsPrefixLen result map.new }
{
    match File::open(files, "floor.map") {
        Ok(mut file) => read_full(&mut file, map),
        Err(_) => 0,
    }
}

// Reads until the buffer is full, the input ends or a read fails, and returns how many bytes stand at the buffer's start: the
// input's next ones, as far as these are known.
// Kept (6): the second clause speaks of the buffer after the call, which a slice handed back would still lend.
pub fn read_full<R: Read>(input: &mut R, buffer: &mut [u8]) -> usize
    ensures within { IsPrefixLen result buffer.new }
    ensures bytes { Consumes (R.remaining input.old) (R.remaining input.new) (take result buffer.new) }
{
    // Kept (3): through `rest = &mut rest[n..]` no invariant sees what is filled, and no method of `Read` says how far it came.
    let mut done = 0;
    while done < buffer.len() {
        match input.read(&mut buffer[done..]) {
            Ok(0) | Err(_) => break,
            Ok(n) => done += n,
        }
    }
    done
}
