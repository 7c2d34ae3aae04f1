// A reply as the text of document 01: two lines for its number and how many bays were found, and a line for each.
// `text` calls it, with the room that a reply was given; nothing here knows of maps or questions.
// `print_reply` has a `requires`: a reply never finds more than 100 bays, and that many lines fit the buffer.

#![tactic(auto)]

mod output;
mod records;

ghost use Rattle.std.specs.Prelude.{◌*◌, ◌≤◌, length};
ghost use Rattle.record.specs.Record.{record_size, records_in};
ghost use Rattle.printer.specs.Printed.{printed};
ghost use Rattle.printer.specs.Wrote.{Wrote};

use output::Output;

// How many bytes are kept for a whole output.
pub const OUTPUT_ROOM: usize = 20480;

// Writes the reply from the start of `out`, and answers its length. What comes after it in `out` stays as it was.
// Kept (6): a buffer and its length, since nothing is allocated and docs/STATEMENTS.md names this clause, which speaks of the
// room and its count, too; inside, the output and its length are one `Output`.
pub fn print_reply(out: &mut [u8; OUTPUT_ROOM], number: u32, found: usize, room: &[u8]) -> usize
    requires { (found ≤ 100) × (record_size * found ≤ length room.now) }
    ensures { Wrote out.old out.new (printed number (records_in found room.now)) 0 result }
{
    let mut output = Output::at_start(out);
    output.head(b"answer=", u64::from(number));
    output.head(b"found=", found as u64);
    output.record_lines(room, found);
    output.end
}
