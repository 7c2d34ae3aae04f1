// One question as text in, one answer as text out: the whole meaning of the program `nearby`, which only reads and
// writes. Anyone may call it; it has no `requires`.

#![tactic(auto)]

ghost use Rattle.printer.specs.Wrote.{Wrote};
ghost use Rattle.text.specs.Text.{answer_text};

use ask::{ask, found_in, number_of};
use printer::{OUTPUT_ROOM, print_reply};
use reader::read_question;

// How many bytes the answer room has.
const ROOM: usize = 2800;

// Writes the answer to the start of `out`, and gives its length. What comes after it in `out` stays as it was.
// Kept (6): the caller lends the buffer, since nothing is allocated; docs/STATEMENTS.md names this function and its clause.
#[tactic(auto, using(ask::proofs::Answers::found_few), unfolding(crate::specs::Text::answer_text, record::specs::Record::records_in))]
pub fn answer_text(map: &[u8], input: &[u8], out: &mut [u8; OUTPUT_ROOM]) -> usize
    ensures { Wrote out.old out.new (answer_text map.now input.now) 0 result }
{
    let mut room = [0u8; ROOM];
    match read_question(input) {
        Some(q) => {
            let answer = ask(map, q, &mut room);
            print_reply(out, number_of(answer), found_in(answer), &room)
        }
        // Kept (1): document 01's number of a text that is no question is printed as it is, and handed to nobody.
        None => print_reply(out, 6, 0, &room),
    }
}
