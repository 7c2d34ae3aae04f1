// Reads a question's text: the lines of document 01's `nearby`, each a key, a decimal number and a newline.
// A program that is asked in text calls this; `read_question` is for anyone, and has no `requires`.

#![tactic(auto)]

mod fields;
mod number;
mod values;

ghost use Rattle.std.specs.Prelude.{◌≡◌};
ghost use Rattle.reader.specs.QuestionText.{question_in};

use fields::line;
use measure::{HowFar, Point};
use number::Limits;
use question::{Badge, Mark, Question};

// How large a number of each type may be, and how large behind a minus: an unsigned one has no minus.
const I32: Limits = Limits {
    most: i32::MAX as u64,
    least: i32::MAX as u64 + 1,
};

const U32: Limits = Limits {
    most: u32::MAX as u64,
    least: 0,
};

const U64: Limits = Limits {
    most: u64::MAX,
    least: 0,
};

// The question that the whole text is, if it is one.
#[tactic(auto, using(crate::proofs::OneField::field_within), unfolding(crate::specs::QuestionText::question_in))]
pub fn read_question(text: &[u8]) -> Option<Question>
    ensures { result ≡ question_in text.now }
{
    let (x, rest) = line(text, b"x=", I32)?;
    let (y, rest) = line(rest, b"y=", I32)?;
    let (k, rest) = line(rest, b"k=", U32)?;
    let (badge, rest) = line(rest, b"badge=", U32)?;
    let (far, rest) = line(rest, b"afterdsq=", U64)?;
    let (bay, rest) = line(rest, b"afterbay=", U32)?;
    if !rest.is_empty() {
        return None;
    }
    Some(Question {
        from: Point {
            x: x.whole(),
            y: y.whole(),
        },
        // Kept (4): its limits say that it fits, and `try_from` would test that once more.
        k: k.size as usize,
        badge: Badge::from_bits(badge.small()),
        mark: Mark {
            far: HowFar(far.size),
            bay: bay.small(),
        },
    })
}
