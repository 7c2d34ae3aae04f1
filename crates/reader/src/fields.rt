// A field: its key, its number, and the byte that ends it.
ghost use Rattle.reader.specs.Scan.{Reads};
ghost use Rattle.reader.specs.Chain.{field_in};
ghost use Rattle.reader.specs.QuestionText.{line};

use crate::number::{Form, Limits, Signed, Stop};

// The field that text begins with, if it begins with one: its number, and what stands behind it.
#[tactic(auto, unfolding(crate::specs::Chain::field_in))]
pub fn field<'a>(text: &'a [u8], key: &[u8], form: Form) -> Option<(Signed, &'a [u8])>
    ensures { Reads (field_in (record { key = key.now; limits = form.limits; stop = form.stop }) text.now) result }
{
    form.read_number(text.strip_prefix(key)?)
}

// A field that is a line.
pub fn line<'a>(text: &'a [u8], key: &[u8], limits: Limits) -> Option<(Signed, &'a [u8])>
    ensures { Reads (field_in (line key.now limits) text.now) result }
{
    let stop = Stop::Newline;
    field(text, key, Form { limits, stop })
}
