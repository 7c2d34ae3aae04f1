// The plain distance: the one way from a squared distance to a length.
ghost use Rattle.measure.specs.Root.{RootOf};

use crate::{Mm, SquaredMm};

// The whole number r with r² ≤ d < (r+1)². The square that may not fit is not formed: d / next < next says that it
// passes d. Each of the steps 2^31 .. 2^0 is taken at most once and refused once, so there are at most 64 turns.
pub fn plain(d: SquaredMm) -> Mm
    ensures { RootOf d.0 result.0 }
{
    let d = d.0;
    let mut r: u64 = 0;
    let mut step: u64 = 2147483648;
    let mut halvings: u32 = 31;
    // Kept (3): document 01 asks for a loop that breaks with r, so that neither a `for` nor `isqrt` takes its place.
    let root = loop {
        let next = r + step;
        if d / next < next {
            if halvings == 0 {
                break r;
            }
            halvings = halvings - 1;
            step = step / 2;
        } else {
            r = next;
        }
    };
    Mm(root)
}
