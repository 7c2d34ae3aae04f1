// What was read, as values of the question's types.
ghost use Rattle.std.specs.Prelude.{◌≡◌};
ghost use Rattle.reader.specs.Fields.{InLimits};
ghost use Rattle.reader.specs.QuestionText.{i32_limits, u32_limits, whole_of, size_of};

use crate::number::Signed;

impl Signed {
    pub fn whole(self) -> i32
        requires { InLimits i32_limits (Some self) }
        ensures { result ≡ whole_of (Some self) }
    {
        // Kept (4): its limits say that it fits, and `try_from` would test that once more.
        let size = self.size as i64;
        (if self.minus { -size } else { size }) as i32
    }

    pub fn small(self) -> u32
        requires { InLimits u32_limits (Some self) }
        ensures { result ≡ size_of (Some self) }
    {
        // Kept (4): as in `whole`.
        self.size as u32
    }
}
