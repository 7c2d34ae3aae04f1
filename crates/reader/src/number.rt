// A number read byte by byte, up to the byte that ends its field.
ghost use Rattle.std.specs.Prelude.{◌≡◌};
ghost use Rattle.reader.specs.Fields.{stop_byte};
ghost use Rattle.reader.specs.Scan.{limit_of, grow_of, digit_of, minus_of, finish_of, stop_of, byte_of, scan, Reads};

use std::ops::ControlFlow;

// A number, as whether it has a minus and its size.
// Kept (1): `numeral` and `InLimits`, which a reader of the statements believes, are by sign and size, and tell -0 from 0.
#[derive(Clone, Copy, PartialEq, Eq)]
pub struct Signed {
    pub minus: bool,
    pub size: u64,
}

// How large a number may be, and how large behind a minus.
#[derive(Clone, Copy)]
pub struct Limits {
    pub most: u64,
    pub least: u64,
}

impl Limits {
    fn limit(self, minus: bool) -> u64
        ensures { result ≡ limit_of minus self }
    {
        if minus { self.least } else { self.most }
    }

    // A number with one digit more, if it is within the limits.
    #[tactic(auto, unfolding(crate::specs::Scan::grow_of))]
    fn grow(self, minus: bool, size: u64, d: u64) -> Option<State>
        ensures { result ≡ grow_of minus size d (limit_of minus self) }
    {
        let size = size.checked_mul(10)?.checked_add(d)?;
        (size <= self.limit(minus)).then_some(State::Digits(Signed { minus, size }))
    }
}

// What ends a field; a space is for lines of several fields, which document 02 has.
#[derive(Clone, Copy)]
pub enum Stop {
    Newline,
    Space,
}

impl Stop {
    fn byte(self) -> u8
        ensures { result ≡ stop_byte self }
    {
        match self {
            Stop::Newline => b'\n',
            Stop::Space => b' ',
        }
    }
}

// What was read of a number so far.
#[derive(Clone, Copy)]
pub enum State {
    Empty,
    Sign,
    Digits(Signed),
}

impl State {
    // No zero behind a minus, and nothing behind a zero that came first.
    #[tactic(auto, unfolding(crate::specs::Scan::digit_of))]
    fn at_digit(self, d: u64, limits: Limits) -> Option<State>
        ensures { result ≡ digit_of limits self d }
    {
        match self {
            State::Empty => limits.grow(false, 0, d),
            State::Sign if d != 0 => limits.grow(true, 0, d),
            State::Digits(n) if n.size != 0 => limits.grow(n.minus, n.size, d),
            State::Sign | State::Digits(_) => None,
        }
    }

    fn at_minus(self) -> Option<State>
        ensures { result ≡ minus_of self }
    {
        match self {
            State::Empty => Some(State::Sign),
            State::Sign | State::Digits(_) => None,
        }
    }

    fn at_end(self) -> Option<Signed>
        ensures { result ≡ finish_of self }
    {
        match self {
            State::Empty | State::Sign => None,
            State::Digits(n) => Some(n),
        }
    }

    // At a byte that ends one field or another.
    fn at_stop(self, b: u8, stop: Stop) -> Option<Signed>
        ensures { result ≡ stop_of stop self b }
    {
        if b == stop.byte() {
            self.at_end()
        } else {
            None
        }
    }
}

// How large a field's number may be, and what ends it.
#[derive(Clone, Copy)]
pub struct Form {
    pub limits: Limits,
    pub stop: Stop,
}

impl Form {
    // What a byte leads to: the number goes on, or ends, or is wrong.
    #[tactic(auto, unfolding(crate::specs::Scan::byte_of))]
    fn advance(self, s: State, b: u8) -> Option<ControlFlow<Signed, State>>
        ensures { result ≡ byte_of self.limits self.stop s b }
    {
        match b {
            b'0'..=b'9' => s
                .at_digit(u64::from(b - b'0'), self.limits)
                .map(ControlFlow::Continue),
            b'-' => s.at_minus().map(ControlFlow::Continue),
            b'\n' | b' ' => s.at_stop(b, self.stop).map(ControlFlow::Break),
            _ => None,
        }
    }

    // The number that text begins with, if it begins with one, and what stands behind the byte that ends it.
    #[tactic(auto, unfolding(crate::specs::Scan::scan))]
    pub fn read_number(self, text: &[u8]) -> Option<(Signed, &[u8])>
        ensures { Reads (scan self.limits self.stop State.Empty text.now) result }
    {
        let mut s = State::Empty;
        let mut rest = text;
        while let Some((b, behind)) = rest.split_first() {
            rest = behind;
            match self.advance(s, *b)? {
                ControlFlow::Continue(t) => s = t,
                ControlFlow::Break(n) => return Some((n, rest)),
            }
        }
        None
    }
}
