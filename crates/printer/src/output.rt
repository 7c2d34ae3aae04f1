// A buffer that a reply is written into, byte after byte. What is written is known to fit, since `print_reply` has counted
// it, so each method has a `requires`.
ghost use Rattle.std.specs.Prelude.{◌≡◌, ◌≤◌, length};
ghost use Rattle.decimal.specs.Decimal.{decimal};
ghost use Rattle.printer.specs.Printed.{field_of, head_line};
ghost use Rattle.printer.specs.Wrote.{key_room, field_room, head_room};
ghost use Rattle.printer.specs.Output.{HasRoom, Adds};

use itoa::Buffer;

// Its first `end` bytes are written; what stands behind them is whatever was there.
// Kept (4): no clause of `write!` says when it is `Ok`, not even into a buffer with room, and `print_reply` cannot fail.
// Kept (5): each method asks for the room that it needs, which is another for each.
#[derive(Drop)]
pub struct Output<'a> {
    room: &'a mut [u8],
    pub end: usize,
}

impl<'a> Output<'a> {
    // Nothing written yet.
    pub fn at_start(room: &'a mut [u8]) -> Output<'a>
        ensures buffer { result.room.ghost_name ≡ room.entry.ghost_name }
        ensures bytes { result.room.now ≡ room.old }
        ensures end { result.end ≡ 0 }
    {
        Output { room, end: 0 }
    }

    pub fn bytes(&mut self, bytes: &[u8])
        requires { HasRoom (length bytes.now) self.old }
        ensures { Adds (length bytes.now) self.old self.new bytes.now }
    {
        let end = self.end + bytes.len();
        self.room[self.end..end].copy_from_slice(bytes);
        self.end = end;
    }

    #[tactic(auto, using(crate::proofs::Digits::digits_printed))]
    pub fn decimal(&mut self, n: u64)
        requires { HasRoom (length (decimal n)) self.old }
        ensures { Adds (length (decimal n)) self.old self.new (decimal n) }
    {
        let mut digits = Buffer::new();
        self.bytes(digits.format(n).as_bytes());
    }

    // A key and a number.
    pub fn field(&mut self, key: &[u8], n: u64)
        requires { (length key.now ≤ key_room) × HasRoom field_room self.old }
        ensures { Adds field_room self.old self.new (field_of key.now n) }
    {
        self.bytes(key);
        self.decimal(n);
    }

    // A line of a key and a number.
    pub fn head(&mut self, key: &[u8], n: u64)
        requires { (length key.now ≤ key_room) × HasRoom head_room self.old }
        ensures { Adds head_room self.old self.new (head_line key.now n) }
    {
        self.field(key, n);
        self.bytes(b"\n");
    }
}
