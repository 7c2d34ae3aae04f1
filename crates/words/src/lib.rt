// Little-endian numbers in bytes, read and written. It knows nothing of maps or records, which are made of them.
// Whoever reads or writes one has shown that its bytes are there, so each function has a `requires`.

#![tactic(auto, unfolding(crate::specs::Words::le_at, crate::specs::Words::le_bytes))]

ghost use Rattle.std.specs.Prelude.{◌≡◌, ℕ, ◌+◌, ◌^◌, ◌<◌, ◌≤◌, length, take, drop, refl};
ghost use Rattle.std.proofs.lemmas.List.Edits.{sets};
ghost use Rattle.std.specs.Int.{w32};
ghost use Rattle.std.proofs.Common.{to_z, of_z};
ghost use Rattle.std.proofs.lemmas.Int.{of_z-to_z};
ghost use Rattle.words.specs.Words.{le_at, le_bytes};

// A number of a few bytes, the lowest first.
pub trait Word: Copy {
    // How many bytes it has.
    ghost size: { ℕ };

    // The value that the number in the bytes stands for, and the number that a value is written as.
    ghost of: { ℕ → Self };

    ghost number: { Self → ℕ };

    // The value at a place.
    fn read(bytes: &[u8], at: usize) -> Self
        requires { at + size ≤ length bytes.now }
        ensures { result ≡ of (le_at size bytes.now at) };

    // Writes it to a place.
    fn put(self, bytes: &mut [u8], at: usize)
        requires { at + size ≤ length bytes.old }
        ensures { bytes.new ≡ sets bytes.old at (le_bytes size (number self)) };

    // What is read is written as the number that was there.
    ghost again: { (n : ℕ) → n < 256 ^ size → number (of n) ≡ n };
}

// Written out for each width: a macro writes no clause, and so no impl that has ghost members.
impl Word for u16 {
    ghost size = { 2 };

    ghost of = { λ n. n };

    ghost number = { λ n. n };

    ghost again = { λ n h. refl };

    fn read(bytes: &[u8], at: usize) -> u16 {
        u16::from_le_bytes(bytes_at(bytes, at))
    }

    fn put(self, bytes: &mut [u8], at: usize) {
        put_bytes(bytes, at, u16::to_le_bytes(self));
    }
}

impl Word for u32 {
    ghost size = { 4 };

    ghost of = { λ n. n };

    ghost number = { λ n. n };

    ghost again = { λ n h. refl };

    fn read(bytes: &[u8], at: usize) -> u32 {
        u32::from_le_bytes(bytes_at(bytes, at))
    }

    fn put(self, bytes: &mut [u8], at: usize) {
        put_bytes(bytes, at, u32::to_le_bytes(self));
    }
}

impl Word for u64 {
    ghost size = { 8 };

    ghost of = { λ n. n };

    ghost number = { λ n. n };

    ghost again = { λ n h. refl };

    fn read(bytes: &[u8], at: usize) -> u64 {
        u64::from_le_bytes(bytes_at(bytes, at))
    }

    fn put(self, bytes: &mut [u8], at: usize) {
        put_bytes(bytes, at, u64::to_le_bytes(self));
    }
}

// Two's complement: its clauses are `i32_at` and `i32_bytes`.
impl Word for i32 {
    ghost size = { 4 };

    ghost of = { to_z w32 };

    ghost number = { of_z w32 };

    ghost again = { of_z-to_z w32 };

    fn read(bytes: &[u8], at: usize) -> i32 {
        i32::from_le_bytes(bytes_at(bytes, at))
    }

    fn put(self, bytes: &mut [u8], at: usize) {
        put_bytes(bytes, at, i32::to_le_bytes(self));
    }
}

// N bytes from a place on.
fn bytes_at<const N: usize>(bytes: &[u8], at: usize) -> [u8; N]
    requires { at + N ≤ length bytes.now }
    ensures { result ≡ take N (drop at bytes.now) }
{
    <[u8; N]>::try_from(&bytes[at..at + N]).unwrap()
}

// Writes N bytes to a place.
fn put_bytes<const N: usize>(bytes: &mut [u8], at: usize, word: [u8; N])
    requires { at + N ≤ length bytes.old }
    ensures { bytes.new ≡ sets bytes.old at word.entry }
{
    bytes[at..at + N].copy_from_slice(&word);
}
