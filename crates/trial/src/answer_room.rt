// The answer room of the questions: what it holds before one, and a sum that tells its bytes after.

// How many bytes the room has.
pub const ROOM: usize = 4096;

// A prime, so that a change of one byte always changes the sum, and small enough that every product fits.
const SUM_BELOW: u64 = 17592186044399;

// Each byte differs from its neighbours, so that one which is moved or left as it was shows in the sum.
pub fn fill(room: &mut [u8; ROOM], first: u8) {
    let mut next = first;
    for byte in room.iter_mut() {
        *byte = next;
        next = next.wrapping_add(37);
    }
}

// The sum over all bytes of the room.
pub fn sum(room: &[u8; ROOM]) -> u64 {
    let mut told: u64 = 1;
    for byte in room {
        told = (told * 524287 + u64::from(*byte)) % SUM_BELOW;
    }
    told
}
