// Bytes that are written as pairs of hexadecimal digits, as the values of the form `hex` are: `49440002`.
ghost use Rattle.std.specs.Prelude.{◌≡◌, min, length};
ghost use Rattle.harness.specs.Bytes.{IsPrefixLen, pair_bytes, with_bytes};

use crate::text;

// Puts the bytes into a room, from its start on, as far as there is room. Answers how many are put.
pub fn put(room: &mut [u8], digits: &[u8]) -> usize
    ensures { (room.new ≡ with_bytes 0 (pair_bytes digits.now) room.old)
        × (result ≡ min (length (pair_bytes digits.now)) (length room.old))
        × IsPrefixLen result room.new }
{
    let count = digits.len().div_ceil(2).min(room.len());
    for i in 0..count {
        room[i] = text::hex_byte(digits, 2 * i);
    }
    count
}
