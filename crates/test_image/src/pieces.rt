// Files as rows write them: pieces with commas between them, each of bytes, or a part of the pattern. A record of 4,096 words:
// `49440002415401001000,0100-10FF,4F4B6902`.
ghost use Rattle.std.specs.Prelude.{◌≤◌, length};

use crate::pattern;
use crate::pattern::Part;
use harness::{bytes, text};

// A part of the pattern has a dash, and bytes have two digits each.
fn is_piece(piece: &[u8]) -> bool {
    if piece.contains(&b'-') {
        Part::of(piece).is_some()
    } else {
        piece.len() % 2 == 0
    }
}

pub(crate) fn are_pieces(value: &[u8]) -> bool {
    value.split(|byte| *byte == b',').all(is_piece)
        & text::all_stand_in(value, b"0123456789ABCDEF-,")
}

// Puts the words into a room, the high byte first, as far as there is room. Answers how many bytes that are; so do the functions below.
fn put_part(room: &mut [u8], part: Part) -> usize
    ensures { result ≤ length room.new }
{
    let addresses = part.first as usize..part.last as usize + 1;
    let size = addresses.len().min(room.len() / 2) * 2;
    for (place, address) in room.chunks_exact_mut(2).zip(addresses) {
        place.copy_from_slice(&pattern::word(address).to_be_bytes());
    }
    size
}

fn put_piece(room: &mut [u8], piece: &[u8]) -> usize
    ensures { result ≤ length room.new }
{
    match Part::of(piece) {
        Some(part) => put_part(room, part),
        None => bytes::put(room, piece),
    }
}

// Puts a file into a room, from its start on, as far as there is room.
pub(crate) fn put(room: &mut [u8], file: &[u8]) -> usize
    ensures { result ≤ length room.new }
{
    let mut size = 0;
    for piece in file.split(|byte| *byte == b',') {
        size += put_piece(&mut room[size..], piece);
    }
    size
}
