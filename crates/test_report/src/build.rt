// The input of a case: the bytes of `file`, and so many words of one value before the byte at a place.
ghost use Rattle.std.specs.Prelude.{◌≤◌, length};

use harness::{bytes, fields, form};

// Whether the row is as the head of `stdin` says, and has the byte that words are to stand before.
pub(crate) fn is_input(before: &[u8]) -> bool {
    let bytes = fields::value(before, b"file").len() / 2;
    form::fit(before, b"file=hex words=number word=word at=number")
        & (!fields::has(before, b"at") | (fields::number(before, b"at", 0) < bytes as u64))
}

// Puts the same word again and again, as far as there is room. Answers how many bytes that are, as `put_input` does.
fn put_words(room: &mut [u8], word: u16, count: u64) -> usize
    ensures { result ≤ length room.new }
{
    let size = count.saturating_mul(2).min(room.len() as u64) as usize;
    let bytes = word.to_be_bytes();
    for (i, place) in room[..size].iter_mut().enumerate() {
        *place = bytes[i % 2];
    }
    size
}

// The words of a row.
fn put_filling(room: &mut [u8], before: &[u8]) -> usize
    ensures { result ≤ length room.new }
{
    let word = fields::word(before, b"word", 0);
    put_words(room, word, fields::number(before, b"words", 0))
}

// The words stand before a byte of the file: where it has no such byte, there are none.
pub(crate) fn put_input(room: &mut [u8], before: &[u8]) -> usize
    ensures { result ≤ length room.new }
{
    let file = fields::value(before, b"file");
    let at = fields::number(before, b"at", 0).min(file.len() as u64 / 2) as usize * 2;
    let mut size = bytes::put(room, &file[..at]);
    if at < file.len() {
        size += put_filling(&mut room[size..], before);
    }
    size + bytes::put(&mut room[size..], &file[at..])
}
