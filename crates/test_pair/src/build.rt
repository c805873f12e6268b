// Memories, flat files and texts for the cases, made without the kit's own reader and writer.
use crate::row;
use harness::{bytes, fields, words};

// One word more than the reader and the writer take.
pub(crate) const MEMORY_ROOM: usize = 65537;

// The longest flat file that is written has 131,072 bytes.
pub(crate) const BIN_ROOM: usize = 131100;

pub(crate) const CFG_ROOM: usize = 1024;

// Each byte that a case does not name.
pub(crate) const BLANK: u8 = 0xA5;

// The byte that a sign in the text of a row stands for.
fn meant(sign: u8) -> u8 {
    match sign {
        b'/' => b'\n',
        b'^' => b'\r',
        _ => sign,
    }
}

// Puts the bytes that a row's text stands for into a room, from its start on, as far as there is room.
fn put_text(room: &mut [u8], text: &[u8]) {
    for (place, sign) in room.iter_mut().zip(text) {
        *place = meant(*sign);
    }
}

// The memory that a case begins with.
pub(crate) fn memory_of(before: &[u8]) -> [u16; MEMORY_ROOM] {
    let mut memory = [0u16; MEMORY_ROOM];
    words::lay(&mut memory, before);
    memory
}

// The memory that a case ends with. (Images' cases have a pattern beside their words.)
pub(crate) fn memory_after(before: &[u8], after: &[u8]) -> [u16; MEMORY_ROOM] {
    let mut memory = memory_of(before);
    words::put(&mut memory, after);
    memory
}

// A room with the flat file of a row, if there is one, and blank bytes behind it.
pub(crate) fn bin_of(fields: &[u8]) -> [u8; BIN_ROOM] {
    let mut bin = [BLANK; BIN_ROOM];
    bytes::put(&mut bin, fields::value(fields, b"bin"));
    bin
}

// .. with the text of a row, its signs replaced by what they stand for. Not one function with the one above: they differ in the room and in how a
// value is put, which is all that they say.
pub(crate) fn cfg_of(fields: &[u8]) -> [u8; CFG_ROOM] {
    let mut cfg = [BLANK; CFG_ROOM];
    put_text(&mut cfg, fields::value(fields, b"text"));
    cfg
}

// A memory with a word at each address that no other address near it has.
pub(crate) fn pattern() -> [u16; MEMORY_ROOM] {
    let mut memory = [0u16; MEMORY_ROOM];
    let mut word: u16 = 7;
    for place in &mut memory {
        *place = word;
        word = word.wrapping_add(259);
    }
    memory
}

// The memory that a trip ends with: the region has come from the pattern, and every other word is as it was.
pub(crate) fn memory_back(before: &[u8]) -> [u16; MEMORY_ROOM] {
    let source = pattern();
    let mut memory = memory_of(before);
    let end = row::last_of(before) as usize + 1;
    for address in row::first_of(before) as usize..end {
        memory[address] = source[address];
    }
    memory
}
