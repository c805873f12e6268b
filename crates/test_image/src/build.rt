// Memories and rooms for the cases, made without the kit's own loader and writer.
use crate::pattern::Part;
use crate::pieces;
use harness::{fields, words};

// One word more than the loader and the writer take.
const MEMORY_ROOM: usize = 65537;

pub(crate) type Memory = [u16; MEMORY_ROOM];

// The longest file that is written has 131,176 bytes. With records of 1,024 words it has 131,464.
pub(crate) const ROOM: usize = 131500;

// Each byte that a case does not name.
const BLANK: u8 = 0xA5;

// Puts the words that a row tells: those of the pattern, and over them those of its lists.
fn put_words(memory: &mut [u16], row: &[u8]) {
    if let Some(part) = Part::of(fields::value(row, b"pattern")) {
        part.put(memory);
    }
    words::put(memory, row);
}

// The memory that a case begins with.
pub(crate) fn memory_of(before: &[u8]) -> Memory {
    let mut memory = [fields::word(before, b"fill", 0x5A5A); MEMORY_ROOM];
    put_words(&mut memory, before);
    memory
}

// The memory that a load ends with. (Pairs' cases have words alone, and no pattern.)
pub(crate) fn memory_after(before: &[u8], after: &[u8]) -> Memory {
    let mut memory = memory_of(before);
    put_words(&mut memory, after);
    memory
}

// The memory that a trip ends with: the pattern's words from `first` to `last` have come back.
pub(crate) fn memory_back(before: &[u8], first: u16, last: u16) -> Memory {
    let mut memory = memory_of(before);
    Part { first, last }.put(&mut memory);
    memory
}

// A memory with the pattern's word at each address.
pub(crate) fn pattern() -> Memory {
    let mut memory = [0u16; MEMORY_ROOM];
    Part {
        first: 0,
        last: 0xFFFF,
    }
    .put(&mut memory);
    memory
}

pub(crate) fn blank_room() -> [u8; ROOM] {
    [BLANK; ROOM]
}

// A room with the file of a row, and blank bytes behind it.
pub(crate) fn room_after(after: &[u8]) -> [u8; ROOM] {
    let mut room = blank_room();
    pieces::put(&mut room, fields::value(after, b"file"));
    room
}
