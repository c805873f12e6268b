// Memories, lists of entries and buffers for the cases.
use crate::{members, row};
use harness::{answer, fields, words};

// What a buffer holds past the set's words.
const BLANK: u64 = 0xA5A5_A5A5_A5A5_A5A5;

pub(crate) fn memory_of(before: &[u8]) -> [u16; row::MEMORY_ROOM] {
    let mut memory = [0; row::MEMORY_ROOM];
    words::lay(&mut memory, before);
    memory
}

pub(crate) fn entries_of(before: &[u8]) -> [u16; row::ENTRY_ROOM] {
    let mut entries = [0; row::ENTRY_ROOM];
    words::put_list(&mut entries, 0, fields::value(before, b"entries"));
    entries
}

// A buffer with the members that a row gives a set.
pub(crate) fn set_of(fields: &[u8], key: &[u8]) -> [u64; row::SET_ROOM] {
    let mut set = [0; row::SET_ROOM];
    set[row::SET_ROOM - 1] = BLANK;
    members::put(&mut set, fields::value(fields, key));
    set
}

// .. at the end of a case: a refused call leaves what there was.
pub(crate) fn set_after(before: &[u8], after: &[u8], key: &[u8]) -> [u64; row::SET_ROOM] {
    if answer::is_refused(after) {
        set_of(before, key)
    } else {
        set_of(after, key)
    }
}
