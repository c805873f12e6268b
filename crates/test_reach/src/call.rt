// Makes the call of a case, and compares the answer and all that was lent with what the case says.
use crate::{build, row, tell};
use harness::{findings, map};

// A set is built, and the buffers get its members and no other bit.
pub(crate) fn reach_is_well(before: &[u8], after: &[u8]) -> bool {
    let memory = build::memory_of(before);
    let entries = build::entries_of(before);
    let mut clear = build::set_of(before, b"clear");
    let mut set = build::set_of(before, b"set");
    let words = row::memory_words(before);
    let count = row::entry_count(before);
    let clear_words = row::set_words(before, b"clearwords");
    let set_words = row::set_words(before, b"setwords");
    let answer = reach::reach(
        map::board(before, b"map"),
        &memory[..words],
        &entries[..count],
        &mut clear[..clear_words],
        &mut set[..set_words],
    );
    let clear_after = build::set_after(before, after, b"clear");
    let set_after = build::set_after(before, after, b"set");
    row::is_reach(before, after)
        & tell::tells_set(after, answer)
        & (clear == clear_after)
        & (set == set_after)
}

// A region's members of a set are metered.
pub(crate) fn region_is_well(before: &[u8], after: &[u8]) -> bool {
    let memory = build::memory_of(before);
    let clear = build::set_of(before, b"clear");
    let set = build::set_of(before, b"set");
    let words = row::memory_words(before);
    let clear_words = row::set_words(before, b"clearwords");
    let set_words = row::set_words(before, b"setwords");
    let answer = meter::region_reached(
        map::board(before, b"map"),
        &memory[..words],
        row::first_of(before),
        row::last_of(before),
        findings::limit_of(before),
        &clear[..clear_words],
        &set[..set_words],
    );
    row::is_region(before, after) & findings::are_told(after, answer)
}

// A set is built, and a region's members of it are metered.
pub(crate) fn both_are_well(before: &[u8], after: &[u8]) -> bool {
    let memory = build::memory_of(before);
    let entries = build::entries_of(before);
    let words = row::memory_words(before);
    let count = row::entry_count(before);
    let lent = &memory[..words];
    let mut clear = [0u64; bitset::WORDS];
    let mut set = [0u64; bitset::WORDS];
    let board = map::board(before, b"map");
    let _ = reach::reach(board, lent, &entries[..count], &mut clear, &mut set);
    let first = row::first_of(before);
    let last = row::last_of(before);
    let limit = findings::limit_of(before);
    let answer = meter::region_reached(board, lent, first, last, limit, &clear, &set);
    row::is_both(before, after) & findings::are_told(after, answer)
}
