// The rows of a case: whether they are as the head of `stdin` says, and how much they lend to the call.
ghost use Rattle.std.specs.Prelude.{◌≤◌};

use crate::members;
use harness::{answer, fields, form, words};

// One word more than the calls take, of the memory, the entries and a buffer.
pub(crate) const MEMORY_ROOM: usize = 65537;

pub(crate) const ENTRY_ROOM: usize = 17;

pub(crate) const SET_ROOM: usize = 1025;

fn at_most(number: u64, room: usize) -> usize
    ensures { result ≤ room }
{
    number.min(room as u64) as usize
}

// How many words of the memory are lent.
pub(crate) fn memory_words(before: &[u8]) -> usize
    ensures { result ≤ 65537 }
{
    at_most(words::size_of(before), MEMORY_ROOM)
}

// .. of the entries.
pub(crate) fn entry_count(before: &[u8]) -> usize
    ensures { result ≤ 17 }
{
    if !fields::has(before, b"entries") {
        return 0;
    }
    let count = words::list_length(fields::value(before, b"entries"));
    at_most(count as u64, ENTRY_ROOM)
}

// .. of the buffer whose length has this key.
pub(crate) fn set_words(before: &[u8], key: &[u8]) -> usize
    ensures { result ≤ 1025 }
{
    let words = fields::number(before, key, bitset::WORDS as u64);
    at_most(words, SET_ROOM)
}

// The ends of a case's region, each by its key.
pub(crate) fn first_of(before: &[u8]) -> u16 {
    fields::word(before, b"first", 0)
}

pub(crate) fn last_of(before: &[u8]) -> u16 {
    fields::word(before, b"last", 0)
}

// Whether the members of a set are left out, or in their form.
fn are_members(fields: &[u8], key: &[u8]) -> bool {
    !fields::has(fields, key) | members::are_written(fields::value(fields, key))
}

fn has_members(fields: &[u8]) -> bool {
    are_members(fields, b"clear") & are_members(fields, b"set")
}

// Whether there is as much as is to be lent.
fn fits_rooms(before: &[u8]) -> bool {
    words::are_inside(before, memory_words(before))
        & (fields::number(before, b"size", 0) <= MEMORY_ROOM as u64)
        & (fields::number(before, b"clearwords", 0) <= SET_ROOM as u64)
        & (fields::number(before, b"setwords", 0) <= SET_ROOM as u64)
        & (words::list_length(fields::value(before, b"entries")) <= ENTRY_ROOM)
        & (fields::number(before, b"limit", 0) < 65536)
}

pub(crate) fn is_reach(before: &[u8], after: &[u8]) -> bool {
    form::fit(
        before,
        b"size=number fill=word 0000=list map=map entries=list clear=any set=any clearwords=number setwords=number",
    ) & answer::fit(
        after,
        b"built",
        b"answer=any addresses=number writers=number lowest=word clear=any set=any",
    ) & fits_rooms(before)
        & has_members(before)
        & has_members(after)
}

fn is_region_answer(after: &[u8]) -> bool {
    answer::fit(
        after,
        b"found",
        b"answer=any longest=number start=word over=word",
    )
}

pub(crate) fn is_region(before: &[u8], after: &[u8]) -> bool {
    form::fit(
        before,
        b"size=number fill=word 0000=list map=map first=word last=word limit=number clear=any set=any clearwords=number setwords=number",
    ) & is_region_answer(after)
        & fits_rooms(before)
        & has_members(before)
}

pub(crate) fn is_both(before: &[u8], after: &[u8]) -> bool {
    form::fit(
        before,
        b"size=number fill=word 0000=list map=map entries=list first=word last=word limit=number",
    ) & is_region_answer(after)
        & fits_rooms(before)
}
