// The rows of a case: whether they are as the head of `stdin` says, the call that they tell, and whether its answer is the one that they tell.
use crate::pattern::Part;
use crate::pieces;
use harness::{answer, fields, form, words};
use refusal::Refusal;

// The board, the memory's words, the region, and the room's bytes.
#[derive(Clone, Copy)]
pub(crate) struct Call {
    pub board: u16,
    pub words: usize,
    pub first: u16,
    pub last: u16,
    pub bytes: usize,
}

impl Call {
    pub fn of(before: &[u8]) -> Call {
        Call {
            board: fields::word(before, b"board", 2),
            words: words::size_of(before) as usize,
            first: fields::word(before, b"first", 0),
            last: fields::word(before, b"last", 0),
            bytes: fields::number(before, b"room", 0) as usize,
        }
    }
}

// Whether a row tells this answer: a number of records or a length, whose field has this key, or a refusal. Where no call was made, none is told.
pub(crate) fn tells(after: &[u8], key: &[u8], answer: Option<Result<usize, Refusal>>) -> bool {
    match answer {
        Some(Ok(number)) => {
            !answer::is_refused(after) & (fields::number(after, key, 0) == number as u64)
        }
        Some(Err(refusal)) => answer::refuses(after, refusal::number(refusal)),
        None => false,
    }
}

// Whether the words that a row tells lie inside a memory of so many words.
fn are_inside(row: &[u8], size: usize) -> bool {
    let is_inside = |part: Part| (part.last as usize) < size;
    words::are_inside(row, size)
        & (!fields::has(row, b"pattern")
            | Part::of(fields::value(row, b"pattern")).is_some_and(is_inside))
}

fn has_file(row: &[u8]) -> bool {
    pieces::are_pieces(fields::value(row, b"file"))
}

pub(crate) fn is_load(before: &[u8], after: &[u8]) -> bool {
    form::fit(
        before,
        b"board=word size=number fill=word 0000=list pattern=any file=any",
    ) & answer::fit(
        after,
        b"loaded",
        b"answer=any records=number 0000=list pattern=any",
    ) & are_inside(before, words::size_of(before) as usize)
        & are_inside(after, words::size_of(before) as usize)
        & has_file(before)
}

pub(crate) fn is_write(before: &[u8], after: &[u8]) -> bool {
    form::fit(
        before,
        b"board=word size=number fill=word 0000=list pattern=any first=word last=word room=number",
    ) & answer::fit(after, b"written", b"answer=any length=number file=any")
        & are_inside(before, words::size_of(before) as usize)
        & has_file(after)
}

pub(crate) fn is_trip(before: &[u8], after: &[u8]) -> bool {
    form::fit(
        before,
        b"board=word size=number fill=word first=word last=word room=number",
    ) & answer::fit(after, b"loaded", b"answer=any records=number")
}
