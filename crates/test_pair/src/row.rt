// The rows of a case: whether they are as the head of `stdin` says, what they lend to the call, and whether its answer is the one that they tell.
use harness::{answer, fields, form, words};
use pair::Lengths;
use refusal::Refusal;

// How much is lent to a call: the words of the memory, and the bytes of the flat file and of the text, or of their rooms.
#[derive(Clone, Copy)]
pub(crate) struct Lent {
    pub words: usize,
    pub bin: usize,
    pub cfg: usize,
}

// A written text is `[mapping]` and one line, each with its line feed.
const WRITTEN_TEXT: usize = 10 + 22;

// A field each, with the default that the head of `stdin` gives it here.
pub(crate) fn first_of(before: &[u8]) -> u16 {
    fields::word(before, b"first", 0)
}

pub(crate) fn last_of(before: &[u8]) -> u16 {
    fields::word(before, b"last", 0)
}

// A file and a text of as many bytes as the row has.
pub(crate) fn lent_to_load(before: &[u8]) -> Lent {
    Lent {
        words: words::size_of(before) as usize,
        bin: fields::value(before, b"bin").len() / 2,
        cfg: fields::value(before, b"text").len(),
    }
}

pub(crate) fn lent_to_write(before: &[u8]) -> Lent {
    Lent {
        words: words::size_of(before) as usize,
        bin: fields::number(before, b"binroom", 0) as usize,
        cfg: fields::number(before, b"cfgroom", 0) as usize,
    }
}

// Two bytes for each word from `first` to `last`.
fn region_bytes(first: u16, last: u16) -> usize {
    if last < first {
        0
    } else {
        (last - first) as usize * 2 + 2
    }
}

// Rooms of just the two lengths of the region's pair.
pub(crate) fn lent_to_trip(before: &[u8]) -> Lent {
    Lent {
        words: words::size_of(before) as usize,
        bin: region_bytes(first_of(before), last_of(before)),
        cfg: WRITTEN_TEXT,
    }
}

fn tells_refusal(after: &[u8], refusal: Refusal) -> bool {
    answer::refuses(after, refusal::number(refusal))
}

// Whether the field with this key tells a number, in a row that tells no refusal.
fn tells_number(after: &[u8], key: &[u8], number: usize) -> bool {
    !answer::is_refused(after) & (fields::number(after, key, 0) == number as u64)
}

// Whether a row tells this answer of the reader, the number of lines. Where no call was made, none is told; so it is below. (Each answer
// has its own numbers.)
pub(crate) fn tells_lines(after: &[u8], answer: Option<Result<usize, Refusal>>) -> bool {
    match answer {
        Some(Ok(lines)) => tells_number(after, b"lines", lines),
        Some(Err(refusal)) => tells_refusal(after, refusal),
        None => false,
    }
}

// .. of the writer, the two lengths.
pub(crate) fn tells_lengths(after: &[u8], answer: Option<Result<Lengths, Refusal>>) -> bool {
    match answer {
        Some(Ok(Lengths { bin, cfg })) => {
            tells_number(after, b"binlength", bin) & tells_number(after, b"cfglength", cfg)
        }
        Some(Err(refusal)) => tells_refusal(after, refusal),
        None => false,
    }
}

pub(crate) fn is_load(before: &[u8], after: &[u8]) -> bool {
    let words = words::size_of(before) as usize;
    form::fit(before, b"size=number fill=word 0000=list bin=hex text=any")
        & answer::fit(after, b"loaded", b"answer=any lines=number 0000=list")
        & words::are_inside(before, words)
        & words::are_inside(after, words)
}

pub(crate) fn is_write(before: &[u8], after: &[u8]) -> bool {
    form::fit(
        before,
        b"size=number fill=word 0000=list first=word last=word binroom=number cfgroom=number",
    ) & answer::fit(
        after,
        b"written",
        b"answer=any binlength=number cfglength=number bin=hex text=any",
    ) & words::are_inside(before, words::size_of(before) as usize)
}

pub(crate) fn is_trip(before: &[u8], after: &[u8]) -> bool {
    form::fit(before, b"size=number fill=word first=word last=word")
        & answer::fit(after, b"loaded", b"answer=any lines=number")
}
