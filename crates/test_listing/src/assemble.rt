// A case of the assembler: the answer is compared with what the case says.
use harness::{answer, bytes, fields, form, words};
use listing::Assembly;
use refusal::Refusal;

// The most bytes that `bytes` may give: more than a line has.
const LINE_ROOM: usize = 32;

// The line is given as `text` or as `bytes`, not as both.
fn is_formed(before: &[u8], after: &[u8]) -> bool {
    form::fit(before, b"d=bit bytes=hex text=any")
        & !(fields::has(before, b"text") & fields::has(before, b"bytes"))
        & (fields::value(before, b"bytes").len() / 2 <= LINE_ROOM)
        & answer::fit(after, b"assembled", b"answer=any words=list")
}

// Whether the row tells these words.
fn has_words(after: &[u8], words: &[u16]) -> bool {
    let list = fields::value(after, b"words");
    fields::has(after, b"words")
        & (words::list_length(list) == words.len())
        & (0u16..)
            .zip(words)
            .all(|(index, word)| words::list_word(list, index) == *word)
}

// (Each variant has its own words.)
fn is_answer(answer: Result<Assembly, Refusal>, after: &[u8]) -> bool {
    match answer {
        Ok(Assembly::One(a)) => has_words(after, &[a]),
        Ok(Assembly::Two(a, b)) => has_words(after, &[a, b]),
        Ok(Assembly::Three(a, b, c)) => has_words(after, &[a, b, c]),
        Err(why) => answer::refuses(after, refusal::number(why)),
    }
}

fn assembled(before: &[u8]) -> Result<Assembly, Refusal> {
    let double = fields::bit(before, b"d", false);
    if fields::has(before, b"bytes") {
        let mut room = [0u8; LINE_ROOM];
        let length = bytes::put(&mut room, fields::value(before, b"bytes"));
        listing::assemble(&room[..length], double)
    } else {
        listing::assemble(fields::value(before, b"text"), double)
    }
}

pub(crate) fn is_well(before: &[u8], after: &[u8]) -> bool {
    is_formed(before, after) & is_answer(assembled(before), after)
}
