// A case of the disassembler: the answer and the whole text room are compared with what the case says.
use harness::{answer, fields, form, map, words};
use listing::Listed;
use refusal::Refusal;

// One word more than the disassembler takes.
const MEMORY_ROOM: usize = 65537;

// More bytes than a line needs.
const TEXT_ROOM: usize = 32;

// Each byte of the room before the call.
const BLANK: u8 = b'#';

fn is_formed(before: &[u8], after: &[u8]) -> bool {
    form::fit(
        before,
        b"size=number fill=word map=map 0000=list address=word d=bit room=number",
    ) & answer::fit(after, b"listed", b"answer=any words=number d=bit text=any")
}

fn is_answer(answer: Result<Listed, Refusal>, after: &[u8]) -> bool {
    match answer {
        Ok(listed) => {
            !answer::is_refused(after)
                & (listed.length == fields::value(after, b"text").len())
                & (u64::from(listed.words) == fields::number(after, b"words", 0))
                & (listed.double == fields::bit(after, b"d", false))
        }
        Err(why) => answer::refuses(after, refusal::number(why)),
    }
}

// As far as there is room.
fn put_text(room: &mut [u8], line: &[u8]) {
    for (byte, wanted) in room.iter_mut().zip(line) {
        *byte = *wanted;
    }
}

// Lists from the first `size` words into the first `room` bytes.
fn is_listed(memory: &[u16], text: &mut [u8], before: &[u8], after: &[u8]) -> bool {
    let size = words::size_of(before) as usize;
    let room = fields::number(before, b"room", 16) as usize;
    let address = fields::word(before, b"address", 0);
    let double = fields::bit(before, b"d", false);
    let (Some(memory), Some(text)) = (memory.get(..size), text.get_mut(..room)) else {
        return false;
    };
    let board = map::board(before, b"map");
    let answer = listing::disassemble(board, memory, address, double, text);
    is_answer(answer, after) & words::are_inside(before, size)
}

pub(crate) fn is_well(before: &[u8], after: &[u8]) -> bool {
    let mut memory = [0u16; MEMORY_ROOM];
    let mut text = [BLANK; TEXT_ROOM];
    let mut wanted = [BLANK; TEXT_ROOM];
    words::lay(&mut memory, before);
    put_text(&mut wanted, fields::value(after, b"text"));
    let formed = is_formed(before, after);
    let listed = is_listed(&memory, &mut text, before, after);
    formed & listed & (text == wanted)
}
