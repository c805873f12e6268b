// The line of an instruction's words, and the words that are to come back of it.
ghost use Rattle.std.specs.Prelude.{◌≤◌, length};

use listing::{Assembly, Listed};
use memory::map;

const TEXT_ROOM: usize = listing::TEXT_ROOM;

// What the lister answers, and its text.
#[derive(Clone, Copy, PartialEq, Eq)]
pub(crate) struct Line {
    pub room: [u8; TEXT_ROOM],
    pub listed: Listed,
}

impl Line {
    pub(crate) fn text(&self) -> &[u8]
        ensures { length result.now ≤ 16 }
    {
        self.room.get(..self.listed.length).unwrap_or_default()
    }
}

// The line of three words.
pub(crate) fn line_of(memory: [u16; 3], double: bool) -> Option<Line> {
    let mut room = [0u8; TEXT_ROOM];
    match listing::disassemble(map::all_ram(), &memory, 0, double, &mut room) {
        Ok(listed) => Some(Line { room, listed }),
        Err(_) => None,
    }
}

// Opcode and jump words are cut to ten bits, the two words of a read's immediate under D to eight.
fn cut(memory: [u16; 3], words: u16) -> [u16; 3] {
    let opcode = memory[0] % 1024;
    if opcode == 4 {
        return [opcode, memory[1] % 1024, memory[2] % 1024];
    }
    if words == 3 {
        return [opcode, memory[1] % 256, memory[2] % 256];
    }
    [opcode, memory[1], memory[2]]
}

// What the line of so many of the words is to be assembled to. (Each count is a variant of its own.)
pub(crate) fn assembly_of(memory: [u16; 3], words: u16) -> Assembly {
    let [w, a, b] = cut(memory, words);
    match words {
        1 => Assembly::One(w),
        2 => Assembly::Two(w, a),
        _ => Assembly::Three(w, a, b),
    }
}
