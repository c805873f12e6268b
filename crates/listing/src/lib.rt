// The disassembler (document 01's lister) and the one-line assembler: what line stands for which words.
#![tactic(auto)]

ghost use Rattle.std.specs.Prelude.{◌≡◌};
ghost use Rattle.memory.specs.Bus.{bus_on};
ghost use Rattle.listing.specs.Answer.{words_in, assembly_reported};
ghost use Rattle.listing.specs.Disassemble.{disassembly, disassemble_of};
ghost use Rattle.listing.specs.Assemble.{assemble_of};
ghost use Rattle.listing.specs.Inner.Encode.{first_words};

use memory::map::Board;
use refusal::Refusal;

mod encode;
mod entry;
mod guess;
mod line;
mod rows;

// What the disassembler answers: the text's length, the words used, and D for the next address.
#[derive(Clone, Copy, PartialEq, Eq)]
pub struct Listed {
    pub length: usize,
    pub words: u16,
    pub double: bool,
}

// What the assembler answers: the line's words.
#[derive(Clone, Copy, PartialEq, Eq)]
pub enum Assembly {
    One(u16),
    Two(u16, u16),
    Three(u16, u16, u16),
}

// The least room for a line, though no line has more than 14 bytes.
pub const TEXT_ROOM: usize = 16;

// The line of the instruction at an address, with D as it stands there. Only the line's bytes are written.
pub fn disassemble(
    board: Board,
    mem: &[u16],
    at: u16,
    double: bool,
    text: &mut [u8],
) -> Result<Listed, Refusal>
    ensures { disassembly result text.new ≡ disassemble_of (bus_on board mem.now) at double text.old }
{
    memory::admit(board, mem)?;
    if text.len() < TEXT_ROOM {
        return Err(Refusal::TextRoomTooSmall);
    }
    let entry = entry::entry_at(board, mem, at, double);
    Ok(Listed {
        length: entry.line.write(text),
        words: entry.words,
        double: entry.double,
    })
}

// The first one, two or three words. (Three and a count beside them, as it is known only once all three were decoded.)
fn first_words(words: [u16; 3], count: u16) -> Assembly
    ensures { words_in result ≡ first_words words count }
{
    let [first, second, third] = words;
    match count {
        1 => Assembly::One(first),
        2 => Assembly::Two(first, second),
        _ => Assembly::Three(first, second, third),
    }
}

// The words of a line, with D as it stands before it. The line is read as one of the row that it is guessed to be of, and is
// accepted if the words so read list as the line: so the guess and the reading need not be strict.
pub fn assemble(text: &[u8], double: bool) -> Result<Assembly, Refusal>
    ensures { assembly_reported result ≡ assemble_of text.now double }
{
    let row = guess::guess_row(text);
    // A text of another length than the lines of its row is none of them, and is not decoded.
    if rows::row_at(row).template.len() != text.len() {
        return Err(Refusal::NotAListingLine);
    }
    let line = encode::read(text, row);
    let words = encode::words_of(line, double);
    let entry = entry::entry_of(words[0], words[1], words[2], double);
    if entry.line.spells(text) {
        Ok(first_words(words, entry.words))
    } else {
        Err(Refusal::NotAListingLine)
    }
}
