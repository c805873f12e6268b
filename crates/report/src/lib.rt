// The texts that the listing program and the metering program print of an image, as functions of the input's bytes.
#![tactic(auto)]

ghost use Rattle.std.specs.Prelude.{◌≡◌, OnOk};
ghost use Rattle.report.specs.Reading.{zero_words, records_of, load_read, reading_of};
ghost use Rattle.report.specs.Program.{printing_of, printing, Within};
ghost use Rattle.report.specs.Inner.Page.{Ready};
ghost use Rattle.records.specs.Loading.{load_reported};

use crate::page::Page;
use refusal::Refusal;

mod file;
mod instructions;
mod page;
mod regions;
mod streams;

pub use streams::{Transcribed, run, transcribe};

// Which of the two programs.
#[derive(Clone, Copy)]
pub enum Program {
    ListImage,
    MeterImage,
}

// What was printed: the size of the text, and whether it says that the input is refused. No `Result`, since a refusal has a text too, and no
// `&[u8]` in place of the size, since no clause could then say what the room holds, which the text would be lent from.
#[derive(Clone, Copy)]
pub struct Printed {
    pub size: usize,
    pub refused: bool,
}

// The board that both programs are for.
pub(crate) const BOARD: u16 = 2;

// The words of its memory, which are 0 before the load.
const MEMORY_WORDS: usize = 32768;

pub(crate) type Memory = [u16; MEMORY_WORDS];

// An input that is longer is refused before all.
const INPUT_LIMIT: usize = 65536;

// The room that a program reads its input into: one byte more, so as to see that there is one.
pub const READ_ROOM: usize = INPUT_LIMIT + 1;

const _: () = prove!(INPUT_LIMIT < READ_ROOM);

// Room for every text: at most ten bytes of text for each byte of input, and the first and the last line.
pub const TEXT_ROOM: usize = INPUT_LIMIT * 10 + 20;

// Loads an input that is not over-long.
fn read(input: &[u8], memory: &mut Memory) -> Result<usize, Refusal>
    requires { memory.old ≡ zero_words }
    ensures reading { load_read (records_of input.now) memory.new (load_reported result) ≡ reading_of input.now }
    ensures ready { OnOk result (Ready input.now) }
{
    if INPUT_LIMIT < input.len() {
        return Err(Refusal::MalformedImage);
    }
    image::load(BOARD, memory, input)
}

// Puts the text of an input at the front of the room.
pub fn print(program: Program, input: &[u8], room: &mut [u8; TEXT_ROOM]) -> Printed
    ensures room_after { printing result room.new ≡ printing_of program input.now room.old }
    ensures within { Within result.size room.new }
{
    let mut memory = [0u16; MEMORY_WORDS];
    let mut page = Page {
        room,
        at: 0,
        lines: 0,
    };
    match read(input, &mut memory) {
        Ok(_) => {
            file::push_report(&mut page, program, input, &memory);
            Printed {
                size: page.at,
                refused: false,
            }
        }
        Err(refusal) => {
            page.push_refusal(refusal);
            Printed {
                size: page.at,
                refused: true,
            }
        }
    }
}
