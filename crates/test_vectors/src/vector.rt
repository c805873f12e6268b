// Reads a vector off its line: the machine and the memory before the instruction, and what they are to be after it.
ghost use Rattle.std.specs.Prelude.{◌<◌, length, IfSome};

use crate::parse::Line;
use cpu::{State, Status};

// A word for each address.
pub(crate) type Memory = [u16; 65536];

#[derive(Clone, Copy, PartialEq, Eq)]
pub(crate) struct Flags {
    pub s: bool,
    pub z: bool,
    pub o: bool,
    pub c: bool,
}

#[derive(Clone, Copy)]
pub(crate) struct Machine {
    pub flags: Flags,
    pub registers: [u16; 8],
}

// `ADDRESS=WORD`
#[derive(Clone, Copy)]
struct Cell {
    address: u16,
    word: u16,
}

// What stands on a line, but for the memory, which lies in two arrays beside it.
#[derive(Clone, Copy)]
pub(crate) struct Vector {
    pub before: State,
    pub after: Machine,
    pub cycles: u16,
}

// The flags are the upper half of a byte, whose lower half is 0.
fn read_flags(line: &mut Line) -> Option<Flags> {
    line.expect(b' ')?;
    let flags = line.digit(16)?;
    line.expect(b'0')?;
    Some(Flags {
        s: flags & 8 != 0,
        z: flags & 4 != 0,
        o: flags & 2 != 0,
        c: flags & 1 != 0,
    })
}

fn read_machine(line: &mut Line) -> Option<Machine> {
    let flags = read_flags(line)?;
    let mut registers = [0u16; 8];
    for register in &mut registers {
        line.expect(b' ')?;
        *register = line.hex_word()?;
    }
    Some(Machine { flags, registers })
}

fn read_cell(line: &mut Line) -> Option<Cell>
    ensures { IfSome result (λ _. length line.new.rest.now < length line.old.rest.now) }
{
    line.expect(b' ')?;
    let address = line.hex_word()?;
    line.expect(b'=')?;
    let word = line.hex_word()?;
    Some(Cell { address, word })
}

// Puts the words of a list of cells into memory. What is no cell ends the list, and is the next reader's to judge.
fn put_cells(line: &mut Line, memory: &mut Memory) {
    let mut ahead = *line;
    while let Some(cell) = read_cell(&mut ahead) {
        memory[usize::from(cell.address)] = cell.word;
        *line = ahead;
    }
}

fn read_bar(line: &mut Line) -> Option<()> {
    line.expect(b' ')?;
    line.expect(b'|')
}

// The machine as a vector begins it: an instruction is due, and nothing else. Its four flags are among the ten marks of a status.
fn state_of(machine: Machine, double: bool) -> State {
    let flags = machine.flags;
    let registers = machine.registers;
    State {
        registers,
        status: Status {
            halted: false,
            s: flags.s,
            z: flags.z,
            o: flags.o,
            c: flags.c,
            i: false,
            d: double,
            ready: false,
            level: true,
            pending: false,
        },
    }
}

// Puts the words that the instruction reads into both memories, and those that it is to store into `expected` alone. A line that is no vector may
// have put some words before it is seen to be none.
pub(crate) fn read_vector(
    text: &[u8],
    memory: &mut Memory,
    expected: &mut Memory,
) -> Option<Vector> {
    let mut line = Line { rest: text };
    let double = line.digit(2)? == 1;
    let before = read_machine(&mut line)?;
    read_bar(&mut line)?;
    let mut reads = line;
    put_cells(&mut line, memory);
    put_cells(&mut reads, expected);
    read_bar(&mut line)?;
    let after = read_machine(&mut line)?;
    line.expect(b' ')?;
    let cycles = line.decimal()?;
    read_bar(&mut line)?;
    put_cells(&mut line, expected);
    if line.rest.is_empty() {
        Some(Vector {
            before: state_of(before, double),
            after,
            cycles,
        })
    } else {
        None
    }
}
