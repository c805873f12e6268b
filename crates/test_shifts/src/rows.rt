// The fields of a row, and the machine that they tell, before the step and after it. The head of the file `stdin` says what they mean.
ghost use Rattle.std.specs.Prelude.{◌<◌};

use cpu::{State, Status};
use harness::{fields, form, text};

// The digit of the register that the line names, as in `RLC R0,2`.
fn register_digit(row: &[u8]) -> u8 {
    text::byte_at(text::behind(fields::value(row, b"text"), b' '), 1)
}

// The register's number: the bytes of the digits 0 to 3 are 48 to 51.
fn register(row: &[u8]) -> usize
    ensures { result < 4 }
{
    (register_digit(row) % 4) as usize
}

// Whether all fields are there, each in its form: one that is left out would not be compared.
fn is_whole(row: &[u8]) -> bool {
    form::fit(
        row,
        b"word=any flags=SZOC result=any left=SZOC cycles=number text=any",
    ) & form::are_bits(fields::value(row, b"word"), 16)
        & fields::has(row, b"flags")
        & form::are_bits(fields::value(row, b"result"), 16)
        & fields::has(row, b"left")
        & fields::has(row, b"cycles")
        & b"0123".contains(&register_digit(row))
}

pub(crate) fn is_formed(row: &[u8]) -> bool {
    fields::is_kind(row, b"shift") & is_whole(fields::body(row))
}

// A word in binary digits.
fn bits(row: &[u8], key: &[u8]) -> u16 {
    let mut word: u16 = 0;
    for digit in fields::value(row, key) {
        word = word % 32768 * 2 + u16::from(*digit % 2);
    }
    word
}

// R0 to R7, with a word in the register that the line names.
fn registers(row: &[u8], key: &[u8], next: u16) -> [u16; 8] {
    let mut registers = [0x1010, 0x1111, 0x1212, 0x1313, 0x1414, 0x1515, 0x1616, next];
    registers[register(row)] = bits(row, key);
    registers
}

fn status(row: &[u8], key: &[u8], ready: bool) -> Status {
    Status {
        s: fields::letter(row, key, b'S', false),
        z: fields::letter(row, key, b'Z', false),
        o: fields::letter(row, key, b'O', false),
        c: fields::letter(row, key, b'C', false),
        i: false,
        d: false,
        halted: false,
        ready,
        level: true,
        pending: false,
    }
}

// The state before a row and the one after it have their own keys, R7 and ready mark. Ready is set here, so that it shows where the step does not
// clear it.
pub(crate) fn before(row: &[u8]) -> State {
    State {
        registers: registers(row, b"word", 0),
        status: status(row, b"flags", true),
    }
}

// The rows are not heard, which leaves ready clear.
pub(crate) fn after(row: &[u8]) -> State {
    State {
        registers: registers(row, b"result", 1),
        status: status(row, b"left", false),
    }
}
