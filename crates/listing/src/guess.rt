// The row that a text is of, if it is a line at all: told by the letters that it begins with, and by its length where a name has
// more forms. A text that is no line gets any row: it is refused later, since the words that it is read as do not list as it.
// (Nested `match`es become jump tables, where a list of names would be searched; and a function for each letter is that letter's tree in the definition.)
#![tactic(auto, using(std::proofs::lemmas::Bool::Decides::nat_tests))]

ghost use Rattle.std.specs.Prelude.{◌≡◌, ◌≤◌};
ghost use Rattle.listing.specs.Inner.Guess.{told, memory_names, operation_names, two_forms, carry_names, a_names, be_names, bn_names, b_names, c_names, d_names, jsr_names, j_names, m_names, n_names, r_names, s_names, names, guess_of};

use crate::rows::names::*;

// What tells a line's row. The fourth byte counts where the line is longer: in a shorter one a digit may stand there.
#[derive(Clone, Copy)]
pub(crate) struct Start {
    pub length: usize,
    pub first: u8,
    pub second: u8,
    pub third: u8,
    pub fourth: u8,
}

// The least length of the lines whose fourth byte counts.
const LONGER: usize = 8;

// The rows of one name that reads or writes memory: direct, through a register, immediate.
fn memory_row(direct: usize, start: Start) -> usize
    requires { direct ≤ 85 }
    ensures { result ≡ told (memory_names direct) start }
{
    match start.fourth {
        b' ' => direct,
        b'@' => direct + 1,
        _ => direct + 2,
    }
}

// Those of an operation, which has a row between registers too.
fn operation_row(register: usize, direct: usize, start: Start) -> usize
    requires { direct ≤ 85 }
    ensures { result ≡ told (operation_names register direct) start }
{
    if start.fourth == b'R' {
        register
    } else {
        memory_row(direct, start)
    }
}

// Two rows of one name, told by the shorter one's length.
fn two_forms(length: usize, shorter: usize, start: Start) -> usize
    requires { shorter ≤ 85 }
    ensures { result ≡ told (two_forms length shorter) start }
{
    if start.length == length {
        shorter
    } else {
        shorter + 1
    }
}

// A shift by one place and by two, and the shift through C that has its name with a C behind it.
fn carry_row(once: usize, start: Start) -> usize
    requires { once ≤ 85 }
    ensures { result ≡ told (carry_names once) start }
{
    match start.length {
        6 => once,
        8 => once + 1,
        7 => once + 4,
        _ => once + 5,
    }
}

// The names that begin with one letter, or with two, each told apart by as few bytes as will do.
fn a_row(start: Start) -> usize
    ensures { result ≡ told a_names start }
{
    if start.second == b'N' {
        // ANDR, AND, AND@, ANDI
        operation_row(ANDR, AND, start)
    } else if start.third == b'C' {
        ADCR
    } else {
        // ADDR, ADD, ADD@, ADDI
        operation_row(ADDR, ADD, start)
    }
}

fn be_row(start: Start) -> usize
    ensures { result ≡ told be_names start }
{
    match start.third {
        b'Q' => BEQ,
        b'S' => BESC,
        // BEXT, whose number has one digit or two
        _ => two_forms(13, BEXT, start),
    }
}

fn bn_row(start: Start) -> usize
    ensures { result ≡ told bn_names start }
{
    match start.third {
        b'C' => BNC,
        b'O' => BNOV,
        _ => BNEQ,
    }
}

fn b_row(start: Start) -> usize
    ensures { result ≡ told b_names start }
{
    match start.second {
        b' ' => B,
        b'C' => BC,
        b'O' => BOV,
        b'P' => BPL,
        b'E' => be_row(start),
        b'L' => if start.third == b'T' { BLT } else { BLE },
        b'U' => BUSC,
        b'N' => bn_row(start),
        b'M' => BMI,
        _ => if start.third == b'E' { BGE } else { BGT },
    }
}

fn c_row(start: Start) -> usize
    ensures { result ≡ told c_names start }
{
    match start.second {
        // CMPR, CMP, CMP@, CMPI
        b'M' => operation_row(CMPR, CMP, start),
        b'O' => COMR,
        _ => CLRC,
    }
}

fn d_row(start: Start) -> usize
    ensures { result ≡ told d_names start }
{
    match start.length {
        3 => DIS,
        7 => DECR,
        _ => DECLE,
    }
}

fn call_row(start: Start) -> usize
    ensures { result ≡ told jsr_names start }
{
    match start.fourth {
        b' ' => JSR,
        b'E' => JSRE,
        _ => JSRD,
    }
}

fn j_row(start: Start) -> usize
    ensures { result ≡ told j_names start }
{
    match start.second {
        b' ' => J,
        b'E' => JE,
        b'D' => JD,
        _ => call_row(start),
    }
}

fn m_row(start: Start) -> usize
    ensures { result ≡ told m_names start }
{
    match start.third {
        b'V' => MOVR,
        // MVO, MVO@, MVOI
        b'O' => memory_row(MVO, start),
        // MVI, MVI@, MVII
        _ => memory_row(MVI, start),
    }
}

fn n_row(start: Start) -> usize
    ensures { result ≡ told n_names start }
{
    match start.length {
        3 => NOP,
        // NOP 2
        5 => NOP + 1,
        7 => NEGR,
        _ => NOPP,
    }
}

fn r_row(start: Start) -> usize
    ensures { result ≡ told r_names start }
{
    match start.second {
        b'S' => RSWD,
        // RLC
        b'L' => two_forms(6, RLC, start),
        // RRC
        _ => two_forms(6, RRC, start),
    }
}

fn s_row(start: Start) -> usize
    ensures { result ≡ told s_names start }
{
    match start.second {
        // SUBR, SUB, SUB@, SUBI
        b'U' => operation_row(SUBR, SUB, start),
        // SLR; SLL, SLLC
        b'L' => if start.third == b'R' {
            two_forms(6, SLR, start)
        } else {
            carry_row(SLL, start)
        },
        // SAR, SARC
        b'A' => carry_row(SAR, start),
        // SWAP
        b'W' => two_forms(7, SWAP, start),
        // SIN
        b'I' => two_forms(3, SIN, start),
        b'D' => SDBD,
        _ => SETC,
    }
}

// By the first letter.
fn row_told(start: Start) -> usize
    ensures { result ≡ told names start }
{
    match start.first {
        b'A' => a_row(start),
        b'B' => b_row(start),
        b'C' => c_row(start),
        b'D' => d_row(start),
        b'E' => EIS,
        b'G' => GSWD,
        b'H' => HLT,
        b'I' => INCR,
        b'J' => j_row(start),
        b'M' => m_row(start),
        b'N' => n_row(start),
        b'R' => r_row(start),
        b'S' => s_row(start),
        b'T' => TCI,
        // XORR, XOR, XOR@, XORI
        _ => operation_row(XORR, XOR, start),
    }
}

// A text of fewer bytes than every line has gets the first row.
pub(crate) fn guess_row(text: &[u8]) -> usize
    ensures { result ≡ guess_of text.now }
{
    let [first, second, third, ..] = *text else {
        return HLT;
    };
    let length = text.len();
    let fourth = if length < LONGER { b' ' } else { text[3] };
    row_told(Start {
        length,
        first,
        second,
        third,
        fourth,
    })
}
