// The decoder: from an address and the double-byte mark D to the instruction that stands there. Step, meter and disassembler
// share it, and with it the one decision which forms are unspecified.
#![tactic(auto)]

ghost use Rattle.std.specs.Prelude.{◌≡◌};
ghost use Rattle.memory.specs.Near.{reads};
ghost use Rattle.decode.specs.Decode.{control_instruction, status_instruction, low_instruction, instruction_of, writes_r7, unspecified_form, specified, decode_words};
ghost use Rattle.decode.specs.Laws.{Decodes};

use memory::near::View;

pub mod fields;
pub mod rows;

// An instruction: a kind for each line of document 01's table, with its fields. s is bits 5 to 3 of the opcode, d bits 2 to 0.
// (Bits 9 to 6 as a byte make the whole six bytes long, which the compiler leaves in parts; eight it would pack into one number. The fields stay the
// opcode's bits, and are no enums: `opcode_for` and `InRange` of specs/ speak of these numbers, and each row would take an enum apart again.)
#[derive(Clone, Copy)]
pub enum Instr {
    // 000
    Hlt,
    // 001 002 003 005 006 007, SDBD EIS DIS TCI CLRC SETC: d
    Control(u16),
    // 004, the jumps
    Jump,
    // 008-02F and 038-03F by eights, INCR DECR COMR NEGR ADCR RSWD: s, d
    Single(u16, u16),
    // 030-033: d
    Gswd(u16),
    // 034-035: bit 0
    Nop(u16),
    // 036-037: bit 0
    Sin(u16),
    // 040-07F by eights, SWAP SLL RLC SLLC SLR SAR RRC SARC: s, d
    Shift(u16, u16),
    // 080-1FF, MOVR ADDR SUBR CMPR ANDR XORR: bits 9 to 6 (2 to 7), s, d
    Register(u8, u16, u16),
    // 200-23F: bits 5 to 0
    Branch(u16),
    // 240-27F, MVO: s, d
    Store(u16, u16),
    // 280-3FF, MVI ADD SUB CMP AND XOR: bits 9 to 6 (10 to 15), s, d
    Read(u8, u16, u16),
}

// Opcodes 000 to 007.
#[tactic(auto, using(std::proofs::lemmas::Bool::Decides::nat_tests), unfolding(crate::specs::Decode::control_instruction))]
fn control_instruction(d: u16) -> Instr
    ensures { result ≡ control_instruction d }
{
    match d {
        0 => Instr::Hlt,
        4 => Instr::Jump,
        _ => Instr::Control(d),
    }
}

// Opcodes 030 to 037.
#[tactic(auto, using(std::proofs::lemmas::Bool::Decides::nat_tests), unfolding(crate::specs::Decode::status_instruction))]
fn status_instruction(d: u16) -> Instr
    ensures { result ≡ status_instruction d }
{
    let low = d < 4;
    if low {
        return Instr::Gswd(d);
    }
    let nop = d < 6;
    if nop {
        Instr::Nop(d % 2)
    } else {
        Instr::Sin(d % 2)
    }
}

// Opcodes 000 to 03F. (By a `match`, here and in `rows`: this is the table itself, and no function is handed on.)
#[tactic(auto, using(std::proofs::lemmas::Bool::Decides::nat_tests), unfolding(crate::specs::Decode::low_instruction))]
fn low_instruction(s: u16, d: u16) -> Instr
    ensures { result ≡ low_instruction s d }
{
    match s {
        0 => control_instruction(d),
        6 => status_instruction(d),
        _ => Instr::Single(s, d),
    }
}

// The instruction of an opcode. Tests in pairs, and no `match` on w / 64: so the compiler takes the decoder for small enough to be made
// one with each of its callers. Fields are taken where they are needed, which saves a step some machine instructions.
#[tactic(auto, using(std::proofs::lemmas::Bool::Decides::nat_tests), unfolding(crate::specs::Decode::instruction_of))]
pub fn instruction(w: u16) -> Instr
    ensures { result ≡ instruction_of w }
{
    let lower = w / 8;
    if w < 0x200 {
        if 0x080 <= w {
            return Instr::Register((w / 64 % 16) as u8, lower % 8, w % 8);
        }
        if w < 0x040 {
            return low_instruction(lower % 8, w % 8);
        }
        return Instr::Shift(lower % 8, w % 8);
    }
    if 0x280 <= w {
        return Instr::Read((w / 64 % 16) as u8, lower % 8, w % 8);
    }
    if w < 0x240 {
        Instr::Branch(w % 64)
    } else {
        Instr::Store(lower % 8, w % 8)
    }
}

// The rows that write their result to R7, jumps and branches apart: by their d, but for RSWD, CMPR and CMP, which write no register.
pub fn writes_r7(instr: Instr) -> bool
    ensures { result ≡ writes_r7 instr }
{
    match instr {
        Instr::Single(s, d) => (d == 7) & (s != 7),
        Instr::Register(row, _, d) => (d == 7) & (row != 5),
        Instr::Read(row, _, d) => (d == 7) & (row != 13),
        _ => false,
    }
}

// The two unspecified forms: a jump whose second word ends in bits 3, and a stack read under D.
fn is_unspecified_at(view: &View, at: u16, instr: Instr, double: bool) -> bool
    ensures { result ≡ unspecified_form (reads view.now) at instr double }
{
    match instr {
        Instr::Jump => view.read(word::wrapping_add(at, 1)) % 4 == 3,
        Instr::Read(_, s, _) => double & (s == 6),
        _ => false,
    }
}

// An instruction at an address, unless its form is unspecified there. Only of a jump the second word is read. (The step and the walk read the
// opcode themselves and call this: the step needs the range at hand that the reading leaves. View, address and D are no struct: the first is
// one already, and the others change at each turn.)
#[tactic(auto, unfolding(crate::specs::Decode::specified))]
pub fn specified_at(view: &View, at: u16, instr: Instr, double: bool) -> Option<Instr>
    ensures { result ≡ specified (reads view.now) at instr double }
{
    let unspecified = is_unspecified_at(view, at, instr, double);
    if unspecified { None } else { Some(instr) }
}

// The instruction at an address.
#[tactic(auto, using(crate::proofs::DecodeLaws::decodes))]
pub fn decode_at(view: &View, at: u16, double: bool) -> Option<Instr>
    ensures { Decodes (reads view.now) at double result }
{
    let instr = instruction(view.read(at) % 1024);
    specified_at(view, at, instr, double)
}

// The instruction of two words with D clear: then only a jump can be unspecified.
#[tactic(auto, unfolding(crate::specs::Decode::decode_words))]
pub fn decode_words(first: u16, second: u16) -> Option<Instr>
    ensures { result ≡ decode_words first second }
{
    let w = first % 1024;
    if (w == 0x004) & (second % 4 == 3) {
        None
    } else {
        Some(instruction(w))
    }
}
