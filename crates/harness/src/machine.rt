// Compares two states of the processor, and prints the registers and marks that differ.
ghost use Rattle.std.specs.Prelude.{◌≡◌, true, ◌↔◌};

use crate::case;
use cpu::{Lines, State, Status};

// Nothing is requested, and every external input is 0.
pub const QUIET: Lines = Lines {
    intrm: true,
    busrq: true,
    external: 0,
};

// Only prints. Whether a register differs is told by `==`, whose contract says so.
fn say_registers(rt: &impl Print, left: [u16; 8], expected: [u16; 8]) {
    for i in 0..8 {
        let name = [b'R', b'0' + i as u8];
        case::agree_word(rt, &name, left[i], expected[i]);
    }
}

// Mark by mark, since each that differs is printed.
fn agree_status(rt: &impl Print, left: Status, expected: Status) -> bool
    ensures { (result ≡ true) ↔ left ≡ expected }
{
    case::agree(rt, b"S", left.s == expected.s)
        & case::agree(rt, b"Z", left.z == expected.z)
        & case::agree(rt, b"O", left.o == expected.o)
        & case::agree(rt, b"C", left.c == expected.c)
        & case::agree(rt, b"I", left.i == expected.i)
        & case::agree(rt, b"D", left.d == expected.d)
        & case::agree(rt, b"halted", left.halted == expected.halted)
        & case::agree(rt, b"ready", left.ready == expected.ready)
        & case::agree(rt, b"INTRM's level", left.level == expected.level)
        & case::agree(rt, b"INTRM's mark", left.pending == expected.pending)
}

// Whether both states are the same.
pub fn agree(rt: &impl Print, left: State, expected: State) -> bool
    ensures { (result ≡ true) ↔ left ≡ expected }
{
    let registers = left.registers;
    let status = left.status;
    let expected_registers = expected.registers;
    let expected_status = expected.status;
    say_registers(rt, registers, expected_registers);
    (registers == expected_registers) & agree_status(rt, status, expected_status)
}
