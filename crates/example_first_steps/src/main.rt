// Makes a few steps from reset and prints the registers after each: the shortest use of the processor.
#![tactic(auto)]

use cpu::{Done, Lines, State};
use refusal::Refusal;

// The program starts at $1000, where a reset does.
const PROGRAM: [u16; 6] = [
    // SDBD
    0x001,
    // MVII #$1234,R0
    0x2B8, 0x034, 0x012,
    // MOVR R0,R1
    0x081,
    // INCR R1
    0x009,
];

// R0 to R7, and the cycles of the step that left them so.
fn print_step(rt: &impl Print, registers: [u16; 8], answer: Result<Done, Refusal>) {
    for register in registers {
        let _ = print!(rt; "{register:04x} ");
    }
    let _ = match answer {
        Ok(done) => println!(rt; "{}", done.cycles),
        Err(refusal) => println!(rt; "refused {}", refusal::number(refusal)),
    };
}

// One step with nothing requested, on a board of RAM alone, and the state after it.
fn shown(rt: &impl Print, state: State, mem: &mut [u16]) -> State {
    let lines = Lines {
        intrm: true,
        busrq: true,
        external: 0,
    };
    let after = cpu::step(state, memory::map::all_ram(), mem, lines);
    print_step(rt, after.state.registers, after.answer);
    after.state
}

fn main(rt: HostRuntime) {
    let mut mem = [0u16; 4102];
    mem[0x1000..].copy_from_slice(&PROGRAM);
    let _ = println!(rt; "R0   R1   R2   R3   R4   R5   R6   R7   cycles");
    let mut state = cpu::reset();
    for _ in 0..4 {
        state = shown(&rt, state, &mut mem);
    }
}
