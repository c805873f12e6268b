// Runs a vector through the step, and compares.
use crate::vector;
use crate::vector::{Flags, Memory, Vector};
use cpu::{Done, Kind, Status};
use harness::machine;
use memory::map;
use refusal::Refusal;

// What of the outcome is not as the vector has it.
#[derive(Clone, Copy)]
pub(crate) struct Differences {
    pub registers: bool,
    pub flags: bool,
    pub cycles: bool,
    pub memory: bool,
}

impl Differences {
    pub(crate) fn is_any(self) -> bool {
        self.registers | self.flags | self.cycles | self.memory
    }
}

// (Field by field: the vectors tell four of the ten marks.)
fn flags_of(status: Status) -> Flags {
    Flags {
        s: status.s,
        z: status.z,
        o: status.o,
        c: status.c,
    }
}

// Whether the step made an instruction, and in so many cycles.
fn executed_in(answer: Result<Done, Refusal>, cycles: u16) -> bool {
    match answer {
        Ok(
            Done {
                kind: Kind::Executed,
                cycles: taken,
            },
        ) => taken == u64::from(cycles),
        _ => false,
    }
}

// The whole of both memories is compared, so that a store which the vector does not have is seen, wherever it goes.
fn run_vector(vector: Vector, memory: &mut Memory, expected: &Memory) -> Differences {
    let after = vector.after;
    let stepped = cpu::step(vector.before, map::all_ram(), memory, machine::QUIET);
    let state = stepped.state;
    Differences {
        registers: state.registers != after.registers,
        flags: flags_of(state.status) != after.flags,
        cycles: !executed_in(stepped.answer, vector.cycles),
        memory: *memory != *expected,
    }
}

// What differs, or nothing where the line is malformed. The words that a vector does not name are 0.
pub(crate) fn run_line(line: &[u8]) -> Option<Differences> {
    let mut memory = [0u16; 65536];
    let mut expected = [0u16; 65536];
    let vector = vector::read_vector(line, &mut memory, &mut expected)?;
    Some(run_vector(vector, &mut memory, &expected))
}
