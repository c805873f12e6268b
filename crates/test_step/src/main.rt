// Runs hand-made cases of the processor's step and of the run. Prints a line for each case, its name with `ok` or with what differs,
// and last the counts. The cases stand in the file `stdin`, whose head says how a case is written.
#![tactic(auto)]

mod answer;
mod rows;
mod verdict;

use crate::answer::Answer;
use crate::rows::Call;
use cpu::State;
use harness::cases::{Case, Judge};
use harness::{case, cases, machine, words};

// One word more than a step takes, for the cases that lend too much.
const MEMORY_ROOM: usize = 65537;

// What a call left beside the memory.
#[derive(Clone, Copy)]
struct Left {
    state: State,
    answer: Answer,
}

fn step_from(before: &[u8], memory: &mut [u16]) -> Left {
    let stepped = cpu::step(
        rows::state_before(before),
        rows::board_of(before),
        memory,
        rows::lines_of(before),
    );
    Left {
        state: stepped.state,
        answer: match stepped.answer {
            Ok(done) => Answer::from(done),
            Err(why) => Answer::from(why),
        },
    }
}

fn run_from(before: &[u8], memory: &mut [u16]) -> Left {
    let ran = run::run(
        rows::state_before(before),
        rows::board_of(before),
        memory,
        rows::lines_of(before),
        rows::budget_of(before),
    );
    Left {
        state: ran.state,
        answer: match ran.answer {
            Ok(ended) => Answer::from(ended),
            Err(why) => Answer::from(why),
        },
    }
}

// Makes the step or the run of a case, and compares what it left with what the case says: registers, flags, marks, the answer, and every
// word of the memory. `expected` is the memory's twin, which gets the stores that the case names.
fn call_agrees(
    rt: &impl Print,
    call: Call,
    before: &[u8],
    after: &[u8],
    memory: &mut [u16],
    expected: &mut [u16],
) -> bool {
    words::lay(memory, before);
    rows::lay_after(expected, before, after);
    let left = match call {
        Call::Step => step_from(before, memory),
        Call::Run => run_from(before, memory),
    };
    machine::agree(rt, left.state, rows::state_after(before, after))
        & verdict::agree_answer(rt, left.answer, after)
        & verdict::agree_memory(rt, memory, expected)
}

// What judges a case here: the calls, in the rooms that they need. `expected` is the memory's twin, with the stores that a case names.
#[derive(Drop)]
struct Rooms {
    memory: [u16; MEMORY_ROOM],
    expected: [u16; MEMORY_ROOM],
}

impl Judge for Rooms {
    // Lends the call as many words as the case says.
    fn is_well(&mut self, rt: &impl Print, case: Case) -> bool {
        cases::begin(rt, rows::name_of(case));
        let Some((call, before, after)) = rows::parts_of(case) else {
            return case::malformed(rt);
        };
        let size = words::size_of(before) as usize;
        let (Some(memory), Some(expected)) = (
            self.memory.get_mut(..size),
            self.expected.get_mut(..size),
        ) else {
            return case::malformed(rt);
        };
        call_agrees(rt, call, before, after, memory, expected)
    }
}

fn main(rt: HostRuntime) {
    let mut rooms = Rooms {
        memory: [0; MEMORY_ROOM],
        expected: [0; MEMORY_ROOM],
    };
    cases::run(&rt, &mut rt.stdin(), &mut [0u8; 262144], &mut rooms);
}
