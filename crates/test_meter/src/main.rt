// Runs hand-made cases of the wait meter. Prints a line for each case, its name with `ok` or `FAILED`, and last the counts. The
// cases stand in the file `stdin`, whose head says how a case is written.
#![tactic(auto)]

mod regions;
mod rows;
mod waits;

use crate::rows::Call;
use harness::cases::{Case, Judge};
use harness::{cases, words};

// One word more than the meter takes, for the cases that lend too much.
const MEMORY_ROOM: usize = 65537;

// What judges a case here: the calls, in the room that they need.
#[derive(Drop)]
struct Room {
    memory: [u16; MEMORY_ROOM],
}

impl Judge for Room {
    // Makes the call of a case, and compares. Lends the call as many words as the case says.
    fn is_well(&mut self, rt: &impl Print, case: Case) -> bool {
        cases::begin(rt, case.name());
        let Some((call, before, after)) = rows::parts_of(case) else {
            return false;
        };
        let Some(memory) = self.memory.get_mut(..words::size_of(before) as usize) else {
            return false;
        };
        words::lay(memory, before);
        match call {
            Call::Wait => waits::agree(memory, before, after),
            Call::Region => regions::agree(memory, before, after),
        }
    }
}

fn main(rt: HostRuntime) {
    let mut room = Room {
        memory: [0; MEMORY_ROOM],
    };
    cases::run(&rt, &mut rt.stdin(), &mut [0u8; 65536], &mut room);
}
