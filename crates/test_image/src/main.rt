// Runs hand-made cases of the image loader and writer. Prints a line for each case, its name with `ok` or `FAILED`, and last the counts.
// The cases stand in the file `stdin`, whose head says how a case is written.
#![tactic(auto)]

mod build;
mod call;
mod pattern;
mod pieces;
mod row;

use harness::cases::{self, Case, Judge};

const INPUT_ROOM: usize = 262144;

// What judges a case here: the calls, which need no room.
#[derive(Drop)]
struct Calls;

impl Judge for Calls {
    // The rows below the first are to begin with their names. The calls are those of this program, so that no other shares this function.
    fn is_well(&mut self, rt: &impl Print, case: Case) -> bool {
        cases::begin(rt, case.name());
        let (Some(before), Some(after)) = (case.before(), case.after()) else {
            return false;
        };
        match case.kind() {
            b"load" => call::load_is_well(before, after),
            b"write" => call::write_is_well(before, after),
            b"trip" => call::trip_is_well(before, after),
            _ => false,
        }
    }
}

// (A program has a main of its own: what it shares with the others is one call.)
fn main(rt: HostRuntime) {
    cases::run(&rt, &mut rt.stdin(), &mut [0u8; INPUT_ROOM], &mut Calls);
}
