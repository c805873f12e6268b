// Runs hand-made cases of the set of reached addresses and of the region meter that takes it. Prints a line for each case, its name with `ok`
// or `FAILED`, and last the counts. The cases stand in the file `stdin`, whose head says how a case is written.
#![tactic(auto)]

mod build;
mod call;
mod members;
mod row;
mod tell;

use harness::cases;
use harness::cases::{Case, Judge};

// What judges a case here: the calls, which need no room.
#[derive(Drop)]
struct Calls;

impl Judge for Calls {
    // (The calls are those of this program, so that no other shares this function.)
    fn is_well(&mut self, rt: &impl Print, case: Case) -> bool {
        cases::begin(rt, case.name());
        let (Some(before), Some(after)) = (case.before(), case.after()) else {
            return false;
        };
        match case.kind() {
            b"reach" => call::reach_is_well(before, after),
            b"region" => call::region_is_well(before, after),
            b"both" => call::both_are_well(before, after),
            _ => false,
        }
    }
}

// (A program has a main of its own: what it shares with the others is one call.)
fn main(rt: HostRuntime) {
    cases::run(&rt, &mut rt.stdin(), &mut [0u8; 131072], &mut Calls);
}
