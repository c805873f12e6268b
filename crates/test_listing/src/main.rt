// Runs hand-made cases of the disassembler and the assembler. Prints a line for each case, its first row with `ok` or `FAILED`, and last the
// counts. The cases stand in the file `stdin`, whose head says how a case is written.
#![tactic(auto)]

mod assemble;
mod list;

use harness::cases;
use harness::cases::{Case, Judge};

// What judges a case here: the calls, which need no room.
#[derive(Drop)]
struct Calls;

impl Judge for Calls {
    // The first row tells what is called.
    fn is_well(&mut self, rt: &impl Print, case: Case) -> bool {
        cases::begin(rt, case.first);
        let (Some(before), Some(after)) = (case.before(), case.after()) else {
            return false;
        };
        match case.kind() {
            b"list" => list::is_well(before, after),
            b"assemble" => assemble::is_well(before, after),
            _ => false,
        }
    }
}

// (A program has a main of its own: what it shares with the others is one call.)
fn main(rt: HostRuntime) {
    cases::run(&rt, &mut rt.stdin(), &mut [0u8; 65536], &mut Calls);
}
