// Runs the vectors of standard input, one a line, through the proved step. Prints each line on which the step does not agree, and at the
// end how many there were. README.md says where the vectors come from.
#![tactic(auto)]

mod compare;
mod parse;
mod report;
mod vector;

use harness::text::Rows;
use report::Tally;

fn run_lines(rt: &impl Print, text: &[u8]) -> Tally {
    let mut tally = Tally {
        vectors: 0,
        mismatches: 0,
        malformed: 0,
    };
    for (lines, line) in Rows::of(text).enumerate() {
        tally = report::count(rt, tally, lines as u64, compare::run_line(line));
    }
    tally
}

// A full buffer may have cut the input, and a run over a part of the vectors would pass for one over all.
fn main(rt: HostRuntime) {
    let mut room = [0u8; 524288];
    let text = input::read_full(&mut rt.stdin(), &mut room);
    let _ = if text.len() == 524288 {
        rt.println("the input is too long")
    } else {
        rt.println(run_lines(&rt, text))
    };
}
