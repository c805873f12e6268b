// The metering program: reads an image from standard input, and writes the waits of its records or why it is refused.
#![tactic(auto)]

use report::Program;
use std::process::ExitCode;

// The listing program differs in this one name, and each program has a main of its own.
fn main(rt: HostRuntime) -> ExitCode {
    report::run(&rt, Program::MeterImage)
}
