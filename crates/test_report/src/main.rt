// Prints what both programs print of hand-made inputs: for each case a line with its name, the listing, and the metering. The cases stand in
// the file `stdin`, whose head says how a case is written, and `stdout` has what is to be printed.
#![tactic(auto)]

mod build;

use harness::text::Rows;
use harness::{fields, text};
use report::Program;

const CASES_ROOM: usize = 65536;

// The text of a program, which says whether the input is refused as its answer does.
fn show(rt: &impl Print, program: Program, image: &[u8]) {
    let mut room = [0u8; report::TEXT_ROOM];
    let printed = report::print(program, image, &mut room);
    let text = &room[..printed.size];
    let _ = rt.write_all(text);
    if printed.refused != text.starts_with(b"REFUSED ") {
        let _ = rt.println("refused otherwise");
    }
}

// A case is two rows: its name, and its input.
fn run_case(rt: &impl Print, first: &[u8], second: &[u8]) {
    let mut room = [0u8; report::READ_ROOM];
    let before = fields::body(second);
    let count = build::put_input(&mut room, before);
    let image = &room[..count];
    let _ = rt.print("# ");
    let _ = rt.write_all(fields::body(first));
    let _ = rt.print("\n");
    if fields::is_kind(first, b"report")
        & fields::is_kind(second, b"before")
        & build::is_input(before)
    {
        show(rt, Program::ListImage, image);
        show(rt, Program::MeterImage, image)
    } else {
        let _ = rt.println("malformed");
    }
}

// A row that is no remark is the first of a case's two rows, so that no row is passed over.
fn run_cases(rt: &impl Print, cases: &[u8]) {
    let mut rows = Rows::of(cases);
    while let Some(first) = rows.next() {
        if !text::is_remark(first) {
            run_case(rt, first, rows.next().unwrap_or_default());
        }
    }
}

fn main(rt: HostRuntime) {
    let mut room = [0u8; CASES_ROOM];
    let cases = input::read_full(&mut rt.stdin(), &mut room);
    run_cases(&rt, cases);
    if cases.len() == CASES_ROOM {
        let _ = rt.println("the cases fill their room, and may be cut");
    }
}
