// Runs the rows of the shifts through carry as steps. Prints each row that fails, behind what differs, and last the counts. The rows stand
// in the file `stdin`, whose head says how one is written; the script tests/shift-rows makes it.
#![tactic(auto)]

mod rows;

use cpu::{Done, Kind};
use harness::input::read_full;
use harness::tally::Tally;
use harness::text::Rows;
use harness::{case, cases, fields, machine, text};
use listing::Assembly;
use memory::map;
use refusal::Refusal;

const INPUT_ROOM: usize = 131072;

// An instruction was executed, in so many cycles.
fn agree_answer(rt: &impl Print, given: Result<Done, Refusal>, expected: u64) -> bool {
    let Ok(
        Done {
            kind: Kind::Executed,
            cycles,
        },
    ) = given
    else {
        return case::agree(rt, b"the answer", false);
    };
    case::agree(rt, b"the number of cycles", cycles == expected)
}

// Makes the step, and compares all that it leaves with what the row says.
fn step_agrees(rt: &impl Print, row: &[u8], opcode: u16) -> bool {
    let mut memory = [opcode];
    let stepped = cpu::step(
        rows::before(row),
        map::all_ram(),
        &mut memory,
        machine::QUIET,
    );
    machine::agree(rt, stepped.state, rows::after(row))
        & agree_answer(rt, stepped.answer, fields::number(row, b"cycles", 0))
        & case::agree(rt, b"the memory", memory[0] == opcode)
}

// The opcode comes from the line, which ties it to the row's name.
fn line_agrees(rt: &impl Print, row: &[u8]) -> bool {
    let Ok(Assembly::One(opcode)) = listing::assemble(fields::value(row, b"text"), false) else {
        return case::malformed(rt);
    };
    step_agrees(rt, row, opcode)
}

fn is_well(rt: &impl Print, row: &[u8]) -> bool {
    if rows::is_formed(row) {
        line_agrees(rt, fields::body(row))
    } else {
        case::malformed(rt)
    }
}

// Only a row that fails gets a line.
fn run_rows(rt: &impl Print, input: &[u8]) -> Tally {
    let mut tally = Tally::new();
    for row in Rows::of(input) {
        if text::is_remark(row) {
            continue;
        }
        if is_well(rt, row) {
            tally.count(true);
        } else {
            cases::begin(rt, row);
            tally.close(rt, false);
        }
    }
    tally
}

fn main(rt: HostRuntime) {
    let mut room = [0u8; INPUT_ROOM];
    let input = read_full(&mut rt.stdin(), &mut room);
    let tally = run_rows(&rt, input);
    cases::tell(&rt, input.len() == INPUT_ROOM, tally);
}
