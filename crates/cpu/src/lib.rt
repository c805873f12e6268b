// The processor: its state, and one step of it.
#![tactic(auto)]

ghost use Rattle.std.specs.Prelude.{◌≡◌, false, get_or};
ghost use Rattle.refusal.specs.Report.{is_refused};
ghost use Rattle.memory.specs.Bus.{bus_on};
ghost use Rattle.memory.specs.Near.{in_front, near_of, reads};
ghost use Rattle.decode.specs.Decode.{decode_at};
ghost use Rattle.cpu.specs.Machine.{machine_of, reset_machine};
ghost use Rattle.cpu.specs.Answer.{step_report, cycles_of, meets_unspecified};
ghost use Rattle.cpu.specs.Step.{decoded_action, decoded, admitted_action, made, step_of, admitted_step, outcome, outcome_near, near_after};
ghost use Rattle.cpu.specs.Inner.Parts.{machine_in, is_unspecified_form, stepped_of};

use crate::begun::Begun;
use memory::map::{Board, Range};
use memory::near;
use memory::near::View;
use refusal::Refusal;

mod begun;
mod branch;
mod change;
mod control;
mod execute;
mod operate;
mod registers;
mod requests;
mod single;
mod store;
mod types;

// The machine beside its registers: flags S Z O C I D, halted, ready, the previous INTRM level (true: high) and the pending
// mark. `ready` says that a request is heard before the next instruction.
#[derive(Clone, Copy)]
pub struct Status {
    pub halted: bool,
    pub s: bool,
    pub z: bool,
    pub o: bool,
    pub c: bool,
    pub i: bool,
    pub d: bool,
    pub ready: bool,
    pub level: bool,
    pub pending: bool,
}

// R0 to R7 and the rest. It goes into a step by value and comes back by value.
#[derive(Clone, Copy)]
pub struct State {
    pub registers: [u16; 8],
    pub status: Status,
}

// The inputs of a step: the levels of INTRM and BUSRQ (true: high), and the external branch inputs, input n in bit n.
#[derive(Clone, Copy)]
pub struct Lines {
    pub intrm: bool,
    pub busrq: bool,
    pub external: u16,
}

// Which item of document 01's order a step goes by: 1 refused as halted, 3 the bus granted, 4 an interrupt served, 5 one
// instruction.
#[derive(Clone, Copy)]
pub enum Plan {
    Halting,
    Granting,
    Interrupting,
    Executing,
}

// What a step did, by the number of its item in document 01's order: the bus granted, an interrupt served, one instruction made.
#[derive(Clone, Copy)]
pub enum Kind {
    Granted = 3,
    Interrupted = 4,
    Executed = 5,
}

// What a step did, and its cycles. (Cycles of 64 bits make the answer too long to be packed into one number.)
#[derive(Clone, Copy)]
pub struct Done {
    pub kind: Kind,
    pub cycles: u64,
}

// What a step left: the state, and what was done or why the step was refused.
#[derive(Clone, Copy)]
pub struct Stepped {
    pub state: State,
    pub answer: Result<Done, Refusal>,
}

// The same with the range at hand after it, in which the opcode stood: a run hands it to its next step.
#[derive(Clone, Copy)]
pub struct NearStep {
    pub state: State,
    pub answer: Result<Done, Refusal>,
    pub near: Range,
}

// Where a reset starts.
const RESET_ADDRESS: u16 = 0x1000;

// A step that grants the bus.
const GRANT: Done = Done {
    kind: Kind::Granted,
    cycles: 1,
};

#[tactic(auto, unfolding(crate::specs::Machine::reset_machine))]
pub fn reset() -> State
    ensures { machine_of result ≡ reset_machine }
{
    State {
        registers: [0, 0, 0, 0, 0, 0, 0, RESET_ADDRESS],
        status: Status {
            halted: false,
            s: false,
            z: false,
            o: false,
            c: false,
            i: false,
            d: false,
            ready: false,
            level: true,
            pending: false,
        },
    }
}

fn finished(
    registers: [u16; 8],
    status: Status,
    answer: Result<Done, Refusal>,
    near: Range,
) -> NearStep
    ensures { result ≡ stepped_of registers status answer near }
{
    NearStep {
        state: State { registers, status },
        answer,
        near,
    }
}

// The instruction at R7; `status` is the state's with INTRM noted. Nothing is changed before the last refusal is decided. The rows
// see R7 one on: past an instruction of one word.
fn instruction(
    registers: [u16; 8],
    before: Status,
    status: Status,
    board: Board,
    given: Range,
    mem: &mut [u16],
    lines: Lines,
) -> NearStep
    requires { status.halted ≡ false }
    ensures left { outcome_near board result mem.new ≡ made (bus_on board mem.old) (decoded_action (decoded (machine_in registers status) (bus_on (in_front result.near board) mem.old)) (machine_in registers before) (machine_in registers status) (bus_on (in_front result.near board) mem.old) lines) }
    ensures near { result.near ≡ near_of board given (get_or registers 7 0) }
{
    let pc = registers[7];
    let here = View {
        board,
        near: given,
        words: mem,
    };
    let fetched = here.fetch(pc);
    let near = fetched.near;
    let view = View { near, ..here };
    let read = decode::instruction(fetched.word % 1024);
    let Some(instr) = decode::specified_at(&view, pc, read, status.d) else {
        return finished(registers, before, Err(Refusal::Unspecified), near);
    };
    let seen = registers::put_next(registers, word::wrapping_add(pc, 1));
    let begun = Begun {
        registers: seen,
        status,
        pc,
    };
    let change = execute::execute(begun, board, near, mem, lines.external, instr);
    let after = change.status;
    let done = Done {
        kind: Kind::Executed,
        cycles: change.cycles,
    };
    finished(registers::written(registers, change), after, Ok(done), near)
}

// One step on a memory that was let in, in document 01's order. A run asks once and makes all its steps by this. It reads with a range at hand, which
// changes no word where the range is one of the board's. (State, board, words and lines go along as the C calls hand them over, and a `match` on the
// plan is the order itself.)
pub fn admitted_step(
    state: State,
    board: Board,
    near: Range,
    mem: &mut [u16],
    lines: Lines,
) -> NearStep
    ensures left { outcome_near board result mem.new ≡ made (bus_on board mem.old) (admitted_action (machine_of state) (bus_on (in_front result.near board) mem.old) lines) }
    ensures near { result.near ≡ near_after board near (machine_of state) lines }
{
    let registers = state.registers;
    let before = state.status;
    let status = requests::noted(before, lines);
    let plan = requests::plan_of(status, lines);
    match plan {
        Plan::Halting => finished(registers, before, Err(Refusal::Halted), near),
        Plan::Granting => finished(registers, status, Ok(GRANT), near),
        Plan::Interrupting => requests::interrupt(registers, status, board, near, mem),
        Plan::Executing => instruction(registers, before, status, board, near, mem, lines),
    }
}

// One step.
pub fn step(state: State, board: Board, mem: &mut [u16], lines: Lines) -> Stepped
    ensures { outcome board result mem.new ≡ step_of (machine_of state) (bus_on board mem.old) lines }
{
    if let Err(refusal) = memory::admit(board, mem) {
        return Stepped {
            state,
            answer: Err(refusal),
        };
    }
    let left = admitted_step(state, board, near::no_range(), mem, lines);
    Stepped {
        state: left.state,
        answer: left.answer,
    }
}

// The cycles that a step answers, and 0 for a refused one.
pub fn cycles(answer: Result<Done, Refusal>) -> u64
    ensures { result ≡ cycles_of (step_report answer) }
{
    answer.map_or(0, |done| done.cycles)
}

// Whether an unspecified form stands at an address.
fn is_unspecified_at(view: &View, at: u16, double: bool) -> bool
    ensures { result ≡ is_unspecified_form (decode_at (reads view.now) at double) }
{
    decode::decode_at(view, at, double).is_none()
}

// Whether a step from here would be refused for an unspecified form. Nothing is changed: a run looks so at the step that it does
// not make.
pub fn is_unspecified_next(state: State, board: Board, mem: &[u16], lines: Lines) -> bool
    ensures { result ≡ meets_unspecified (admitted_step (machine_of state) (bus_on board mem.now) lines).answer }
{
    let registers = state.registers;
    let before = state.status;
    let status = requests::noted(before, lines);
    let plan = requests::plan_of(status, lines);
    match plan {
        Plan::Halting => false,
        Plan::Granting => false,
        Plan::Interrupting => false,
        Plan::Executing => {
            let pc = registers[7];
            is_unspecified_at(&View::at(board, mem, pc), pc, status.d)
        }
    }
}

// Whether a step was refused.
pub fn is_refused(answer: Result<Done, Refusal>) -> bool
    ensures { result ≡ is_refused (step_report answer) }
{
    answer.is_err()
}
