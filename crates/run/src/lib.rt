// The run: steps with fixed lines, until a budget of cycles is spent, the machine halts, or the next step is refused for an
// unspecified form.
#![tactic(auto)]

ghost use Rattle.std.specs.Prelude.{◌≡◌, ◌+◌, ◌<◌, ◌≤◌};
ghost use Rattle.memory.specs.Bus.{bus_on};
ghost use Rattle.cpu.specs.Machine.{machine_of};
ghost use Rattle.cpu.specs.Step.{outcome, step_of};
ghost use Rattle.run.specs.Run.{cause_of, run_outcome, run_of};
ghost use Rattle.run.specs.Inner.Admission.{run_admission};
ghost use Rattle.run.specs.Inner.Loop.{stopped_of, loop_end, loop_of};

use cpu::{Done, Kind, Lines, NearStep, State, Status, Stepped};
use memory::map::Board;
use memory::near;
use refusal::Refusal;

// What ended a run.
#[derive(Clone, Copy)]
pub enum Cause {
    Halted,
    Unspecified,
    Budget,
}

// How a run ended: the steps that it made, their cycles, and the cause.
#[derive(Clone, Copy)]
pub struct Ended {
    pub steps: u32,
    pub cycles: u32,
    pub cause: Cause,
}

// What a run left: the state, and how it ended or why it was refused.
#[derive(Clone, Copy)]
pub struct Ran {
    pub state: State,
    pub answer: Result<Ended, Refusal>,
}

// Where the loop stopped: the steps that it made and the sum of their cycles, and what the last step tried left. Before the first that is
// the state given and a grant of 0 cycles.
#[derive(Clone, Copy)]
struct Stop {
    state: State,
    steps: u32,
    cycles: u64,
    answer: Result<Done, Refusal>,
}

// (A loop that is left by `break`, or a `Stepped` kept whole in `Stop` or in the step, takes 2 to 5 machine instructions a step more.)
fn stopped(last: NearStep, steps: u32, cycles: u64) -> Stop
    ensures { result ≡ stopped_of last steps cycles }
{
    Stop {
        state: last.state,
        steps,
        cycles,
        answer: last.answer,
    }
}

const BUDGET_LIMIT: u32 = 1000000;

// The same state. A mark that comes from memory may be any byte to the compiler; copied as a `bool` it is 0 or 1 all through the
// loop. (With `state` itself there a step takes a quarter more machine instructions.)
fn copied(state: State) -> State
    ensures { result ≡ state }
{
    let registers = state.registers;
    let status = state.status;
    State {
        registers,
        status: Status { ..status },
    }
}

// Steps on an admitted memory while the sum of their cycles is below the budget and none is refused. Each step gets the range at hand that the last one
// left. In the library this is the only caller of the processor's step, so that the compiler makes one function of both. (State, board, words and lines
// go along as the C calls hand them over.)
fn make_steps(state: State, board: Board, mem: &mut [u16], lines: Lines, budget: u32) -> Stop
    requires { budget ≤ 1000000 }
    ensures ends { loop_end board result mem.new ≡ loop_of (machine_of state) (bus_on board mem.old) lines budget }
    ensures below { result.cycles < budget + 12 }
{
    let mut last = NearStep {
        state: copied(state),
        answer: Ok(Done {
            kind: Kind::Granted,
            cycles: 0,
        }),
        near: near::no_range(),
    };
    let mut steps: u32 = 0;
    let mut cycles: u64 = 0;
    let limit = budget as u64;
    // (No `for`: the steps are not known before, it ends by the cycles.)
    while cycles < limit {
        last = cpu::admitted_step(last.state, board, last.near, mem, lines);
        let Ok(done) = last.answer else {
            return stopped(last, steps, cycles);
        };
        cycles += done.cycles;
        steps += 1;
    }
    stopped(last, steps, cycles)
}

// One step, by the run's loop: every step costs a cycle, so a budget of 1 makes one.
pub fn one_step(state: State, board: Board, mem: &mut [u16], lines: Lines) -> Stepped
    ensures { outcome board result mem.new ≡ step_of (machine_of state) (bus_on board mem.old) lines }
{
    if let Err(refusal) = memory::admit(board, mem) {
        return Stepped {
            state,
            answer: Err(refusal),
        };
    }
    let stopped = make_steps(state, board, mem, lines, 1);
    Stepped {
        state: stopped.state,
        answer: stopped.answer,
    }
}

// Why no more steps are made: halted, then unspecified, then budget.
fn ended_by(state: State, board: Board, mem: &[u16], lines: Lines) -> Cause
    ensures { result ≡ cause_of (machine_of state) (bus_on board mem.now) lines }
{
    if state.status.halted {
        Cause::Halted
    } else if cpu::is_unspecified_next(state, board, mem, lines) {
        Cause::Unspecified
    } else {
        Cause::Budget
    }
}

// Whether a run is let in: the tests 1 and 14, then 4, then 2.
#[tactic(auto, unfolding(crate::specs::Inner::Admission::run_admission))]
fn admit(state: State, board: Board, mem: &[u16], budget: u32) -> Result<(), Refusal>
    ensures { result ≡ run_admission (machine_of state) (bus_on board mem.now) budget }
{
    memory::admit(board, mem)?;
    if BUDGET_LIMIT < budget {
        return Err(Refusal::BudgetTooHigh);
    }
    if state.status.halted {
        return Err(Refusal::Halted);
    }
    Ok(())
}

// Runs for a budget of 0 to 1,000,000 cycles.
pub fn run(state: State, board: Board, mem: &mut [u16], lines: Lines, budget: u32) -> Ran
    ensures { run_outcome board result mem.new ≡ run_of (machine_of state) (bus_on board mem.old) lines budget }
{
    if let Err(refusal) = admit(state, board, mem, budget) {
        return Ran {
            state,
            answer: Err(refusal),
        };
    }
    let Stop {
        state,
        steps,
        cycles,
        ..
    } = make_steps(state, board, mem, lines, budget);
    let ended = Ended {
        steps,
        cycles: cycles as u32,
        cause: ended_by(state, board, mem, lines),
    };
    Ran {
        state,
        answer: Ok(ended),
    }
}
