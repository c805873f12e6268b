// The rows of a case. The head of the file `stdin` says what their fields mean.
use cpu::{Lines, State, Status};
use harness::cases::Case;
use harness::{fields, form, map, words};
use memory::map::Board;

// What a case calls.
#[derive(Clone, Copy)]
pub(crate) enum Call {
    Step,
    Run,
}

// The words of this program's cases.
fn call_of(case: Case) -> Option<Call> {
    match case.kind() {
        b"step" => Some(Call::Step),
        b"run" => Some(Call::Run),
        _ => None,
    }
}

// The case's name, or the whole row where it calls nothing.
pub(crate) fn name_of<'a>(case: Case<'a>) -> &'a [u8] {
    match call_of(case) {
        Some(_) => case.name(),
        None => case.first,
    }
}

fn is_given(before: &[u8]) -> bool {
    form::fit(
        before,
        b"r0=word r1=word r2=word r3=word r4=word r5=word r6=word r7=word flags=SZOCID \
          halted=bit ready=bit pending=bit level=bit intrm=bit busrq=bit inputs=word \
          size=number map=map fill=word 0000=list budget=number",
    ) & words::are_inside(before, words::size_of(before) as usize)
        & (fields::number(before, b"budget", 0) < 4294967296)
}

fn is_expected(before: &[u8], after: &[u8]) -> bool {
    form::fit(
        after,
        b"r0=word r1=word r2=word r3=word r4=word r5=word r6=word r7=word flags=SZOCID \
          halted=bit ready=bit pending=bit level=bit 0000=list \
          answer=any steps=number cycles=number number=number",
    ) & words::are_inside(after, words::size_of(before) as usize)
}

// A step has no budget, and does not answer how many steps it is.
fn fits_call(call: Call, before: &[u8], after: &[u8]) -> bool {
    match call {
        Call::Run => true,
        Call::Step => !fields::has(before, b"budget") & !fields::has(after, b"steps"),
    }
}

// What a case calls, and the fields of what is given and of what is expected; nothing, where its rows are not as they are to be.
pub(crate) fn parts_of<'a>(case: Case<'a>) -> Option<(Call, &'a [u8], &'a [u8])> {
    let call = call_of(case)?;
    let before = case.before()?;
    let after = case.after()?;
    if is_given(before) & is_expected(before, after) & fits_call(call, before, after) {
        Some((call, before, after))
    } else {
        None
    }
}

pub(crate) fn board_of(before: &[u8]) -> Board {
    map::board(before, b"map")
}

// Makes the memory that the call should leave: what it is given, with the case's stores.
pub(crate) fn lay_after(memory: &mut [u16], before: &[u8], after: &[u8]) {
    words::lay(memory, before);
    words::put(memory, after);
}

// The machine before a call, where a row leaves all out.
fn usual() -> State {
    State {
        registers: [
            0x1010, 0x1111, 0x1212, 0x1313, 0x1414, 0x1515, 0x1616, 0x0100,
        ],
        status: Status {
            s: false,
            z: false,
            o: false,
            c: false,
            i: false,
            d: false,
            halted: false,
            ready: false,
            level: true,
            pending: false,
        },
    }
}

pub(crate) fn state_before(before: &[u8]) -> State {
    state_of(before, usual())
}

// What a row leaves out is as before the call.
pub(crate) fn state_after(before: &[u8], after: &[u8]) -> State {
    state_of(after, state_before(before))
}

fn state_of(row: &[u8], default: State) -> State {
    let registers = default.registers;
    let status = default.status;
    State {
        registers: registers_of(row, registers),
        status: status_of(row, status),
    }
}

fn registers_of(row: &[u8], default: [u16; 8]) -> [u16; 8] {
    let mut registers = default;
    for i in 0..8 {
        let key = [b'r', b'0' + i as u8];
        registers[i] = fields::word(row, &key, default[i]);
    }
    registers
}

fn flag(row: &[u8], letter: u8, default: bool) -> bool {
    fields::letter(row, b"flags", letter, default)
}

fn status_of(row: &[u8], default: Status) -> Status {
    Status {
        s: flag(row, b'S', default.s),
        z: flag(row, b'Z', default.z),
        o: flag(row, b'O', default.o),
        c: flag(row, b'C', default.c),
        i: flag(row, b'I', default.i),
        d: flag(row, b'D', default.d),
        halted: fields::bit(row, b"halted", default.halted),
        ready: fields::bit(row, b"ready", default.ready),
        level: fields::bit(row, b"level", default.level),
        pending: fields::bit(row, b"pending", default.pending),
    }
}

pub(crate) fn lines_of(before: &[u8]) -> Lines {
    Lines {
        intrm: fields::bit(before, b"intrm", true),
        busrq: fields::bit(before, b"busrq", true),
        external: fields::word(before, b"inputs", 0),
    }
}

// (As `findings::limit_of` of the harness, but for 32 bits: a line each, with its own key.)
pub(crate) fn budget_of(before: &[u8]) -> u32 {
    (fields::number(before, b"budget", 0) % 4294967296) as u32
}
