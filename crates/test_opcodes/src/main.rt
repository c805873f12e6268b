// Lists and assembles every opcode: the lines of an outside disassembler, which stand on standard input; each opcode under both D there and
// back; and wrong lines. Prints each outside line that differs, and how many went well.
#![tactic(auto)]

mod line;
mod outside;
mod sweep;
mod tally;
mod wrong;

const INPUT_ROOM: usize = 65536;

fn main(rt: HostRuntime) {
    let mut room = [0u8; INPUT_ROOM];
    let input = input::read_full(&mut rt.stdin(), &mut room);
    if input.len() == INPUT_ROOM {
        let _ = rt.println("the input fills its room, and may be cut");
    }
    outside::run(&rt, input);
    sweep::run(&rt);
    wrong::run(&rt);
}
