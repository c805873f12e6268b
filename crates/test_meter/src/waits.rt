// The meter for an address: its call, and its answer compared with what a case tells.
use harness::{fields, findings, map};
use meter::Walked;
use refusal::Refusal;

// Whether a row tells an answer of this name with these numbers, 0 where it has none.
fn tells(after: &[u8], name: &[u8], cycles: u16, address: u16, number: u16) -> bool {
    fields::is(after, b"answer", name)
        & (fields::number(after, b"cycles", 0) == u64::from(cycles))
        & (fields::word(after, b"address", 0) == address)
        & (fields::number(after, b"number", 0) == u64::from(number))
}

// (Each variant has its own numbers.)
fn tells_answer(after: &[u8], answer: Result<Walked, Refusal>) -> bool {
    match answer {
        Ok(Walked::Wait { cycles, .. }) => tells(after, b"wait", cycles, 0, 0),
        Ok(Walked::Over) => tells(after, b"over", 0, 0, 0),
        Ok(Walked::Halts) => tells(after, b"halts", 0, 0, 0),
        Ok(Walked::Unspecified { address, .. }) => tells(after, b"unspecified", 0, address, 0),
        Err(why) => tells(after, b"refused", 0, 0, refusal::number(why)),
    }
}

pub(crate) fn agree(memory: &[u16], before: &[u8], after: &[u8]) -> bool {
    let board = map::board(before, b"map");
    let address = fields::word(before, b"address", 0);
    let answer = meter::wait(board, memory, address, findings::limit_of(before));
    tells_answer(after, answer)
}
