// The meter for a region: its call, and its answer compared with what a case tells.
use harness::{fields, findings, map};

pub(crate) fn agree(memory: &[u16], before: &[u8], after: &[u8]) -> bool {
    let board = map::board(before, b"map");
    let first = fields::word(before, b"first", 0);
    let last = fields::word(before, b"last", 0);
    let given = meter::region(board, memory, first, last, findings::limit_of(before));
    findings::are_told(after, given)
}
