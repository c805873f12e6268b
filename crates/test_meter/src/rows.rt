// The rows of a case. The head of the file `stdin` says what their fields mean.
use harness::cases::Case;
use harness::{answer, fields, form, words};

// The meter for an address, or for a region.
#[derive(Clone, Copy)]
pub(crate) enum Call {
    Wait,
    Region,
}

// The words of this program's cases.
fn call_of(case: Case) -> Option<Call> {
    match case.kind() {
        b"wait" => Some(Call::Wait),
        b"region" => Some(Call::Region),
        _ => None,
    }
}

fn are_of_wait(before: &[u8], after: &[u8]) -> bool {
    form::fit(
        before,
        b"size=number fill=word 0000=list map=map address=word limit=number",
    ) & form::fit(
        after,
        b"answer=any cycles=number address=word number=number",
    )
}

fn are_of_region(before: &[u8], after: &[u8]) -> bool {
    form::fit(
        before,
        b"size=number fill=word 0000=list map=map first=word last=word limit=number",
    ) & answer::fit(
        after,
        b"found",
        b"answer=any longest=number start=word over=word",
    )
}

// (Each call has its own fields.)
fn are_of(call: Call, before: &[u8], after: &[u8]) -> bool {
    match call {
        Call::Wait => are_of_wait(before, after),
        Call::Region => are_of_region(before, after),
    }
}

// What a case calls, and the fields of what is given and of what is expected; nothing, where its rows are not as they are to be.
pub(crate) fn parts_of<'a>(case: Case<'a>) -> Option<(Call, &'a [u8], &'a [u8])> {
    let call = call_of(case)?;
    let before = case.before()?;
    let after = case.after()?;
    if are_of(call, before, after)
        & words::are_inside(before, words::size_of(before) as usize)
        & (fields::number(before, b"limit", 0) < 65536)
    {
        Some((call, before, after))
    } else {
        None
    }
}
