// Comparing what a call left with what its case says. Each comparison prints what differs and answers whether nothing does, so that
// all differences of a case are seen.
use crate::answer::Answer;
use harness::case;

pub(crate) fn agree_answer(rt: &impl Print, given: Answer, after: &[u8]) -> bool {
    let told = given.is_told(after);
    if !told {
        let _ = print!(rt; "the answer is {given}, ");
    }
    told
}

// Shows the lowest address whose words differ.
pub(crate) fn agree_memory(rt: &impl Print, memory: &[u16], expected: &[u16]) -> bool {
    for (at, (word, wanted)) in memory.iter().zip(expected).enumerate() {
        if *word != *wanted {
            let _ = print!(rt; "at {at:04x} ");
            return case::agree_word(rt, b"the word", *word, *wanted);
        }
    }
    true
}
