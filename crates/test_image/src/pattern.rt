// The pattern: a word for each address, that no other address has. A row writes a part of it as a range of addresses, `0100-10FF`.
use harness::{form, text};

// The words from one address to another.
#[derive(Clone, Copy)]
pub(crate) struct Part {
    pub first: u16,
    pub last: u16,
}

pub(crate) fn word(address: usize) -> u16 {
    ((address % 65536 * 259 + 7) % 65536) as u16
}

impl Part {
    // The part that a value writes, if it writes one.
    pub fn of(value: &[u8]) -> Option<Part> {
        let part = Part {
            first: text::hex_word(value, 0),
            last: text::hex_word(value, 5),
        };
        let is_part = form::is_word(text::before(value, b'-'))
            & form::is_word(text::behind(value, b'-'))
            & (part.first <= part.last);
        is_part.then_some(part)
    }

    // Puts the words at their addresses. A word past the memory's end is passed over.
    pub fn put(self, memory: &mut [u16]) {
        let end = memory.len().min(self.last as usize + 1);
        for address in self.first as usize..end {
            memory[address] = word(address);
        }
    }
}
