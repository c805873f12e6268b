// The members of a set of addresses, as a row writes them: addresses and spans of addresses with commas between them, as `0010,0012-0015`.
use crate::row;
use harness::{form, text};

// The addresses from the first to the last.
#[derive(Clone, Copy)]
struct Span {
    first: u16,
    last: u16,
}

// The span that a text writes, if it writes one. A single address is a span of itself.
fn span_in(text: &[u8]) -> Option<Span> {
    let first = text::before(text, b'-');
    let last = if text.contains(&b'-') {
        text::behind(text, b'-')
    } else {
        first
    };
    let span = Span {
        first: text::hex_word(first, 0),
        last: text::hex_word(last, 0),
    };
    if form::is_word(first) & form::is_word(last) & (span.first <= span.last) {
        Some(span)
    } else {
        None
    }
}

// Whether a value is in this form.
pub(crate) fn are_written(value: &[u8]) -> bool {
    value
        .split(|byte| *byte == b',')
        .all(|text| span_in(text).is_some())
}

// "one bit an address, 64 to a word, lowest bit first"
fn put_address(set: &mut [u64; row::SET_ROOM], address: u16) {
    set[usize::from(address / 64)] |= 1u64 << (address % 64);
}

// Puts the members that a value writes into a buffer, without the kit's own sets.
pub(crate) fn put(set: &mut [u64; row::SET_ROOM], value: &[u8]) {
    for text in value.split(|byte| *byte == b',') {
        if let Some(span) = span_in(text) {
            for address in span.first..=span.last {
                put_address(set, address);
            }
        }
    }
}
