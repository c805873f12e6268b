// Wrong lines: the line of every opcode under both D with one byte changed, one inserted, or one deleted. None of them is a line, so
// each is refused by 6.
ghost use Rattle.std.specs.Prelude.{◌+◌, ◌≤◌, length};

use crate::line::line_of;
use crate::tally::Tally;
use refusal::Refusal;

// No line has this byte.
const STRANGE: u8 = b'?';

fn is_refused(text: &[u8], double: bool) -> bool {
    matches!(
        listing::assemble(text, double),
        Err(Refusal::NotAListingLine)
    )
}

// That a text has at most 16 bytes is asked by the three functions that copy it into a room: a type for it would be made in `run` alone.
//
// Whether the text with another byte at a place is refused.
fn is_refused_with(text: &[u8], at: usize, byte: u8, double: bool) -> bool
    requires { (length text.now ≤ 16) × (at + 1 ≤ length text.now) }
{
    let mut room = [0u8; 16];
    let wrong = &mut room[..text.len()];
    wrong.copy_from_slice(text);
    wrong[at] = byte;
    is_refused(wrong, double)
}

// .. with a space before a place.
fn is_refused_with_space(text: &[u8], at: usize, double: bool) -> bool
    requires { (length text.now ≤ 16) × (at ≤ length text.now) }
{
    let mut room = [b' '; 17];
    room[..at].copy_from_slice(&text[..at]);
    room[at + 1..text.len() + 1].copy_from_slice(&text[at..]);
    is_refused(&room[..text.len() + 1], double)
}

#[derive(Clone, Copy)]
struct Tallies {
    strange: Tally,
    small: Tally,
    longer: Tally,
    shorter: Tally,
}

// A strange byte in place of each, each letter in lower case, and a space before each place. Without the first byte, and without the last: to delete
// another may leave a line, as `BC +$0005` of `BNC +$0005`.
fn count(tallies: &mut Tallies, text: &[u8], double: bool)
    requires { length text.now ≤ 16 }
{
    for (at, byte) in text.iter().enumerate() {
        tallies
            .strange
            .add(is_refused_with(text, at, STRANGE, double));
        if byte.is_ascii_uppercase() {
            tallies.small.add(is_refused_with(text, at, byte.to_ascii_lowercase(), double));
        }
    }
    for at in 0..=text.len() {
        tallies.longer.add(is_refused_with_space(text, at, double));
    }
    if let (Some((_, behind)), Some((_, before))) = (text.split_first(), text.split_last()) {
        tallies.shorter.add(is_refused(behind, double));
        tallies.shorter.add(is_refused(before, double));
    }
}

// Of 004 the second word makes a call, and no operand shows a letter.
pub(crate) fn run(rt: &impl Print) {
    let mut tallies = Tallies {
        strange: Tally::of("one byte changed"),
        small: Tally::of("one letter in lower case"),
        longer: Tally::of("one space inserted"),
        shorter: Tally::of("first or last byte deleted"),
    };
    for opcode in 0..1024u16 {
        for double in [false, true] {
            if let Some(line) = line_of([opcode, 0x0120, 0x0123], double) {
                count(&mut tallies, line.text(), double);
            }
        }
    }
    tallies.strange.write(rt, "refused");
    tallies.small.write(rt, "refused");
    tallies.longer.write(rt, "refused");
    tallies.shorter.write(rt, "refused");
}
