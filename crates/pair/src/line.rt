// A line of a mapping text: how it is printed, and what stands at the front of some lines. A line is read by what it prints: its three
// numbers are taken from their places, printed, and compared, so that their reading need not be strict.
ghost use Rattle.std.specs.Prelude.{◌≡◌, ◌+◌, ◌≤◌, ◌<◌, length};
ghost use Rattle.pair.specs.Format.{mapping_line, line_bytes};
ghost use Rattle.pair.specs.Read.{number_at, mapping_at, front_of};

use refusal::Refusal;

// The words of the flat file from `first` to `last` go to the address `target` and on.
#[derive(Clone, Copy)]
pub(crate) struct Mapping {
    pub first: u16,
    pub last: u16,
    pub target: u16,
}

pub(crate) const LINE_FEED: u8 = b'\n';

// A line's bytes, its line feed among them, and where its numbers begin.
pub(crate) const LINE_BYTES: usize = 22;

const FIRST_AT: usize = 1;

const LAST_AT: usize = 9;

const TARGET_AT: usize = 17;

// A mapping as its line: its numbers in the places of the form.
pub(crate) fn line_of(mapping: Mapping) -> [u8; 22]
    ensures { result ≡ mapping_line mapping }
{
    let mut line = *b"$0000 - $0000 = $0000\n";
    line[FIRST_AT..FIRST_AT + 4].copy_from_slice(&text::hex(mapping.first));
    line[LAST_AT..LAST_AT + 4].copy_from_slice(&text::hex(mapping.last));
    line[TARGET_AT..TARGET_AT + 4].copy_from_slice(&text::hex(mapping.target));
    line
}

// The number of four digits at a place, written out as the definition has it.
fn number_at(lines: &[u8], at: usize) -> u16
    requires { at + 4 ≤ length lines.now }
    ensures { result ≡ number_at lines.now at }
{
    text::digit_value(lines[at]) * 4096
        + text::digit_value(lines[at + 1]) * 256
        + text::digit_value(lines[at + 2]) * 16
        + text::digit_value(lines[at + 3])
}

// The mapping whose line stands at the front, if one does.
pub(crate) fn mapping_at(lines: &[u8]) -> Mapping
    requires { line_bytes ≤ length lines.now }
    ensures { result ≡ mapping_at lines.now }
{
    Mapping {
        first: number_at(lines, FIRST_AT),
        last: number_at(lines, LAST_AT),
        target: number_at(lines, TARGET_AT),
    }
}

// What stands at the front of the lines, of which there is a byte or more: a mapping's line, or, as None, an empty one.
pub(crate) fn read_front(lines: &[u8]) -> Result<Option<Mapping>, Refusal>
    requires { 0 < length lines.now }
    ensures { result ≡ front_of lines.now }
{
    if lines[0] == LINE_FEED {
        return Ok(None);
    }
    if lines.len() < LINE_BYTES {
        return Err(Refusal::MalformedMapping);
    }
    let mapping = mapping_at(lines);
    if mapping.last < mapping.first {
        return Err(Refusal::MalformedMapping);
    }
    if lines.starts_with(&line_of(mapping)) {
        Ok(Some(mapping))
    } else {
        Err(Refusal::MalformedMapping)
    }
}
