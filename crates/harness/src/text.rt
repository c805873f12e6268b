// Text: what stands before and behind a mark, the rows of an input, and the numbers that digits write.
ghost use Rattle.std.specs.Prelude.{◌≡◌, ◌-◌, ◌<◌, ◌≤◌, [], length, drop, slice_index, slice_index_or};
ghost use Rattle.harness.specs.Text.{length_before, count_of, part_before, part_behind, first_row, after_first_row, rows_of, rows_left, is_remark};
ghost use Rattle.harness.specs.Text.{starts_with, all_stand_in, digit_value, hex_number, decimal_number};

const LINE_FEED: u8 = 10;

// Of a longer number the last 18 digits count, which no 64-bit sum passes.
const LAST_DIGITS: u64 = 100000000000000000;

// How many bytes stand before the first mark.
fn length_before(text: &[u8], mark: u8) -> usize
    ensures { (result ≡ length_before mark text.now) × (result ≤ length text.now) }
{
    text.iter()
        .position(|byte| *byte == mark)
        .unwrap_or(text.len())
}

// How many times the mark stands in a text.
pub(crate) fn count(text: &[u8], mark: u8) -> usize
    ensures { result ≡ count_of mark text.now }
{
    text.iter().filter(|byte| **byte == mark).count()
}

// What stands before the first mark: all, where there is none.
#[tactic(auto, unfolding(crate::specs::Text::part_before))]
pub fn before(text: &[u8], mark: u8) -> &[u8]
    ensures { result.now ≡ part_before mark text.now }
{
    &text[..length_before(text, mark)]
}

// What stands behind the first mark: it is shorter, so that a program which goes from part to part ends.
#[tactic(auto, unfolding(crate::specs::Text::part_behind))]
pub fn behind(text: &[u8], mark: u8) -> &[u8]
    ensures { (result.now ≡ part_behind mark text.now) × (length result.now ≤ length text.now - 1) }
{
    from_column(text, length_before(text, mark) + 1)
}

fn first_row(input: &[u8]) -> &[u8]
    ensures { result.now ≡ first_row input.now }
{
    before(input, LINE_FEED)
}

fn after_first_row(input: &[u8]) -> &[u8]
    ensures { (result.now ≡ after_first_row input.now) × (length result.now ≤ length input.now - 1) }
{
    behind(input, LINE_FEED)
}

// The rows of an input, one after another.
#[derive(Drop)]
pub struct Rows<'a> {
    rest: &'a [u8],
}

impl<'a> Rows<'a> {
    pub fn of(input: &'a [u8]) -> Rows<'a>
        ensures { rows_left result ≡ rows_of input.now }
    {
        Rows { rest: input }
    }

    // The next row, or an empty one where the input has ended.
    pub(crate) fn next_or_empty(&mut self) -> &'a [u8]
        ensures first { result.now ≡ slice_index_or (rows_left self.old) 0 [] }
        ensures others { rows_left self.new ≡ drop 1 (rows_left self.old) }
    {
        self.next().unwrap_or_default()
    }
}

impl<'a> Iterator for Rows<'a> {
    ghost use Rattle.std.specs.Iterator.{YieldsFirstRef, item_count};

    type Item = &'a [u8];

    ghost next_gives = { YieldsFirstRef rows_left };

    ghost remaining = { item_count rows_left };

    fn next(&mut self) -> Option<&'a [u8]> {
        let rest = self.rest;
        if rest.is_empty() {
            return None;
        }
        self.rest = after_first_row(rest);
        Some(first_row(rest))
    }
}

// Whether a text begins so. (Not by the slice's own `starts_with`: that is a call of the library's for each field of a row.)
pub(crate) fn starts_with(text: &[u8], start: &[u8]) -> bool
    ensures { result ≡ starts_with text.now start.now }
{
    let mut rest = text;
    for byte in start {
        match rest {
            [own, others @ ..] if own == byte => rest = others,
            _ => return false,
        }
    }
    true
}

// Whether each byte of the text stands in the set.
pub fn all_stand_in(text: &[u8], set: &[u8]) -> bool
    ensures { result ≡ all_stand_in text.now set.now }
{
    text.iter().all(|byte| set.contains(byte))
}

// What stands from a column on: nothing, where the row ends before it.
pub fn from_column(row: &[u8], column: usize) -> &[u8]
    ensures { (result.now ≡ drop column row.now) × (length result.now ≡ length row.now - column) }
{
    row.get(column..).unwrap_or_default()
}

// The byte at a column, and 0 past the row's end. (A line of the library's, as `word_at` of `bitset`.)
pub fn byte_at(row: &[u8], column: usize) -> u8
    ensures { result ≡ slice_index row.now column }
{
    row.get(column).copied().unwrap_or(0)
}

pub fn is_remark(row: &[u8]) -> bool
    ensures { result ≡ is_remark row.now }
{
    row.is_empty() | (byte_at(row, 0) == b'#')
}

// (Not by `text::digit_value` of the kit: the tests read digits without the code that they test.)
fn digit_at(row: &[u8], column: usize) -> u16
    ensures { (result ≡ digit_value (slice_index row.now column)) × (result < 16) }
{
    let byte = byte_at(row, column) as u16;
    let decimal = byte < 65;
    if decimal { byte % 16 } else { (byte + 9) % 16 }
}

// Two digits here and four below, written out: a loop over them would have to keep its sum within 16 bits.
pub fn hex_byte(row: &[u8], column: usize) -> u8
    ensures { result ≡ hex_number 2 (drop column row.now) }
{
    let digits = from_column(row, column);
    (digit_at(digits, 0) * 16 + digit_at(digits, 1)) as u8
}

pub fn hex_word(row: &[u8], column: usize) -> u16
    ensures { result ≡ hex_number 4 (drop column row.now) }
{
    let digits = from_column(row, column);
    digit_at(digits, 0) * 4096
        + digit_at(digits, 1) * 256
        + digit_at(digits, 2) * 16
        + digit_at(digits, 3)
}

// The decimal number in so many columns.
pub fn decimal(row: &[u8], column: usize, count: usize) -> u64
    ensures { result ≡ decimal_number count (drop column row.now) }
{
    let digits = from_column(row, column);
    let mut number = 0;
    for i in 0..count {
        number = number % LAST_DIGITS * 10 + digit_at(digits, i) as u64;
    }
    number
}
