// The form of a row of fields: a row that gives each key the form of its values, known by its first letter. An example:
//
//     form::fit(fields, b"r0=word flags=SZOCID size=number halted=bit 0000=list file=hex answer=any text=any")
//
//     word      four hexadecimal digits
//     list      words with commas between them
//     number    1 to 18 decimal digits
//     bit       0 or 1
//     hex       bytes of two hexadecimal digits each, or none
//     map       ranges with commas between them, as 0000-00EF:ram8,5000-6FFF:rom, at most 17, or the word `none`
//     any       whatever stands there
//     SZOCID    some of these capital letters, in their order, or `-` for none
//
// The key `0000` stands for every key of four hexadecimal digits.
ghost use Rattle.std.specs.Prelude.{◌≡◌};
ghost use Rattle.harness.specs.Forms.{is_word, fits_column, is_list, is_number, are_bits, is_hex};
ghost use Rattle.harness.specs.Forms.{is_range_kind, is_range, are_ranges, is_map_text};
ghost use Rattle.harness.specs.Forms.{without_first, are_picked, are_letters, has_form, first_key, form_of_key, first_fits, fit_form};

use crate::fields::Fields;
use crate::{fields, text};

// One range more than a board takes, so that a case can write a map that is refused.
const MOST_RANGES: usize = 17;

// A word: four hexadecimal digits.
pub fn is_word(value: &[u8]) -> bool
    ensures { result ≡ is_word value.now }
{
    (value.len() == 4) & text::all_stand_in(value, b"0123456789ABCDEF")
}

// Words with commas between them: four columns of digits, and a comma in the fifth.
fn is_list(value: &[u8]) -> bool
    ensures { result ≡ is_list value.now }
{
    (value.len() % 5 == 4)
        & value
            .iter()
            .enumerate()
            .all(|(column, byte)| fits_column(*byte, column))
}

#[tactic(auto, unfolding(crate::specs::Forms::fits_column))]
fn fits_column(byte: u8, column: usize) -> bool
    ensures { result ≡ fits_column byte column }
{
    if column % 5 == 4 {
        byte == b','
    } else {
        b"0123456789ABCDEF".contains(&byte)
    }
}

fn is_number(value: &[u8]) -> bool
    ensures { result ≡ is_number value.now }
{
    (0 < value.len()) & (value.len() <= 18) & text::all_stand_in(value, b"0123456789")
}

// So many binary digits.
pub fn are_bits(value: &[u8], count: usize) -> bool
    ensures { result ≡ are_bits count value.now }
{
    (value.len() == count) & text::all_stand_in(value, b"01")
}

// Bytes of two hexadecimal digits each, or none.
fn is_hex(value: &[u8]) -> bool
    ensures { result ≡ is_hex value.now }
{
    (value.len() % 2 == 0) & text::all_stand_in(value, b"0123456789ABCDEF")
}

fn is_range_kind(value: &[u8]) -> bool
    ensures { result ≡ is_range_kind value.now }
{
    matches!(value, b"rom" | b"ram16" | b"ram8")
}

// A range of a map, as `0100-01FF:ram16`. Its first address may stand above its last: a case can write a map that is refused.
#[tactic(auto, unfolding(crate::specs::Forms::is_range))]
fn is_range(value: &[u8]) -> bool
    ensures { result ≡ is_range value.now }
{
    let behind = text::behind(value, b'-');
    is_word(text::before(value, b'-'))
        & is_word(text::before(behind, b':'))
        & is_range_kind(text::behind(behind, b':'))
}

// Ranges with commas between them.
fn are_ranges(value: &[u8]) -> bool
    ensures { result ≡ are_ranges 17 value.now }
{
    (text::count(value, b',') < MOST_RANGES) & value.split(|byte| *byte == b',').all(is_range)
}

fn is_map(value: &[u8]) -> bool
    ensures { result ≡ is_map_text value.now }
{
    (value == b"none".as_slice()) | are_ranges(value)
}

// The value without its first letter, if it is this one.
fn without(value: &[u8], letter: u8) -> &[u8]
    ensures { result.now ≡ without_first value.now letter }
{
    value.strip_prefix(&[letter]).unwrap_or(value)
}

// Some of these letters, in their order.
fn are_picked(value: &[u8], letters: &[u8]) -> bool
    ensures { result ≡ are_picked letters.now value.now }
{
    let mut rest = value;
    for letter in letters {
        rest = without(rest, *letter);
    }
    rest.is_empty()
}

fn are_letters(value: &[u8], letters: &[u8]) -> bool
    ensures { result ≡ are_letters value.now letters.now }
{
    (value == b"-".as_slice()) | (!value.is_empty() & are_picked(value, letters))
}

// Whether a value has a form, which is known by its first letter.
#[tactic(auto, unfolding(crate::specs::Forms::has_form))]
fn has_form(value: &[u8], form: &[u8]) -> bool
    ensures { result ≡ has_form value.now form.now }
{
    match text::byte_at(form, 0) {
        b'w' => is_word(value),
        b'l' => is_list(value),
        b'n' => is_number(value),
        b'b' => are_bits(value, 1),
        b'h' => is_hex(value),
        b'm' => is_map(value),
        b'a' => true,
        b'A'..=b'Z' => are_letters(value, form),
        _ => false,
    }
}

pub(crate) fn first_key(row: &[u8]) -> &[u8]
    ensures { result.now ≡ first_key row.now }
{
    text::before(fields::first_field(row), b'=')
}

// The form that a row of forms gives the values of a key: nothing, where the key is unknown.
#[tactic(auto, unfolding(crate::specs::Forms::form_of_key))]
fn form_of<'a>(form: &'a [u8], key: &[u8]) -> &'a [u8]
    ensures { result.now ≡ form_of_key form.now key.now }
{
    if is_word(key) {
        fields::value(form, b"0000")
    } else {
        fields::value(form, key)
    }
}

// Whether the row's first field is one of the form's, and no later one has its key. Two blanks make an empty field, which says
// nothing.
#[tactic(auto, unfolding(crate::specs::Forms::first_fits))]
fn first_fits(row: &[u8], form: &[u8]) -> bool
    ensures { result ≡ first_fits row.now form.now }
{
    if fields::first_field(row).is_empty() {
        return true;
    }
    let key = first_key(row);
    fields::starts_with_key(row, key)
        & !fields::has(fields::after_first_field(row), key)
        & has_form(fields::first_value(row), form_of(form, key))
}

pub fn fit(fields: &[u8], form: &[u8]) -> bool
    ensures { result ≡ fit_form fields.now form.now }
{
    Fields::of(fields).all(|field| first_fits(field, form))
}
