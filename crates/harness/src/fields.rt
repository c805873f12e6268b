// Rows of named fields, in which cases are written.
//
//     step ADD@ R4,R4 is R4 + 1 + word            the kind of a case and its name
//     before flags=SZOC 0100=02E4 1414=0005       a word, and fields `key=value` in any order
//     after flags=- r4=141A r7=0101 answer=executed cycles=8
//
// Of a row:
//
//     kind(row)                     its first word
//     is_kind(row, word)            whether its first word is this one
//     body(row)                     what follows its first word and a blank: the name of a case, or the fields
//     body_of(row, word)            the same, if its first word is this one
//
// Of the fields in a body:
//
//     has(fields, key)              whether there is a field with this key
//     value(fields, key)            its value, nothing where there is none
//     is(fields, key, word)         whether there is one, and its value is this word
//     find_word(fields, key)        its value as four hexadecimal digits, if there is one
//     find_number(fields, key)      its value in decimal digits, if there is one
//     word(fields, key, default)    its value as four hexadecimal digits, or the default where there is none
//     number(fields, key, default)  its value in decimal digits, or the default
//     bit(fields, key, default)     whether its value is 1, or the default
//     letter(fields, key, byte, default)    whether the letter stands in its value, or the default
//     form::fit(fields, form)       whether each field is one of the form's, its value is as the form says, and no key stands twice
//     words::put(memory, fields)    puts the words of all fields `0100=02E4,0005` into a memory
//     words::lay(memory, fields)    fills the memory with the word of the field `fill`, and puts the words of all fields into it
//     words::are_inside(fields, size)       whether these words lie inside a memory of so many words
//     words::list_length(value), words::list_word(value, index)     how many words a list of words has, and one of them
//     words::put_list(memory, address, value)     puts the words of a list into a memory
//     form::is_word(value)          whether a value, or a part of one, is a word
//     map::board(fields, key)       the board whose map its value writes, or the all-RAM board
//     answer::fit, answer::refuses  the form of an answer, and a refusal with its number
//
// The key `text` takes all that is left of its row, blanks included.
ghost use Rattle.std.specs.Prelude.{◌≡◌, ◌-◌, ◌≤◌, length};
ghost use Rattle.std.specs.Option.{option_map};
ghost use Rattle.harness.specs.Text.{equal_text};
ghost use Rattle.harness.specs.Fields.{kind_of_row, body_of_row, body_of_kind, starts_with_key, first_field, after_first_field, fields_of, fields_left};
ghost use Rattle.harness.specs.Fields.{find_key, has_key, first_value, value_of_key};
ghost use Rattle.harness.specs.Fields.{find_word_of_key, word_of_key, find_number_of_key, number_of_key, bit_of_key, letter_of_key, is_of_key};

use crate::text;

const BLANK: u8 = b' ';

// The parts of a row by the mark between them, here, in `text` and in `form`, are one line each: a parameter for the mark would name none of them.
pub fn kind(row: &[u8]) -> &[u8]
    ensures { result.now ≡ kind_of_row row.now }
{
    text::before(row, BLANK)
}

// Whether the row's first word is this one.
pub fn is_kind(row: &[u8], word: &[u8]) -> bool
    ensures { result ≡ equal_text (kind_of_row row.now) word.now }
{
    kind(row) == word
}

pub fn body(row: &[u8]) -> &[u8]
    ensures { result.now ≡ body_of_row row.now }
{
    text::behind(row, BLANK)
}

// What follows the row's first word, if it is this one.
pub fn body_of<'a>(row: &'a [u8], word: &[u8]) -> Option<&'a [u8]>
    ensures { option_map (λ body. body.now) result ≡ body_of_kind row.now word.now }
{
    if is_kind(row, word) {
        Some(body(row))
    } else {
        None
    }
}

// (The `=` is looked at first: where it is missing, no byte of the key need be.)
pub(crate) fn starts_with_key(row: &[u8], key: &[u8]) -> bool
    ensures { result ≡ starts_with_key row.now key.now }
{
    (text::byte_at(row, key.len()) == b'=') && text::starts_with(row, key)
}

#[tactic(auto, unfolding(crate::specs::Fields::first_field))]
pub(crate) fn first_field(row: &[u8]) -> &[u8]
    ensures { result.now ≡ first_field row.now }
{
    if starts_with_key(row, b"text") {
        row
    } else {
        text::before(row, BLANK)
    }
}

#[tactic(auto, unfolding(crate::specs::Fields::after_first_field))]
pub(crate) fn after_first_field(row: &[u8]) -> &[u8]
    ensures { (result.now ≡ after_first_field row.now) × (length result.now ≤ length row.now - 1) }
{
    if starts_with_key(row, b"text") {
        &[]
    } else {
        text::behind(row, BLANK)
    }
}

// The row from each of its fields on.
#[derive(Drop)]
pub(crate) struct Fields<'a> {
    rest: &'a [u8],
}

impl<'a> Fields<'a> {
    // (What goes over the fields is one call of the iterator's each, here, in `form` and in `words`.)
    pub(crate) fn of(row: &'a [u8]) -> Fields<'a>
        ensures { fields_left result ≡ fields_of row.now }
    {
        Fields { rest: row }
    }
}

impl<'a> Iterator for Fields<'a> {
    ghost use Rattle.std.specs.Iterator.{YieldsFirstRef, item_count};

    type Item = &'a [u8];

    ghost next_gives = { YieldsFirstRef fields_left };

    ghost remaining = { item_count fields_left };

    fn next(&mut self) -> Option<&'a [u8]> {
        let field = self.rest;
        if field.is_empty() {
            return None;
        }
        self.rest = after_first_field(field);
        Some(field)
    }
}

// The row from the first field with this key on.
fn find<'a>(row: &'a [u8], key: &[u8]) -> Option<&'a [u8]>
    ensures { option_map (λ field. field.now) result ≡ find_key row.now key.now }
{
    Fields::of(row).find(|field| starts_with_key(field, key))
}

pub fn has(fields: &[u8], key: &[u8]) -> bool
    ensures { result ≡ has_key fields.now key.now }
{
    find(fields, key).is_some()
}

pub(crate) fn first_value(row: &[u8]) -> &[u8]
    ensures { result.now ≡ first_value row.now }
{
    text::behind(first_field(row), b'=')
}

pub fn value<'a>(fields: &'a [u8], key: &[u8]) -> &'a [u8]
    ensures { result.now ≡ value_of_key fields.now key.now }
{
    first_value(find(fields, key).unwrap_or_default())
}

pub fn is(fields: &[u8], key: &[u8], word: &[u8]) -> bool
    ensures { result ≡ is_of_key fields.now key.now word.now }
{
    has(fields, key) & (value(fields, key) == word)
}

// The word in a field's value, if there is such a field. (This one reads hexadecimal digits into 16 bits, `find_number` decimal ones into 64.)
pub fn find_word(fields: &[u8], key: &[u8]) -> Option<u16>
    ensures { result ≡ find_word_of_key fields.now key.now }
{
    let field = find(fields, key)?;
    Some(text::hex_word(first_value(field), 0))
}

pub fn word(fields: &[u8], key: &[u8], default: u16) -> u16
    ensures { result ≡ word_of_key fields.now key.now default }
{
    find_word(fields, key).unwrap_or(default)
}

// The number in a field's value, if there is such a field.
pub fn find_number(fields: &[u8], key: &[u8]) -> Option<u64>
    ensures { result ≡ find_number_of_key fields.now key.now }
{
    let digits = first_value(find(fields, key)?);
    Some(text::decimal(digits, 0, digits.len()))
}

pub fn number(fields: &[u8], key: &[u8], default: u64) -> u64
    ensures { result ≡ number_of_key fields.now key.now default }
{
    find_number(fields, key).unwrap_or(default)
}

// A key and what stands where it is missing go into each of these lookups: a struct of the two would be taken apart at once.
pub fn bit(fields: &[u8], key: &[u8], default: bool) -> bool
    ensures { result ≡ bit_of_key fields.now key.now default }
{
    match find(fields, key) {
        Some(field) => text::byte_at(first_value(field), 0) == b'1',
        None => default,
    }
}

pub fn letter(fields: &[u8], key: &[u8], byte: u8, default: bool) -> bool
    ensures { result ≡ letter_of_key fields.now key.now byte default }
{
    match find(fields, key) {
        Some(field) => first_value(field).contains(&byte),
        None => default,
    }
}
