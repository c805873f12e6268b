// Runs of words as the fields of a row tell them: `0100=02E4,0005`.
ghost use Rattle.std.specs.Prelude.{◌≡◌, ◌*◌, length, drop, slice_set, replicate};
ghost use Rattle.harness.specs.Text.{quoted, hex_number};
ghost use Rattle.harness.specs.Fields.{word_of_key, number_of_key};
ghost use Rattle.harness.specs.Words.{words_in_list, tells_words, with_list_at, with_first, with_words, is_inside, are_inside};

use crate::fields::Fields;
use crate::{fields, form, text};

pub fn list_length(list: &[u8]) -> usize
    ensures { result ≡ words_in_list list.now }
{
    list.len() / 5 + 1
}

pub fn list_word(list: &[u8], index: u16) -> u16
    ensures { result ≡ hex_number 4 (drop (index * 5) list.now) }
{
    text::hex_word(list, index as usize * 5)
}

// Whether the row's first field tells words at an address.
fn tells_words(row: &[u8]) -> bool
    ensures { result ≡ tells_words row.now }
{
    form::is_word(form::first_key(row))
}

// Puts a word at a place. A place past the memory's end is passed over: by a test, since a proof knows no word behind `get_mut`.
fn put_at(memory: &mut [u16], at: usize, word: u16)
    ensures { memory.new ≡ slice_set memory.old at word }
{
    if at < memory.len() {
        memory[at] = word;
    }
}

// Puts the words of a list into a memory from an address on.
pub fn put_list(memory: &mut [u16], address: u16, list: &[u8])
    ensures { memory.new ≡ with_list_at address list.now memory.old }
{
    for i in 0..list_length(list) {
        put_at(memory, address as usize + i, text::hex_word(list, i * 5));
    }
}

// .. of the row's first field, if it tells words.
#[tactic(auto, unfolding(crate::specs::Words::with_first))]
fn put_first(memory: &mut [u16], row: &[u8])
    ensures { memory.new ≡ with_first row.now memory.old }
{
    if tells_words(row) {
        put_list(memory, text::hex_word(row, 0), fields::first_value(row));
    }
}

pub fn put(memory: &mut [u16], fields: &[u8])
    ensures { memory.new ≡ with_words fields.now memory.old }
{
    for field in Fields::of(fields) {
        put_first(memory, field);
    }
}

// How many words the memory of a case has.
pub fn size_of(before: &[u8]) -> u64
    ensures { result ≡ number_of_key before.now (quoted "size") 65536 }
{
    fields::number(before, b"size", 65536)
}

// Makes the memory that a case begins with: the words that its fields tell, and elsewhere the word `fill`, 5A5A where there is none.
pub fn lay(memory: &mut [u16], before: &[u8])
    ensures { memory.new ≡ with_words before.now (replicate (length memory.old) (word_of_key before.now (quoted "fill") 0x5A5A)) }
{
    memory.fill(fields::word(before, b"fill", 0x5A5A));
    put(memory, before);
}

#[tactic(auto, unfolding(crate::specs::Words::is_inside))]
fn is_inside(row: &[u8], size: usize) -> bool
    ensures { result ≡ is_inside row.now size }
{
    !tells_words(row)
        | (text::hex_word(row, 0) as usize + list_length(fields::first_value(row)) <= size)
}

pub fn are_inside(fields: &[u8], size: usize) -> bool
    ensures { result ≡ are_inside fields.now size }
{
    Fields::of(fields).all(|field| is_inside(field, size))
}
