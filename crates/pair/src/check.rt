// The reader's first pass: every line is read, and nothing is stored. What the tests of the flat file and of the memory have to know of
// all lines is gathered on the way.
ghost use Rattle.std.specs.Prelude.{◌≡◌, ◌≤◌};
ghost use Rattle.pair.specs.Read.{mappings_below};
ghost use Rattle.pair.specs.Inner.Pass.{file_end, target_end, gathered};

use crate::line;
use crate::line::Mapping;
use refusal::Refusal;

// How many mappings there are, how many words of the flat file they name, from the first on, and how many words of memory they reach.
#[derive(Clone, Copy)]
pub(crate) struct Checked {
    pub count: usize,
    pub words: usize,
    pub end: usize,
}

// The place behind a mapping's last word in the flat file.
fn file_end(mapping: Mapping) -> usize
    ensures { result ≡ file_end mapping }
{
    mapping.last as usize + 1
}

// The place behind its last word in memory.
fn target_end(mapping: Mapping) -> usize
    requires { mapping.first ≤ mapping.last }
    ensures { result ≡ target_end mapping }
{
    mapping.target as usize + file_end(mapping) - mapping.first as usize
}

// `lines` is the text after its first line.
pub(crate) fn check_lines(lines: &[u8]) -> Result<Checked, Refusal>
    ensures { result ≡ gathered 0 0 0 (mappings_below lines.now) }
{
    let mut rest = lines;
    let mut count = 0;
    let mut words: usize = 0;
    let mut end: usize = 0;
    while !rest.is_empty() {
        match line::read_front(rest)? {
            None => {
                rest = &rest[1..];
            }
            Some(mapping) => {
                count += 1;
                words = words.max(file_end(mapping));
                end = end.max(target_end(mapping));
                rest = &rest[line::LINE_BYTES..];
            }
        }
    }
    Ok(Checked { count, words, end })
}
