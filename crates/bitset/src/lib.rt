// A set of addresses in lent words: one bit an address, 64 to a word, lowest bit first. Words past the end have no members, and take none.
// (No set type of the library's: what C lends are the words, and they are the set.)
#![tactic(auto)]

ghost use Rattle.std.specs.Prelude.{◌≡◌, not, length, get_or, replicate};
ghost use Rattle.bitset.specs.Bits.{contains, inserted, in_either, count_below, lowest_or_none, lowest_below};

// A set of all 65,536 addresses has so many words.
pub const WORDS: usize = 1024;

// The word of a number, or 0 past the end. (bigendian has the same line of the library's over bytes: a function for both would be longer than the two.)
fn word_at(words: &[u64], i: usize) -> u64
    ensures { result ≡ get_or words.now i 0 }
{
    words.get(i).copied().unwrap_or(0)
}

// Whether an address is in the set.
#[tactic(auto, unfolding(crate::specs::Bits::contains))]
fn has(words: &[u64], address: u16) -> bool
    ensures { result ≡ contains words.now address }
{
    (word_at(words, (address / 64) as usize) >> (address % 64)) % 2 == 1
}

// The address put into the set; whether it was not there before.
#[tactic(auto, using(crate::proofs::DigitLaws::shl_one), unfolding(crate::specs::Bits::inserted))]
pub fn insert(words: &mut [u64], address: u16) -> bool
    ensures { (result ≡ not (contains words.old address)) × (words.new ≡ inserted words.old address) }
{
    let i = (address / 64) as usize;
    let known = has(words, address);
    if i < words.len() {
        words[i] |= 1 << (address % 64);
    }
    !known
}

// The empty set.
pub fn reset(words: &mut [u64])
    ensures { words.new ≡ replicate (length words.old) 0 }
{
    words.fill(0);
}

// How many addresses are in one set or the other, each once. (By the word's number, here and below: each slice may have fewer words or more, so that
// their iterators would end early or late, and the number is a part of the lowest address.)
pub fn count_either(one: &[u64], other: &[u64]) -> u32
    ensures { result ≡ count_below (in_either one.now other.now) 65536 }
{
    let mut count = 0;
    for i in 0..WORDS {
        count += (word_at(one, i) | word_at(other, i)).count_ones();
    }
    count
}

// The lowest address in the set: the lowest bit of the first word that has one.
pub fn find_lowest(words: &[u64]) -> Option<u16>
    ensures { lowest_or_none result ≡ lowest_below (contains words.now) 65536 }
{
    for i in 0..WORDS {
        let word = word_at(words, i);
        if word != 0 {
            return Some((64 * i) as u16 + word.trailing_zeros() as u16);
        }
    }
    None
}
