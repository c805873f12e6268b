// Numbers of two bytes each, the high byte first, as files have them. A place goes beside its bytes, and no part that begins there: the calls
// answer for places past the end, too.
#![tactic(auto)]

ghost use Rattle.std.specs.Prelude.{◌≡◌, [], ◌∷◌, min, ◌+◌, ◌-◌, ◌*◌, ◌/◌, ◌%◌, ◌<◌, ◌≤◌, length, get_or, take};
ghost use Rattle.std.proofs.lemmas.List.Edits.{sets};
ghost use Rattle.bigendian.specs.Numbers.{word_at, words_of, all_words, bytes_of, total, fitting, put_words};

// The byte at a place, 0 past the end.
fn byte_at(bytes: &[u8], at: usize) -> u8
    ensures { result ≡ get_or bytes.now at 0 }
{
    bytes.get(at).copied().unwrap_or(0)
}

// The number at a place.
#[tactic(auto, unfolding(crate::specs::Numbers::word_at))]
pub fn word_at(bytes: &[u8], at: usize) -> u16
    ensures { result ≡ word_at bytes.now at }
{
    if bytes.len() <= at {
        return 0;
    }
    u16::from_be_bytes([byte_at(bytes, at), byte_at(bytes, at + 1)])
}

// How many whole numbers a room of `size` bytes has from a place on.
fn fitting_words(size: usize, at: usize) -> usize
    ensures { result ≡ fitting size at }
{
    size.saturating_sub(at) / 2
}

// A number in two bytes of a room. The compiler makes one store of the two only where the low one comes first, so they are exchanged.
fn put_pair(room: &mut [u8], at: usize, word: u16)
    requires { at + 2 ≤ length room.old }
    ensures { room.new ≡ sets room.old at (bytes_of (word ∷ [])) }
{
    room[at..at + 2].copy_from_slice(&word.swap_bytes().to_le_bytes());
}

// A number put at a place, if the room has both its bytes.
#[tactic(auto, using(crate::proofs::PutLaws::one_put, crate::proofs::PutLaws::none_put))]
pub fn put_word(room: &mut [u8], at: usize, word: u16)
    ensures { room.new ≡ put_words room.old at (word ∷ []) }
{
    if 0 < fitting_words(room.len(), at) {
        put_pair(room, at, word);
    }
}

// Numbers put from a place on, one behind the other, as many as the room has. Answers the sum of those that were put, so that a writer
// reads each of them once: by value, since behind the store it would have to be loaded again.
pub fn put_words(room: &mut [u8], at: usize, words: &[u16]) -> u16
    ensures { (room.new ≡ put_words room.old at words.now)
        × (result ≡ total (take (fitting (length room.old) at) words.now) % 65536) }
{
    let count = fitting_words(room.len(), at).min(words.len());
    let mut sum: u16 = 0;
    for (i, &number) in words[..count].iter().enumerate() {
        put_pair(room, at + i * 2, number);
        sum = word::wrapping_add(sum, number);
    }
    sum
}

// The number at a place, read as little-endian. Not as from_be_bytes reads it: the compiler makes one load of its two bytes, and of `word_at` in a loop two.
#[tactic(auto, unfolding(crate::specs::Numbers::word_at))]
fn little_endian_at(bytes: &[u8], at: usize) -> u16
    requires { at + 1 < length bytes.now }
    ensures { (result ≡ get_or bytes.now at 0 + get_or bytes.now (at + 1) 0 * 256)
        × (result % 256 * 256 + result / 256 ≡ word_at bytes.now at) }
{
    u16::from_le_bytes([bytes[at], bytes[at + 1]])
}

// The numbers at the front of the bytes, as many as there is room for.
fn fill_words(bytes: &[u8], words: &mut [u16])
    requires { length words.old * 2 ≤ length bytes.now }
    ensures { words.new ≡ words_of (length words.old) bytes.now }
{
    for (i, word) in words.iter_mut().enumerate() {
        *word = little_endian_at(bytes, i * 2).swap_bytes();
    }
}

// The whole numbers of the bytes, put among other words from a place on. Those that would lie past the end are left out.
pub fn read_words(bytes: &[u8], words: &mut [u16], at: usize)
    ensures { words.new ≡ sets words.old at (all_words bytes.now) }
{
    let start = at.min(words.len());
    let end = start + (bytes.len() / 2).min(words.len() - start);
    fill_words(bytes, &mut words[start..end]);
}

// The whole numbers of the bytes added up, modulo 65,536. Each low byte, with the high byte of the number behind it, is a little-endian
// number, and is added as it is loaded, with no bytes exchanged; the first high byte and the last low byte stand alone.
pub fn sum_words(bytes: &[u8]) -> u16
    ensures { result ≡ total (all_words bytes.now) % 65536 }
{
    let count = bytes.len() / 2;
    if count == 0 {
        return 0;
    }
    let mut sum = u16::from(bytes[0]) * 256;
    for i in 1..count {
        sum = word::wrapping_add(sum, little_endian_at(bytes, i * 2 - 1));
    }
    word::wrapping_add(sum, u16::from(bytes[count * 2 - 1]))
}
