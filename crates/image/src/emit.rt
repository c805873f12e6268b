// The writer's work: the head, the records of a region and the tail, put into the lent room.
ghost use Rattle.std.specs.Prelude.{◌≡◌, ◌+◌, ◌%◌, ◌≤◌, length};
ghost use Rattle.bigendian.specs.Numbers.{bytes_of};
ghost use Rattle.records.specs.Records.{record_over};
ghost use Rattle.records.specs.Cut.{cut_of};
ghost use Rattle.image.specs.Format.{record_limit, head_bytes, record_bytes, record_sum, record_words, id_head, image_of};
ghost use Rattle.image.specs.Write.{image_length, wrote, writing};
ghost use Rattle.image.specs.Inner.Emit.{RecordsPut};

use crate::format;
use refusal::Refusal;

// The bytes of the file of a region. (Records are counted as `record_count` of specs/ has it.)
fn image_length(words: usize) -> usize
    requires { words ≤ 65536 }
    ensures { result ≡ image_length head_bytes record_limit words }
{
    let records = (words + (format::RECORD_LIMIT - 1)) / format::RECORD_LIMIT;
    format::HEAD_BYTES + format::TAIL_BYTES + records * format::RECORD_HEAD_BYTES + words * 2
}

// A record of these words, of which there are at most as many as the limit, over a room that it fills. Answers what it adds to the
// file's sum: address, count and words.
fn put_record(room: &mut [u8], address: u16, words: &[u16]) -> u16
    requires { (length words.now ≤ record_limit) × (length room.old ≡ record_bytes (length words.now)) }
    ensures { (room.new ≡ bytes_of (record_words (record_over address words.now)))
        × (result ≡ record_sum (record_over address words.now) % 65536) }
{
    let count = words.len() as u16;
    bigendian::put_word(room, 0, format::AT_MARK);
    bigendian::put_word(room, format::ADDRESS_AT, address);
    bigendian::put_word(room, format::COUNT_AT, count);
    let sum = bigendian::put_words(room, format::RECORD_HEAD_BYTES, words);
    word::wrapping_add(word::wrapping_add(address, count), sum)
}

// The records of a region that begins at the address `first`, put behind the head. Answers their sum.
fn put_records(room: &mut [u8], first: u16, region: &[u16]) -> u16
    requires { (first + length region.now ≤ 65536) × (image_length head_bytes record_limit (length region.now) ≤ length room.old) }
    ensures { RecordsPut room.old (cut_of record_limit first region.now) room.new result }
{
    let mut at = format::HEAD_BYTES;
    let mut address = first as usize;
    let mut sum: u16 = 0;
    for words in region.chunks(format::RECORD_LIMIT) {
        // one number, by which the compiler sees that all of the record fits its part of the room
        let bytes = format::RECORD_HEAD_BYTES + words.len() * 2;
        let next = at + bytes;
        let added = put_record(&mut room[at..next], address as u16, words);
        sum = word::wrapping_add(sum, added);
        at = next;
        address += words.len();
    }
    sum
}

// The file of a region that begins at the address `first`.
pub(crate) fn put_image(
    room: &mut [u8],
    board: u16,
    first: u16,
    region: &[u16],
) -> Result<usize, Refusal>
    requires { first + length region.now ≤ 65536 }
    ensures { wrote result room.new ≡ writing room.old (image_of (id_head board) (cut_of record_limit first region.now)) }
{
    let bytes = image_length(region.len());
    if room.len() < bytes {
        return Err(Refusal::RoomTooSmall);
    }
    bigendian::put_word(room, 0, format::ID_MARK);
    bigendian::put_word(room, format::BOARD_AT, board);
    let sum = put_records(room, first, region);
    let tail = bytes - format::TAIL_BYTES;
    bigendian::put_word(room, tail, format::OK_MARK);
    bigendian::put_word(room, tail + format::SUM_AT, word::wrapping_add(board, sum));
    Ok(bytes)
}
