// Makes the call of a case, and compares the answer and all that was lent with what the case says.
use crate::row::Call;
use crate::{build, pieces, row};
use harness::fields;
use refusal::Refusal;

// Loads a file into the call's words. Where there are not so many, no call is made.
fn load(call: Call, memory: &mut [u16], file: &[u8]) -> Option<Result<usize, Refusal>> {
    let words = memory.get_mut(..call.words)?;
    Some(image::load(call.board, words, file))
}

// Writes the call's region into its room. Where there is not so much room, no call is made.
fn write(call: Call, memory: &[u16], room: &mut [u8]) -> Option<Result<usize, Refusal>> {
    let words = memory.get(..call.words)?;
    let bytes = room.get_mut(..call.bytes)?;
    Some(image::write(call.board, words, call.first, call.last, bytes))
}

// A file is loaded, and the memory gets the words that follow the call and no others.
pub(crate) fn load_is_well(before: &[u8], after: &[u8]) -> bool {
    let mut memory = build::memory_of(before);
    let mut room = build::blank_room();
    let length = pieces::put(&mut room, fields::value(before, b"file"));
    let loaded = load(Call::of(before), &mut memory, &room[..length]);
    row::is_load(before, after)
        & row::tells(after, b"records", loaded)
        & (memory == build::memory_after(before, after))
}

// A region is written, and the room gets the file that follows the call and no other byte.
pub(crate) fn write_is_well(before: &[u8], after: &[u8]) -> bool {
    let memory = build::memory_of(before);
    let mut room = build::blank_room();
    let written = write(Call::of(before), &memory, &mut room);
    row::is_write(before, after)
        & row::tells(after, b"length", written)
        & (room == build::room_after(after))
}

// The pattern's region is written into a room of just so many bytes, and loaded for the same board into other memory.
pub(crate) fn trip_is_well(before: &[u8], after: &[u8]) -> bool {
    let call = Call::of(before);
    let mut room = build::blank_room();
    let written = write(call, &build::pattern(), &mut room);
    let Some(file) = room.get(..call.bytes) else {
        return false;
    };
    let mut memory = build::memory_of(before);
    let loaded = load(call, &mut memory, file);
    row::is_trip(before, after)
        & matches!(written, Some(Ok(length)) if length == call.bytes)
        & row::tells(after, b"records", loaded)
        & (memory == build::memory_back(before, call.first, call.last))
}
