// The format of an image file: its marks, the limit of a record, and where its numbers stand.

// No record has more words. The writer cuts a region into records of so many.
pub(crate) const RECORD_LIMIT: usize = 4096;

// The letters of each mark as one number.
pub(crate) const ID_MARK: u16 = 0x4944;

pub(crate) const AT_MARK: u16 = 0x4154;

pub(crate) const OK_MARK: u16 = 0x4F4B;

// ID and the board: where the board stands, and the bytes of the whole.
pub(crate) const BOARD_AT: usize = 2;

pub const HEAD_BYTES: usize = 4;

// AT, address and count; the words follow.
pub(crate) const ADDRESS_AT: usize = 2;

pub(crate) const COUNT_AT: usize = 4;

pub const RECORD_HEAD_BYTES: usize = 6;

// OK and the sum.
pub(crate) const SUM_AT: usize = 2;

pub(crate) const TAIL_BYTES: usize = 4;
