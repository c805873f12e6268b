// The loader's second pass: the records are stored in file order, so that later words win.
ghost use Rattle.std.specs.Prelude.{◌≡◌, true, ◌+◌, ◌≤◌, length};
ghost use Rattle.records.specs.Records.{overwrite};
ghost use Rattle.image.specs.Format.{record_limit, record_bytes, record_at};
ghost use Rattle.image.specs.Read.{body_of};
ghost use Rattle.image.specs.Inner.Pass.{is_whole, placed_body};

use crate::{FirstRecord, format};

// The words of the record at the front of the bytes.
fn store_record(bytes: &[u8], front: FirstRecord, mem: &mut [u16])
    requires { (record_bytes front.count ≤ length bytes.now) × (front.address + front.count ≤ length mem.old) }
    ensures { mem.new ≡ overwrite mem.old front.address (record_at front.address front.count bytes.now).words }
{
    let words = &bytes[format::RECORD_HEAD_BYTES..front.size()];
    bigendian::read_words(words, mem, front.address as usize);
}

// `body` is the file after its head, which the first pass found whole.
pub(crate) fn store_records(body: &[u8], mem: &mut [u16])
    requires { is_whole (body_of record_limit (length mem.old) body.now) ≡ true }
    ensures { mem.new ≡ placed_body mem.old (body_of record_limit (length mem.old) body.now) }
{
    let mut rest = body;
    while let Some(record) = crate::first_record(rest, mem.len()) {
        store_record(rest, record, mem);
        rest = &rest[record.size()..];
    }
}
