// The answer of the set's builder, compared with what the row after the call tells.
use harness::{answer, fields};
use reach::Summary;
use refusal::Refusal;

pub(crate) fn tells_set(after: &[u8], given: Result<Summary, Refusal>) -> bool {
    match given {
        Ok(summary) => {
            !answer::is_refused(after)
                & (fields::number(after, b"addresses", 0) == u64::from(summary.addresses))
                & (fields::number(after, b"writers", 0) == u64::from(summary.writers))
                & (fields::find_word(after, b"lowest") == summary.lowest)
        }
        Err(why) => answer::refuses(after, refusal::number(why)),
    }
}
