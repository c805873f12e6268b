// What a case prints before the end of its line. Each comparison prints what differs and answers whether nothing does, so that all
// differences of a case are seen. A write that fails is passed over. (The handle and the two that are compared are no struct: each call compares others.)
ghost use Rattle.std.specs.Prelude.{◌≡◌, false, ◌==◌};

// A case that is not in its form.
pub fn malformed(rt: &impl Print) -> bool
    ensures { result ≡ false }
{
    let _ = rt.write_all(b"malformed, ");
    false
}

pub fn agree(rt: &impl Print, what: &[u8], same: bool) -> bool
    ensures { result ≡ same }
{
    if !same {
        let _ = rt.write_all(what);
        let _ = rt.write_all(b" differs, ");
    }
    same
}

// Shows both words.
pub fn agree_word(rt: &impl Print, name: &[u8], left: u16, expected: u16) -> bool
    ensures { result ≡ (left == expected) }
{
    let same = left == expected;
    if !same {
        let _ = rt.write_all(name);
        let _ = print!(rt; " is {left:04x} and not {expected:04x}, ");
    }
    same
}
