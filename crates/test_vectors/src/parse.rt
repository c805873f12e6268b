// Reads numbers and marks off a line of text.
ghost use Rattle.std.specs.Prelude.{◌+◌, ◌<◌, ◌≤◌, length, IfSome};

// What is left of a line. What a reader wants and does not find there makes it answer `None`.
#[derive(Clone, Copy)]
pub(crate) struct Line<'a> {
    pub rest: &'a [u8],
}

impl<'a> Line<'a> {
    fn byte(&mut self) -> Option<u8>
        ensures left { length self.new.rest.now ≤ length self.old.rest.now }
        ensures taken { IfSome result (λ _. length self.new.rest.now < length self.old.rest.now) }
    {
        let (byte, rest) = self.rest.split_first()?;
        self.rest = rest;
        Some(*byte)
    }

    // Moves past the byte `wanted`.
    pub(crate) fn expect(&mut self, wanted: u8) -> Option<()>
        ensures left { length self.new.rest.now ≤ length self.old.rest.now }
        ensures taken { IfSome result (λ _. length self.new.rest.now < length self.old.rest.now) }
    {
        if self.byte()? == wanted {
            Some(())
        } else {
            None
        }
    }

    // One digit of a number that is written in `base`.
    pub(crate) fn digit(&mut self, base: u16) -> Option<u16>
        requires { base ≤ 16 }
        ensures value { IfSome result (λ value. value < base) }
        ensures left { length self.new.rest.now ≤ length self.old.rest.now }
    {
        let value = digit_value(self.byte()?)?;
        if value < base { Some(value) } else { None }
    }

    // Four hexadecimal digits.
    pub(crate) fn hex_word(&mut self) -> Option<u16>
        ensures left { length self.new.rest.now ≤ length self.old.rest.now }
    {
        let high = self.hex_byte()?;
        let low = self.hex_byte()?;
        Some(high * 256 + low)
    }

    fn hex_byte(&mut self) -> Option<u16>
        ensures value { IfSome result (λ value. value < 256) }
        ensures left { length self.new.rest.now ≤ length self.old.rest.now }
    {
        let high = self.digit(16)?;
        let low = self.digit(16)?;
        Some(high * 16 + low)
    }

    // One or two decimal digits: no instruction takes a hundred cycles.
    pub(crate) fn decimal(&mut self) -> Option<u16> {
        let first = self.digit(10)?;
        let mut ahead = *self;
        let Some(second) = ahead.digit(10) else {
            return Some(first);
        };
        *self = ahead;
        Some(first * 10 + second)
    }
}

fn digit_value(byte: u8) -> Option<u16>
    ensures { IfSome result (λ value. value < 16) }
{
    match byte {
        b'0'..=b'9' => Some(u16::from(byte - b'0')),
        b'A'..=b'F' => Some(u16::from(byte - b'A') + 10),
        _ => None,
    }
}
