// The input of a program, read whole.
#![tactic(auto)]

ghost use Rattle.std.specs.Prelude.{◌≤◌, length};
ghost use Rattle.std.specs.Io.KnownBytes.{Consumes};

use std::io::Read;

// Reads until the room is full, the input ends or a read fails. Answers what was read, which stands at the room's start: just the bytes that were
// taken from the input, none of them lost and none twice.
pub fn read_full<'a, R: Read>(input: &mut R, room: &'a mut [u8]) -> &'a [u8]
    ensures within { length result.now ≤ length room.old }
    ensures taken { Consumes (R.remaining input.old) (R.remaining input.new) result.now }
{
    let mut done = 0;
    // (No `for`: a read may give less than was asked for, and `read_to_end` needs a heap.)
    while done < room.len() {
        match input.read(&mut room[done..]) {
            Ok(0) => break,
            Ok(count) => done += count,
            Err(_) => break,
        }
    }
    &room[..done]
}

#[cfg(test)]
mod tests {
    use super::read_full;
    use std::io;
    use std::io::{ErrorKind, Read};

    // Gives a byte a read, and fails where a byte is 0.
    #[derive(Drop)]
    struct Dribble<'a> {
        rest: &'a [u8],
    }

    impl Read for Dribble<'_> {
        fn read(&mut self, buf: &mut [u8]) -> io::Result<usize> {
            let [byte, rest @ ..] = self.rest else {
                return Ok(0);
            };
            if *byte == 0 {
                return Err(io::Error::from(ErrorKind::Interrupted));
            }
            let [first, ..] = buf else {
                return Ok(0);
            };
            *first = *byte;
            self.rest = rest;
            Ok(1)
        }
    }

    // To the input's end, to the room's, and to a read that fails.
    #[test]
    fn reads_on_after_a_short_read(rt: HostRuntime) {
        let cases: [(&[u8], &[u8]); 4] = [
            (b"abc", b"abc"),
            (b"abcde", b"abcd"),
            (b"ab\0cd", b"ab"),
            (b"", b""),
        ];
        for (input, want) in cases {
            let mut room = [0u8; 4];
            let read = read_full(&mut Dribble { rest: input }, &mut room);
            assert!(rt; read == want);
        }
    }
}
