// What a program does with its streams.
ghost use Rattle.std.specs.Prelude.{◌≡◌, ◌≤◌, length};
ghost use Rattle.std.specs.Io.KnownBytes.{Consumes};
ghost use Rattle.std.specs.Process.{exit_status};
ghost use Rattle.report.specs.Reading.{read_room};
ghost use Rattle.report.specs.Streams.{Transcribes, EndsWell};

use crate::{Program, READ_ROOM, TEXT_ROOM, print};
use std::io;
use std::io::{ErrorKind, Read, Write};
use std::process::ExitCode;

// What a shell tells of a program that the signal of a closed pipe ended: 128, and the signal's number.
const NOBODY_READS: u8 = 141;

// Whether the input is refused, and whether the text was written: either may be so without the other.
#[derive(Drop)]
pub struct Transcribed {
    pub refused: bool,
    pub written: io::Result<()>,
}

// Reads an image. The room is a byte longer than the longest image: in a smaller one nobody would see that an input is over-long.
fn read_image<'a, R: Read>(input: &mut R, room: &'a mut [u8]) -> &'a [u8]
    requires { length room.old ≡ read_room }
    ensures within { length result.now ≤ read_room }
    ensures taken { Consumes (R.remaining input.old) (R.remaining input.new) result.now }
{
    input::read_full(input, room)
}

// Reads an image, and writes its text. The text is made whole before any of it is written.
pub fn transcribe<R: Read, W: Write>(program: Program, input: &mut R, output: &mut W) -> Transcribed
    ensures { Transcribes program (R.remaining input.old) (R.remaining input.new) (W.contents output.old) (W.contents output.new) result }
{
    let mut room = [0u8; READ_ROOM];
    let image = read_image(input, &mut room);
    let mut text = [0u8; TEXT_ROOM];
    let printed = print(program, image, &mut text);
    Transcribed {
        refused: printed.refused,
        written: output.write_all(&text[..printed.size]),
    }
}

// All that a program does. Whatever went wrong, the exit status is 0: it is said on standard error, which stays empty otherwise. Only where
// nobody reads the text the program ends at once and says nothing, as the signal of a closed pipe would end it.
pub fn run(rt: &HostRuntime, program: Program) -> ExitCode
    ensures { EndsWell (exit_status result) }
{
    let Transcribed { refused, written } = transcribe(program, &mut rt.stdin(), &mut rt.stdout());
    if let Err(error) = written {
        if error.kind() == ErrorKind::BrokenPipe {
            return ExitCode::from(NOBODY_READS);
        }
        let _ = rt.eprintln("the text could not be written");
    }
    if refused {
        let _ = rt.eprintln("the image was refused");
    }
    ExitCode::SUCCESS
}
