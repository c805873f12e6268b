// An instruction begun, as its row sees it.
ghost use Rattle.std.specs.Prelude.{◌≡◌, get_or};
ghost use Rattle.word.specs.Word.{wrap_add};

use crate::Status;

// Its address, the status before it, and the registers with R7 one on, past an instruction of one word. (It goes by value: by reference
// a step takes 124 machine instructions where this takes 111.)
#[derive(Clone, Copy)]
pub(crate) struct Begun {
    pub registers: [u16; 8],
    pub status: Status,
    pub pc: u16,
    ghost one_on: { get_or registers 7 0 ≡ wrap_add pc 1 },
}
