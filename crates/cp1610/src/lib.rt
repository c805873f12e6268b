// The C interface: the functions of libcp1610.a. Each takes the caller's words, calls the proved function and hands its answer
// back as words. docs/C-INTERFACE.md is the page for callers, and fixes names, parameters and buffers with their lengths.
// Each refuses what is short by an early return. An inner function that leaves by `?` would be no plainer: it would need each export's contract a second
// time, over its Result.
#![tactic(auto)]

ghost use Rattle.std.specs.Prelude.{◌≡◌, [], ◌∷◌};
ghost use Rattle.cp1610.specs.MapWords.{on_map};
ghost use Rattle.cp1610.specs.Called.{items, memory, called};
ghost use Rattle.cp1610.specs.Calls.{
  call_of,
  cp1610_reset,
  cp1610_step,
  cp1610_run,
  cp1610_wait,
  cp1610_region,
  cp1610_list,
  cp1610_assemble,
  cp1610_load,
  cp1610_write,
  cp1610_load_pair,
  cp1610_write_pair,
  cp1610_reach,
  cp1610_region_reached,
};
ghost use Rattle.cp1610.specs.ReachCall.{HoldsSet};

mod answers;
mod listing_words;
mod map_words;
mod meter_words;
mod reach_words;
mod words;

// The state that a machine starts from.
#[unsafe(no_mangle)]
pub extern "C" fn cp1610_reset(state: &mut [u16]) -> u64
    ensures { called result (items state.new ∷ []) ≡ call_of (cp1610_reset state.old) }
{
    if state.len() < words::STATE_LENGTH {
        return answers::SHORT_BUFFER;
    }
    words::pack(state, cpu::reset());
    answers::success(answers::DONE, 0)
}

// One step of the processor. The state's words are written only once it is known that the step was not refused. The step is the
// run's, so that the library holds the processor's step once.
#[unsafe(no_mangle)]
pub extern "C" fn cp1610_step(state: &mut [u16], mem: &mut [u16], map: &[u16], lines: u32) -> u64
    ensures { called result (items state.new ∷ memory (on_map map.now mem.new) ∷ [])
        ≡ call_of (cp1610_step state.old mem.old map.now lines) }
{
    if state.len() < words::STATE_LENGTH {
        return answers::SHORT_BUFFER;
    }
    let Some(board) = map_words::read_map(map) else {
        return answers::SHORT_BUFFER;
    };
    let stepped = run::one_step(words::unpack(state), board, mem, words::lines_of(lines));
    match stepped.answer {
        Ok(done) => {
            words::pack(state, stepped.state);
            answers::step_word(done)
        }
        Err(why) => answers::refused(why),
    }
}

// Steps within a budget of cycles. The state's words and `out` are written only once it is known that the run was not refused.
#[unsafe(no_mangle)]
pub extern "C" fn cp1610_run(
    state: &mut [u16],
    mem: &mut [u16],
    map: &[u16],
    lines: u32,
    budget: u32,
    out: &mut [u32],
) -> u64
    ensures { called result (items state.new ∷ memory (on_map map.now mem.new) ∷ items out.new ∷ [])
        ≡ call_of (cp1610_run state.old mem.old map.now lines budget out.old) }
{
    if state.len() < words::STATE_LENGTH {
        return answers::SHORT_BUFFER;
    }
    if out.len() < answers::RUN_LENGTH {
        return answers::SHORT_BUFFER;
    }
    let Some(board) = map_words::read_map(map) else {
        return answers::SHORT_BUFFER;
    };
    let ran = run::run(
        words::unpack(state),
        board,
        mem,
        words::lines_of(lines),
        budget,
    );
    match ran.answer {
        Ok(ended) => {
            words::pack(state, ran.state);
            words::put(out, answers::run_words(ended));
            answers::success(answers::DONE, 0)
        }
        Err(refusal) => answers::refused(refusal),
    }
}

// The wait meter for an address.
#[unsafe(no_mangle)]
pub extern "C" fn cp1610_wait(mem: &[u16], map: &[u16], address: u16, limit: u16) -> u64
    ensures { called result [] ≡ call_of (cp1610_wait mem.now map.now address limit) }
{
    let Some(board) = map_words::read_map(map) else {
        return answers::SHORT_BUFFER;
    };
    match meter::wait(board, mem, address, limit) {
        Ok(walked) => meter_words::walked_word(walked),
        Err(refusal) => answers::refused(refusal),
    }
}

// The wait meter for a region. `out` is written only once it is known that the region was not refused.
#[unsafe(no_mangle)]
pub extern "C" fn cp1610_region(
    mem: &[u16],
    map: &[u16],
    first: u16,
    last: u16,
    limit: u16,
    out: &mut [u32],
) -> u64
    ensures { called result (items out.new ∷ [])
        ≡ call_of (cp1610_region mem.now map.now first last limit out.old) }
{
    if out.len() < meter_words::REGION_LENGTH {
        return answers::SHORT_BUFFER;
    }
    let Some(board) = map_words::read_map(map) else {
        return answers::SHORT_BUFFER;
    };
    meter_words::region_word(out, meter::region(board, mem, first, last, limit))
}

// The line at an address. `out` is written only once it is known that the listing was not refused.
#[unsafe(no_mangle)]
pub extern "C" fn cp1610_list(
    mem: &[u16],
    map: &[u16],
    address: u16,
    d: u8,
    text: &mut [u8],
    out: &mut [u32],
) -> u64
    ensures { called result (items text.new ∷ items out.new ∷ [])
        ≡ call_of (cp1610_list mem.now map.now address d text.old out.old) }
{
    if out.len() < listing_words::LIST_LENGTH {
        return answers::SHORT_BUFFER;
    }
    let Some(board) = map_words::read_map(map) else {
        return answers::SHORT_BUFFER;
    };
    let answer = listing::disassemble(board, mem, address, d != 0, text);
    match answer {
        Ok(listed) => {
            words::put(
                out,
                [
                    listed.length as u32,
                    listed.words as u32,
                    listed.double as u32,
                ],
            );
            answers::success(answers::DONE, 0)
        }
        Err(refusal) => answers::refused(refusal),
    }
}

// The words of a line.
#[unsafe(no_mangle)]
pub extern "C" fn cp1610_assemble(line: &[u8], d: u8, words: &mut [u16]) -> u64
    ensures { called result (items words.new ∷ [])
        ≡ call_of (cp1610_assemble line.now d words.old) }
{
    if words.len() < listing_words::LINE_WORDS {
        return answers::SHORT_BUFFER;
    }
    match listing::assemble(line, d != 0) {
        Ok(assembly) => listing_words::put_assembly(words, assembly),
        Err(refusal) => answers::refused(refusal),
    }
}

// Loads an image file. (This call and `cp1610_load_pair` have an exported name each, over a call of its own.)
#[unsafe(no_mangle)]
pub extern "C" fn cp1610_load(board: u16, mem: &mut [u16], file: &[u8]) -> u64
    ensures { called result (items mem.new ∷ [])
        ≡ call_of (cp1610_load board mem.old file.now) }
{
    answers::count_word(image::load(board, mem, file))
}

// Writes an image file.
#[unsafe(no_mangle)]
pub extern "C" fn cp1610_write(
    board: u16,
    mem: &[u16],
    first: u16,
    last: u16,
    room: &mut [u8],
) -> u64
    ensures { called result (items room.new ∷ [])
        ≡ call_of (cp1610_write board mem.now first last room.old) }
{
    answers::count_word(image::write(board, mem, first, last, room))
}

// Reads a pair of a flat file and a mapping text.
#[unsafe(no_mangle)]
pub extern "C" fn cp1610_load_pair(mem: &mut [u16], bin: &[u8], cfg: &[u8]) -> u64
    ensures { called result (items mem.new ∷ [])
        ≡ call_of (cp1610_load_pair mem.old bin.now cfg.now) }
{
    answers::count_word(pair::load_pair(mem, bin, cfg))
}

// Writes a pair. `out` is written only once it is known that the writing was not refused.
#[unsafe(no_mangle)]
pub extern "C" fn cp1610_write_pair(
    mem: &[u16],
    first: u16,
    last: u16,
    bin: &mut [u8],
    cfg: &mut [u8],
    out: &mut [u32],
) -> u64
    ensures { called result (items bin.new ∷ items cfg.new ∷ items out.new ∷ [])
        ≡ call_of (cp1610_write_pair mem.now first last bin.old cfg.old out.old) }
{
    if out.len() < answers::PAIR_LENGTH {
        return answers::SHORT_BUFFER;
    }
    match pair::write_pair(mem, first, last, bin, cfg) {
        Ok(lengths) => {
            words::put(out, [lengths.bin as u32, lengths.cfg as u32]);
            answers::success(answers::DONE, 0)
        }
        Err(refusal) => answers::refused(refusal),
    }
}

// Builds the set of reached addresses. `clear`, `set` and `out` are written only once it is known that the call was not refused.
#[unsafe(no_mangle)]
pub extern "C" fn cp1610_reach(
    mem: &[u16],
    map: &[u16],
    entries: &[u16],
    clear: &mut [u64],
    set: &mut [u64],
    out: &mut [u32],
) -> u64
    ensures out_after { called result (items clear.new ∷ items set.new ∷ items out.new ∷ [])
        ≡ call_of (cp1610_reach mem.now map.now entries.now clear.old set.old out.old clear.new set.new) }
    ensures holds_set { HoldsSet (on_map map.now mem.now) entries.now clear.new set.new result }
{
    if out.len() < reach_words::REACH_LENGTH {
        return answers::SHORT_BUFFER;
    }
    let Some(board) = map_words::read_map(map) else {
        return answers::SHORT_BUFFER;
    };
    match reach::reach(board, mem, entries, clear, set) {
        Ok(summary) => {
            words::put(out, reach_words::summary_words(summary));
            answers::success(answers::DONE, 0)
        }
        Err(refusal) => answers::refused(refusal),
    }
}

// The wait meter for the members of a set in a region. `out` is written only once it is known that the region was not refused.
#[unsafe(no_mangle)]
pub extern "C" fn cp1610_region_reached(
    mem: &[u16],
    map: &[u16],
    first: u16,
    last: u16,
    limit: u16,
    clear: &[u64],
    set: &[u64],
    out: &mut [u32],
) -> u64
    ensures { called result (items out.new ∷ [])
        ≡ call_of (cp1610_region_reached mem.now map.now first last limit clear.now set.now out.old) }
{
    if out.len() < meter_words::REGION_LENGTH {
        return answers::SHORT_BUFFER;
    }
    let Some(board) = map_words::read_map(map) else {
        return answers::SHORT_BUFFER;
    };
    meter_words::region_word(
        out,
        meter::region_reached(board, mem, first, last, limit, clear, set),
    )
}
