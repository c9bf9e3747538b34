// The calls for C and Rust: numbers and byte slices only, one number for each answer. (`riptide_c` exports them.)
#![tactic(auto)]

ghost use Rattle.std.specs.Prelude.{◌≡◌};
ghost use Rattle.word.specs.Word.{decoded, encoded};
ghost use Rattle.map.specs.Map.{counted};
ghost use Rattle.state.specs.State.{reset_number, reset_number_of, reset_state};
ghost use Rattle.emulator.specs.Run.{run_result};
ghost use Rattle.admission.specs.Admission.{admit_result};
ghost use Rattle.listing.specs.Listing.{list_result};
ghost use Rattle.numbers.specs.Words.{read_number, word_from, write_number};
ghost use Rattle.answers.specs.Numbers.{count_number, run_number};
ghost use Rattle.answers.specs.Calls.{admit_gives, check_gives, foretell_gives};

use refusal::Refusal;

// 0 where a call has done its work, else the refusal.
fn done_or(answer: Result<(), Refusal>) -> u64
    ensures { result ≡ reset_number answer }
{
    match answer {
        Ok(()) => 0,
        Err(refusal) => u64::from(refusal.number()),
    }
}

// opcode × 256 and the word's fields in the order of their bits, at bits 16, 32 and 48; or 22.
pub fn riptide_read_word(word: u16) -> u64
    ensures { result ≡ read_number (decoded word) }
{
    numbers::read_number(word::decode(word))
}

// word × 256; or 22 where a field is wider than its place or outside the lists.
pub fn riptide_write_word(op: usize, a: usize, b: usize, c: usize) -> u64
    ensures { result ≡ write_number (encoded (word_from op a b c)) }
{
    match encoding::encode(numbers::word_from(op, a, b, c)) {
        Some(w) => u64::from(w) * 256,
        None => u64::from(Refusal::Unlisted.number()),
    }
}

// The counts of the four sets at bits 8, 20, 32 and 44; or 12.
pub fn riptide_count_sets(map: &[u8]) -> u64
    ensures { result ≡ count_number (counted map.now) }
{
    answers::count_number(map::count(map))
}

// 0 and 36 zero bytes; or 14, and the bytes as they were.
pub fn riptide_reset(state: &mut [u8]) -> u64
    ensures { (result ≡ reset_number_of state.old) × (state.new ≡ reset_state state.old) }
{
    done_or(state::reset(state))
}

// number + depth × 256 + address × 65,536: 0 for admitted, the refusal 11, 12 or 13, or the finding; and the count of sweeps
// × 2^32.
pub fn riptide_admit(image: &[u8], map: &[u8], table: &mut [u8]) -> u64
    ensures { (result ≡ admit_gives image.now map.now table.old) × (table.new ≡ (admit_result image.now map.now table.old).table) }
{
    answers::admit_number(admission::admit(image, map, table))
}

// number + depth × 256 + address × 65,536: 0 for accepted, the refusal 11, 12 or 13, or what the first cell that fails fails
// with.
pub fn riptide_check(image: &[u8], map: &[u8], table: &[u8]) -> u64
    ensures { result ≡ check_gives image.now map.now table.now }
{
    answers::check_number(checking::check(image, map, table))
}

// The length of the image's table × 256 and the bound of its sweeps × 2^32; or 11.
pub fn riptide_foretell(image: &[u8]) -> u64
    ensures { result ≡ foretell_gives image.now }
{
    answers::foretell_number(foretell::foretell(image))
}

// count × 256 + number: the stop number or 0, or with count 0 the refusal 11, 12, 14, 15 or 16.
pub fn riptide_run(
    image: &[u8],
    map: &[u8],
    state: &mut [u8],
    recording: &[u8],
    trace: &mut [u8],
) -> u64
    ensures { (result ≡ run_number (run_result image.now map.now state.old recording.now trace.old).answer) × (state.new ≡ (run_result image.now map.now state.old recording.now trace.old).state) × (trace.new ≡ (run_result image.now map.now state.old recording.now trace.old).trace) }
{
    answers::run_number(running::run(image, map, state, recording, trace))
}

// 0 and the page; or the refusal 11 or 41, and the bytes as they were.
pub fn riptide_list(image: &[u8], page: &mut [u8]) -> u64
    ensures { (result ≡ (list_result image.now page.old).number) × (page.new ≡ (list_result image.now page.old).page) }
{
    done_or(listing::list(image, page))
}
