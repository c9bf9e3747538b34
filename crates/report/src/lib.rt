// What admission answers for an image, in the words of the bench's line.
#![tactic(auto)]

ghost use Rattle.std.specs.Prelude.{◌≡◌, List, true, ℕ, ◌+◌, ◌≤◌, ◌<◌, length, Ok, IfSome};
ghost use Rattle.machine.specs.Step.{word_count};
ghost use Rattle.emulator.specs.Run.{image_fits};
ghost use Rattle.text.specs.Parts.{Written};
ghost use Rattle.admission.specs.Admission.{admit_told};
ghost use Rattle.findings.specs.Findings.{fault_number};
ghost use Rattle.report.specs.Report.{sets_text, admitted_line, found_line, answer_line, words_line};

use findings::Failure;
use map::SetSizes;

fn put_found(out: &mut [u8], failure: Failure) -> usize
    requires { (64 ≤ length out.old) × (fault_number failure.fault < 1000) × (failure.depth < 1000) × (failure.address < 1000) }
    ensures { Written out.old 0 (found_line (fault_number failure.fault) failure.depth failure.address) out.new result × (result < 64) }
{
    let b = text::put_value(out, 0, b"refused ", usize::from(failure.fault.number()));
    let c = text::put_value(out, b, b" depth ", failure.depth);
    text::put_value(out, c, b" address ", failure.address)
}

// How many addresses each of the four sets has.
fn put_sets(out: &mut [u8], at: usize, sizes: SetSizes) -> usize
    requires { (at + 27 ≤ length out.old) × (sizes.left_readable < 1000) × (sizes.left_writable < 1000) × (sizes.right_readable < 1000) × (sizes.right_writable < 1000) }
    ensures { Written out.old at (sets_text sizes.left_readable sizes.left_writable sizes.right_readable sizes.right_writable) out.new result × (result ≤ at + 27) }
{
    let b = text::put_value(out, at, b" left ", sizes.left_readable);
    let c = text::put_value(out, b, b" ", sizes.left_writable);
    let d = text::put_value(out, c, b" right ", sizes.right_readable);
    text::put_value(out, d, b" ", sizes.right_writable)
}

fn put_admitted(out: &mut [u8], words: usize, map: &[u8; map::LENGTH]) -> usize
    requires { (64 ≤ length out.old) × (words < 1000) }
    ensures { ((image : List ℕ) → words ≡ word_count image → Written out.old 0 (admitted_line image map.now) out.new result) × (result < 64) }
{
    let a = text::put_value(out, 0, b"admitted words ", words);
    put_sets(out, a, map::sizes(map))
}

// The first cell that has a finding, or that none has.
fn put_first(out: &mut [u8], words: usize, map: &[u8; map::LENGTH], first: Option<Failure>) -> usize
    requires { (64 ≤ length out.old) × (words < 1000) × IfSome first (λ f. (fault_number f.fault < 1000) × (f.depth < 1000) × (f.address < 1000)) }
    ensures { ((image : List ℕ) → words ≡ word_count image → Written out.old 0 (answer_line image map.now (admit_told (Ok first))) out.new result) × (result < 64) }
{
    match first {
        None => put_admitted(out, words, map),
        Some(failure) => put_found(out, failure),
    }
}

// Room for the table of 400 words.
fn table_buffer() -> [u8; 57600]
    ensures { 57600 ≡ length result }
{
    [0; 57600]
}

// What admission of an image of at most 400 words answers, as a line.
pub fn put_answer(out: &mut [u8], map: &[u8; map::LENGTH], image: &[u8]) -> usize
    requires { (64 ≤ length out.old) × (image_fits image.now ≡ true) × (length image.now ≤ 800) }
    ensures { Written out.old 0 (words_line map.now image.now) out.new result × (result < 64) }
{
    let words = image.len() / 2;
    let size = words * facts::WORD_RECORDS;
    let mut table = table_buffer();
    let answered = admission::admit(image, map, &mut table[..size]);
    match answered.answer {
        Ok(first) => put_first(out, words, map, first),
        Err(refusal) => text::put_door(out, usize::from(refusal.number())),
    }
}
