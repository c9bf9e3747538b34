// The line of a word on a listing page: its columns put one behind another.
#![tactic(auto)]

ghost use Rattle.std.specs.Prelude.{◌≡◌, ◌++◌, ◌+◌, ◌*◌, ◌≤◌, ◌<◌, length};
ghost use Rattle.word.specs.Word.{is_valid};
ghost use Rattle.text.specs.Text.{space_text, octal};
ghost use Rattle.text.specs.Parts.{Written};
ghost use Rattle.mnemonics.specs.Parts.{operands_in};
ghost use Rattle.columns.specs.Line.{page_line, line_length};
ghost use Rattle.columns.specs.Parts.{spaced_text, word_text};

use mnemonics::Field;

// Columns of the mnemonic and the operands, with the space between them.
const COLUMNS: usize = 18;

// A space and a number.
fn put_number(out: &mut [u8], at: usize, value: usize, digits: usize) -> usize
    requires { (at + (1 + digits) ≤ length out.old) × (digits ≤ 21) }
    ensures { Written out.old at (space_text ++ octal digits value) out.new result }
{
    let b = text::put(out, at, b" ");
    text::put_octal(out, b, value, digits)
}

// The operands of any layout, each behind a space.
fn put_operands(out: &mut [u8], at: usize, layout: [Option<Field>; 3]) -> usize
    requires { (at + length (spaced_text (operands_in layout)) ≤ length out.old) × (length (spaced_text (operands_in layout)) ≤ 14) }
    ensures { Written out.old at (spaced_text (operands_in layout)) out.new result }
{
    let mut b = at;
    for field in &layout {
        if let Some(f) = field {
            b = put_number(out, b, f.value, f.digits);
        }
    }
    b
}

// The mnemonic and the operands of a word, filled up with spaces.
fn put_word(out: &mut [u8], at: usize, w: usize, valid: bool) -> usize
    requires { (at + 18 ≤ length out.old) × (w < 65536) × (valid ≡ is_valid w) }
    ensures { Written out.old at (word_text w) out.new result }
{
    let name = mnemonics::mnemonic(w, valid);
    let b = text::put(out, at, &name);
    let c = put_operands(out, b, mnemonics::operands(w, valid));
    text::fill(out, c, at + COLUMNS)
}

// The line of a word at an address.
pub fn put_line(out: &mut [u8], at: usize, address: usize, high: u8, low: u8) -> usize
    requires { at + line_length ≤ length out.old }
    ensures { Written out.old at (page_line address (high * 256 + low)) out.new result }
{
    let w = usize::from(u16::from_be_bytes([high, low]));
    let b = text::put_octal(out, at, address, 5);
    let c = put_number(out, b, w, 6);
    let d = text::put(out, c, b" ");
    let e = put_word(out, d, w, word::is_valid(high, low));
    text::put(out, e, b"\n")
}
