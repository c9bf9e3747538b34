// What a word shows in a listing: its mnemonic, and the layout of its operands.
#![tactic(auto)]

ghost use Rattle.std.specs.Prelude.{◌≡◌, [], ◌<◌, get_or, Some};
ghost use Rattle.word.specs.Word.{is_valid};
ghost use Rattle.text.specs.Text.{filled};
ghost use Rattle.mnemonics.specs.Layout.{opcode_names, is_nzt_of, mnemonic_of, layout_of};
ghost use Rattle.mnemonics.specs.Parts.{operands_in};

// An operand: its value, and the octal digits that it takes.
#[derive(Clone, Copy)]
pub struct Field {
    pub value: usize,
    pub digits: usize,
}

fn shown(value: usize, digits: usize) -> Option<Field>
    ensures { result ≡ Some (record { value = value; digits = digits }) }
{
    Some(Field { value, digits })
}

// S of CALL and of RET.
const CALL: usize = 7;

const RET: usize = 15;

// Whether a word has opcode 5 and this S.
fn is_nzt_of(w: usize, s: usize) -> bool
    ensures { result ≡ is_nzt_of s w }
{
    w / 8192 == 5 && w / 256 % 32 == s
}

// The operands of a word, none if it is invalid. By its bits, as `layout_of` tells them, and not by its case: of the fourteen cases
// of `Word` seven would say one layout. `columns` asks once whether the word is valid, for both.
#[tactic(auto, unfolding(crate::specs::Layout::layout_of))]
pub fn operands(w: usize, valid: bool) -> [Option<Field>; 3]
    requires { valid ≡ is_valid w }
    ensures { operands_in result ≡ layout_of w }
{
    if !valid {
        return [None; 3];
    }
    let op = w / 8192;
    let s = w / 256 % 32;
    if op == 7 {
        return [shown(w % 8192, 5), None, None];
    }
    if op < 4 || word::is_bank(s) {
        return [shown(s, 2), shown(w / 32 % 8, 1), shown(w % 32, 2)];
    }
    if is_nzt_of(w, CALL) || is_nzt_of(w, RET) {
        return [shown(w % 256, 3), None, None];
    }
    [shown(s, 2), shown(w % 256, 3), None]
}

// The mnemonic of an opcode.
fn opcode_name(op: usize) -> [u8; 4]
    requires { op < 8 }
    ensures { result ≡ filled 4 (get_or opcode_names op []) }
{
    match op {
        0 => *b"MOVE",
        1 => *b"ADD ",
        2 => *b"AND ",
        3 => *b"XOR ",
        4 => *b"XEC ",
        5 => *b"NZT ",
        6 => *b"XMIT",
        _ => *b"JMP ",
    }
}

// The mnemonic of a word.
#[tactic(auto, unfolding(crate::specs::Layout::mnemonic_of))]
pub fn mnemonic(w: usize, valid: bool) -> [u8; 4]
    requires { (w < 65536) × (valid ≡ is_valid w) }
    ensures { result ≡ filled 4 (mnemonic_of w) }
{
    if !valid {
        return *b"????";
    }
    if is_nzt_of(w, CALL) {
        return *b"CALL";
    }
    if is_nzt_of(w, RET) {
        return *b"RET ";
    }
    opcode_name(w / 8192)
}
