// A word as one number, for C and Rust: its opcode and fields, each at its place, and the word of an opcode and fields.
#![tactic(auto)]

ghost use Rattle.std.specs.Prelude.{◌≡◌, ◌<◌};
ghost use Rattle.word.specs.Word.{InRange};
ghost use Rattle.numbers.specs.Words.{fields_number, read_number, xec_from, nzt_from, xmit_from, word_from};

use refusal::Refusal;
use word::Word;

// The opcode and three fields, each at its place of a number.
fn fields(op: usize, a: usize, b: usize, c: usize) -> u64
    requires { (op < 8) × (a < 65536) × (b < 65536) × (c < 65536) }
    ensures { result ≡ fields_number op a b c }
{
    op as u64 * 256 + a as u64 * 65536 + b as u64 * 4294967296 + c as u64 * 281474976710656
}

// The opcode and the fields of a word, or 22.
pub fn read_number(word: Word) -> u64
    requires { InRange word }
    ensures { result ≡ read_number word }
{
    match word {
        Word::Move { s, rl, d } => fields(0, s, rl, d),
        Word::Add { s, rl, d } => fields(1, s, rl, d),
        Word::And { s, rl, d } => fields(2, s, rl, d),
        Word::Xor { s, rl, d } => fields(3, s, rl, d),
        Word::XecRegister { s, i } => fields(4, s, i, 0),
        Word::XecBank { s, l, i } => fields(4, s, l, i),
        Word::NztRegister { s, i } => fields(5, s, i, 0),
        Word::NztBank { s, l, i } => fields(5, s, l, i),
        Word::Call { i } => fields(5, 7, i, 0),
        Word::Ret { i } => fields(5, 15, i, 0),
        Word::XmitRegister { d, i } => fields(6, d, i, 0),
        Word::XmitBank { d, l, i } => fields(6, d, l, i),
        Word::Jmp { a } => fields(7, a, 0, 0),
        Word::Invalid => u64::from(Refusal::Unlisted.number()),
    }
}

// XEC, NZT and XMIT: of a bank all three fields are given, of a register the third must be 0. Each makes cases of its own.
#[tactic(auto, unfolding(crate::specs::Words::xec_from))]
fn xec_from(s: usize, b: usize, c: usize) -> Word
    ensures { result ≡ xec_from s b c }
{
    if word::is_bank(s) {
        return Word::XecBank { s, l: b, i: c };
    }
    if c == 0 {
        return Word::XecRegister { s, i: b };
    }
    Word::Invalid
}

// CALL is NZT's form with the register 07, RET with 17.
#[tactic(auto, unfolding(crate::specs::Words::nzt_from))]
fn nzt_from(s: usize, b: usize, c: usize) -> Word
    ensures { result ≡ nzt_from s b c }
{
    if word::is_bank(s) {
        return Word::NztBank { s, l: b, i: c };
    }
    if c != 0 {
        return Word::Invalid;
    }
    if s == 7 {
        return Word::Call { i: b };
    }
    if s == 15 {
        return Word::Ret { i: b };
    }
    Word::NztRegister { s, i: b }
}

#[tactic(auto, unfolding(crate::specs::Words::xmit_from))]
fn xmit_from(d: usize, b: usize, c: usize) -> Word
    ensures { result ≡ xmit_from d b c }
{
    if word::is_bank(d) {
        return Word::XmitBank { d, l: b, i: c };
    }
    if c == 0 {
        return Word::XmitRegister { d, i: b };
    }
    Word::Invalid
}

// The case of an opcode and its fields.
#[tactic(auto, unfolding(crate::specs::Words::word_from))]
pub fn word_from(op: usize, a: usize, b: usize, c: usize) -> Word
    ensures { result ≡ word_from op a b c }
{
    match op {
        0 => Word::Move { s: a, rl: b, d: c },
        1 => Word::Add { s: a, rl: b, d: c },
        2 => Word::And { s: a, rl: b, d: c },
        3 => Word::Xor { s: a, rl: b, d: c },
        4 => xec_from(a, b, c),
        5 => nzt_from(a, b, c),
        6 => xmit_from(a, b, c),
        7 if (b == 0) & (c == 0) => Word::Jmp { a },
        _ => Word::Invalid,
    }
}
