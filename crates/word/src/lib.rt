// The instruction word: decoded from 16 bits to a case with its fields. (`encoding` writes it again.)
// Fields bear the manual's letters: s source, rl rotation or length, d destination, i constant, l length, a address.
// RET's i is the low byte that it keeps and that no step looks at. Fields are as wide as a caller may give them: `encode` refuses what
// does not fit. Invalid is a case, as the definition `decoded` and the theorem `valid_or_invalid` name it.
#![tactic(auto)]

ghost use Rattle.std.specs.Prelude.{true, ◌≡◌, ◌<◌, ◌+◌, ◌*◌};
ghost use Rattle.word.specs.Word.{is_bank, is_register_source, is_register_target, is_source, is_target};
ghost use Rattle.word.specs.Word.{act_of, act_read, xec_read, nzt_read, xmit_read, decoded, is_valid, fields_of, reading};
ghost use Rattle.word.specs.Word.{word_of};

#[derive(Clone, Copy, Debug, PartialEq, Eq)]
pub enum Word {
    Move { s: usize, rl: usize, d: usize },
    Add { s: usize, rl: usize, d: usize },
    And { s: usize, rl: usize, d: usize },
    Xor { s: usize, rl: usize, d: usize },
    XecRegister { s: usize, i: usize },
    XecBank { s: usize, l: usize, i: usize },
    NztRegister { s: usize, i: usize },
    NztBank { s: usize, l: usize, i: usize },
    Call { i: usize },
    Ret { i: usize },
    XmitRegister { d: usize, i: usize },
    XmitBank { d: usize, l: usize, i: usize },
    Jmp { a: usize },
    Invalid,
}

// The first number of a bank, 20 octal; the numbers below it are registers and bus addresses.
pub const FIRST_BANK: usize = 16;

// A bank: 20-37 octal.
pub fn is_bank(r: usize) -> bool
    ensures { result ≡ is_bank r }
{
    (FIRST_BANK <= r) & (r < 32)
}

// A register that can be read: 00-06, 10, 11 octal.
pub fn is_register_source(r: usize) -> bool
    ensures { result ≡ is_register_source r }
{
    (r < 7) | (r == 8) | (r == 9)
}

// A register or bus address that can be written: 00-07, 11, 17 octal.
pub fn is_register_target(r: usize) -> bool
    ensures { result ≡ is_register_target r }
{
    (r < 8) | (r == 9) | (r == 15)
}

// What S can be: a register that can be read, or a bank.
pub fn is_source(r: usize) -> bool
    ensures { result ≡ is_source r }
{
    is_register_source(r) | is_bank(r)
}

// What D can be: a register or bus address that can be written, or a bank.
pub fn is_target(r: usize) -> bool
    ensures { result ≡ is_target r }
{
    is_register_target(r) | is_bank(r)
}

// Opcodes 0-3, each with its own case.
fn act(op: usize, s: usize, rl: usize, d: usize) -> Word
    ensures { result ≡ act_of op s rl d }
{
    match op {
        0 => Word::Move { s, rl, d },
        1 => Word::Add { s, rl, d },
        2 => Word::And { s, rl, d },
        _ => Word::Xor { s, rl, d },
    }
}

fn decode_act(op: usize, s: usize, rl: usize, d: usize) -> Word
    ensures { result ≡ act_read op s rl d }
{
    if is_source(s) {
        if is_target(d) {
            return act(op, s, rl, d);
        }
    }
    Word::Invalid
}

// XEC, NZT and XMIT: short is the constant beside a bank and its length, i the one beside a register.
fn decode_xec(s: usize, l: usize, short: usize, i: usize) -> Word
    ensures { result ≡ xec_read s l short i }
{
    if is_bank(s) {
        if (1 <= l) & (l < 6) {
            return Word::XecBank { s, l, i: short };
        }
        return Word::Invalid;
    }
    if is_register_source(s) {
        return Word::XecRegister { s, i };
    }
    Word::Invalid
}

fn decode_nzt(s: usize, l: usize, short: usize, i: usize) -> Word
    ensures { result ≡ nzt_read s l short i }
{
    if is_bank(s) {
        return Word::NztBank { s, l, i: short };
    }
    if is_register_source(s) {
        return Word::NztRegister { s, i };
    }
    if s == 7 {
        return Word::Call { i };
    }
    if s != 15 {
        return Word::Invalid;
    }
    Word::Ret { i }
}

fn decode_xmit(d: usize, l: usize, short: usize, i: usize) -> Word
    ensures { result ≡ xmit_read d l short i }
{
    if is_bank(d) {
        return Word::XmitBank { d, l, i: short };
    }
    if is_register_target(d) {
        return Word::XmitRegister { d, i };
    }
    Word::Invalid
}

// Opcodes 0-6, from the opcode, bits 3-7 and the low byte.
fn decode_low(op: usize, s: usize, low: usize) -> Word
    requires { (op < 7) × (s < 32) × (low < 256) }
    ensures { result ≡ decoded (word_of op s low) }
{
    let l = low / 32;
    let short = low % 32;
    match op {
        0..=3 => decode_act(op, s, l, short),
        4 => decode_xec(s, l, short, low),
        5 => decode_nzt(s, l, short, low),
        _ => decode_xmit(s, l, short, low),
    }
}

// Reads a word from its two bytes. The opcode is three bits of them: its numbers become cases here, in `decode_low` and in `act`.
pub fn decode_bytes(high: u8, low: u8) -> Word
    ensures { result ≡ decoded (high * 256 + low) }
{
    let h = usize::from(high);
    let l = usize::from(low);
    let op = h / 32;
    let s = h % 32;
    if op == 7 {
        return Word::Jmp { a: s * 256 + l };
    }
    decode_low(op, s, l)
}

// Reads a word: the case and its fields, or Invalid where the word is not listed.
pub fn decode(word: u16) -> Word
    ensures { (result ≡ decoded word) × (fields_of result ≡ reading word) }
{
    let [high, low] = word.to_be_bytes();
    decode_bytes(high, low)
}

// Is the word of two bytes valid?
pub fn is_valid(high: u8, low: u8) -> bool
    ensures { result ≡ is_valid (high * 256 + low) }
{
    !matches!(decode_bytes(high, low), Word::Invalid)
}
