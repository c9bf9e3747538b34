// The instruction word encoded: 16 bits of a case with its fields. An opcode is three of them.
#![tactic(auto)]

ghost use Rattle.std.specs.Prelude.{true, ◌≡◌, ◌<◌, Some};
ghost use Rattle.word.specs.Word.{low_of, word_of, act_bits, register_bits, bank_bits, jmp_bits, encoded, writing, written_of};

use word::Word;

// The low byte of a length and a constant beside it.
fn low_byte(l: usize, x: usize) -> usize
    requires { (l < 8) × (x < 32) }
    ensures { (result ≡ low_of l x) × (result < 256) }
{
    l * 32 + x
}

// The word of an opcode, bits 3-7 and the low byte.
fn word_bits(op: usize, s: usize, low: usize) -> u16
    requires { (op < 8) × (s < 32) × (low < 256) }
    ensures { result ≡ word_of op s low }
{
    (op * 8192 + s * 256 + low) as u16
}

// Opcodes 0-3.
fn encode_act(op: usize, s: usize, rl: usize, d: usize) -> Option<u16>
    requires { op < 8 }
    ensures { result ≡ act_bits op s rl d }
{
    if word::is_source(s) & (rl < 8) & word::is_target(d) {
        return Some(word_bits(op, s, low_byte(rl, d)));
    }
    None
}

// XEC, NZT and XMIT of a register: listed says that the opcode's list has it.
fn encode_register(op: usize, listed: bool, s: usize, i: usize) -> Option<u16>
    requires { (op < 8) × (listed ≡ true → s < 16) }
    ensures { result ≡ register_bits op listed s i }
{
    if listed & (i < 256) {
        return Some(word_bits(op, s, i));
    }
    None
}

// XEC, NZT and XMIT of a bank: listed says that the length is one of the opcode's.
fn encode_bank(op: usize, listed: bool, s: usize, l: usize, i: usize) -> Option<u16>
    requires { (op < 8) × (listed ≡ true → l < 8) }
    ensures { result ≡ bank_bits op listed s l i }
{
    if listed & word::is_bank(s) & (i < 32) {
        return Some(word_bits(op, s, low_byte(l, i)));
    }
    None
}

fn encode_jmp(a: usize) -> Option<u16>
    ensures { result ≡ jmp_bits a }
{
    if a < 8192 {
        return Some((7 * 8192 + a) as u16);
    }
    None
}

// Writes a word: its 16 bits, or none where a field is wider than its place or outside the lists.
#[tactic(auto, unfolding(word::specs::Word::encoded))]
pub fn encode(word: Word) -> Option<u16>
    ensures { (result ≡ encoded word) × (written_of result ≡ writing word) }
{
    match word {
        Word::Move { s, rl, d } => encode_act(0, s, rl, d),
        Word::Add { s, rl, d } => encode_act(1, s, rl, d),
        Word::And { s, rl, d } => encode_act(2, s, rl, d),
        Word::Xor { s, rl, d } => encode_act(3, s, rl, d),
        Word::XecRegister { s, i } => encode_register(4, word::is_register_source(s), s, i),
        Word::XecBank { s, l, i } => encode_bank(4, (1 <= l) & (l < 6), s, l, i),
        Word::NztRegister { s, i } => encode_register(5, word::is_register_source(s), s, i),
        Word::NztBank { s, l, i } => encode_bank(5, l < 8, s, l, i),
        Word::Call { i } => encode_register(5, true, 7, i),
        Word::Ret { i } => encode_register(5, true, 15, i),
        Word::XmitRegister { d, i } => encode_register(6, word::is_register_target(d), d, i),
        Word::XmitBank { d, l, i } => encode_bank(6, l < 8, d, l, i),
        Word::Jmp { a } => encode_jmp(a),
        Word::Invalid => None,
    }
}
