// Reads all 65,536 words, writes each again, and prints what docs/src/expect/words.txt has for the same reading:
// the count of valid words and the digest of eight bytes for each word; then how many words came back equal.
#![tactic(auto)]

use harness::Tally;
use word::Word;

// The first five of a word's eight bytes for the digest: its kind, by a number that stands in the digest alone, and its fields in the
// order of the word, 0 where there is none, the last one in two bytes.
fn read_bytes(w: Word) -> [u8; 5] {
    match w {
        Word::Move { s, rl, d } => entry(0, s, rl, d),
        Word::Add { s, rl, d } => entry(1, s, rl, d),
        Word::And { s, rl, d } => entry(2, s, rl, d),
        Word::Xor { s, rl, d } => entry(3, s, rl, d),
        Word::XecRegister { s, i } => entry(4, s, 0, i),
        Word::XecBank { s, l, i } => entry(5, s, l, i),
        Word::NztRegister { s, i } => entry(6, s, 0, i),
        Word::NztBank { s, l, i } => entry(7, s, l, i),
        Word::Call { i } => entry(8, 0, 0, i),
        Word::Ret { i } => entry(9, 0, 0, i),
        Word::XmitRegister { d, i } => entry(10, d, 0, i),
        Word::XmitBank { d, l, i } => entry(11, d, l, i),
        Word::Jmp { a } => entry(12, 0, 0, a),
        Word::Invalid => entry(13, 0, 0, 0),
    }
}

fn entry(kind: u8, a: usize, b: usize, c: usize) -> [u8; 5] {
    let [low, high, ..] = c.to_le_bytes();
    [kind, a.to_le_bytes()[0], b.to_le_bytes()[0], low, high]
}

// What writing gave: 1 and the word's two bytes, or 0, 0, 22.
fn written_of(again: Option<u16>) -> [u8; 3] {
    match again {
        Some(bits) => {
            let [high, low] = bits.to_be_bytes();
            [1, high, low]
        }
        None => [0, 0, 22],
    }
}

// Reads the words from first to last.
fn read(first: u16, last: u16) -> Tally {
    let mut t = Tally::none();
    for bits in first..=last {
        let w = word::decode(bits);
        let again = encoding::encode(w);
        let [kind, a, b, low, high] = read_bytes(w);
        let [good, first, second] = written_of(again);
        t = t.with(
            w != Word::Invalid,
            again == Some(bits),
            &[kind, a, b, low, high, good, first, second],
        );
    }
    t
}

fn field(name: &[u8], n: u64) {
    io::write_all(1, name);
    io::print_decimal(1, n);
}

fn line(name: &[u8], first: u16, last: u16) {
    let t = read(first, last);
    io::write_all(1, b"read ");
    io::write_all(1, name);
    field(b" first=", u64::from(first));
    field(b" last=", u64::from(last));
    field(b" valid=", t.valid as u64);
    io::write_all(1, b" digest=");
    io::print_hex(1, t.sum, 16);
    field(b" equal=", t.equal as u64);
    io::write_all(1, b"\n");
}

fn main() {
    line(b"all", 0, 65535);
    line(b"opcode0", 0, 8191);
    line(b"opcode1", 8192, 16383);
    line(b"opcode2", 16384, 24575);
    line(b"opcode3", 24576, 32767);
    line(b"opcode4", 32768, 40959);
    line(b"opcode5", 40960, 49151);
    line(b"opcode6", 49152, 57343);
    line(b"opcode7", 57344, 65535);
}
