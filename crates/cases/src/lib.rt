// The text of expectations: places, numbers, and bytes in their five forms.
#![tactic(auto)]

ghost use Rattle.std.specs.Prelude.{◌≡◌, ◌++◌, ◌+◌, ◌-◌, ◌*◌, ◌%◌, ◌≤◌, ◌<◌, min, length, take, drop, unwrap_or, IfSome, MatchOption};
ghost use Rattle.io.specs.Counts.{IsPrefixLen};
ghost use Rattle.digest.specs.Digest.{generated, in_turn};
ghost use Rattle.cases.specs.Cases.{place_behind, digit_of, decimal_at, hex_byte_at, hex_from, word_bytes, valid_words, form_bytes};
ghost use Rattle.cases.specs.Parts.{Expanded};

// A count, or the length of the bytes where that is less.
pub fn within(count: usize, bytes: &[u8]) -> usize
    ensures { IsPrefixLen result bytes.now × (result ≡ min count (length bytes.now)) }
{
    count.min(bytes.len())
}

// The place behind the next mark, or the text's end.
pub fn after(s: &[u8], from: usize, mark: u8) -> usize
    requires { from ≤ length s.now }
    ensures { (from ≤ result) × (result ≤ length s.now) × (from < length s.now → from < result) × (result ≡ place_behind s.now from mark) }
{
    match s[from..].iter().position(|b| *b == mark) {
        Some(k) => from + k + 1,
        None => s.len(),
    }
}

// A decimal or hexadecimal digit's value.
#[tactic(auto, unfolding(crate::specs::Cases::digit_of))]
fn digit(b: u8) -> Option<u8>
    ensures value { unwrap_or result 16 ≡ digit_of b }
    ensures small { IfSome result (λ d. d < 16) }
{
    match b {
        b'0'..=b'9' => Some(b - b'0'),
        b'a'..=b'f' => Some(b - b'a' + 10),
        _ => None,
    }
}

// A decimal digit's value.
fn decimal_digit(b: u8) -> Option<u8>
    ensures { MatchOption result (10 ≤ digit_of b) (λ d. (d ≡ digit_of b) × (d < 10)) }
{
    digit(b).filter(|d| *d < 10)
}

// The decimal number whose digits begin at a place, kept to 32 bits.
pub fn number(s: &[u8], from: usize) -> usize
    ensures { (result ≡ decimal_at s.now from) × (result < 4294967296) }
{
    let mut value = 0;
    for byte in &s[within(from, s)..] {
        let Some(d) = decimal_digit(*byte) else {
            break;
        };
        value = (value * 10 + usize::from(d)) % 4294967296;
    }
    value
}

// The byte of the two digits at a place.
#[tactic(auto, unfolding(crate::specs::Cases::hex_byte_at, crate::specs::Cases::digit_of))]
fn pair(s: &[u8], at: usize) -> Option<u8>
    ensures value { unwrap_or result 256 ≡ hex_byte_at s.now at }
    ensures there { IfSome result (λ b. at + 1 < length s.now) }
{
    let high = digit(*s.get(at)?)?;
    let low = digit(*s.get(at + 1)?)?;
    Some(high * 16 + low)
}

// Bytes of two digits each, until no two come; their count.
fn hex(s: &[u8], from: usize, out: &mut [u8]) -> usize
    ensures { Expanded (hex_from s.now from (length out.old)) out.old out.new result }
{
    for (k, byte) in out.iter_mut().enumerate() {
        let Some(value) = pair(s, from + 2 * k) else {
            return k;
        };
        *byte = value;
    }
    out.len()
}

// A number of the generator's bytes.
fn lcg(seed: u32, count: usize, out: &mut [u8]) -> usize
    ensures { Expanded (generated seed (min count (length out.old))) out.old out.new result }
{
    let n = within(count, out);
    digest::generate(seed, &mut out[..n]);
    n
}

// A number of bytes, a word's two in turn.
fn fill(high: u8, low: u8, count: usize, out: &mut [u8]) -> usize
    ensures { Expanded (in_turn high low (min count (length out.old))) out.old out.new result }
{
    let n = within(count, out);
    digest::repeat(high, low, &mut out[..n]);
    n
}

// Puts a word at a place where it is valid and there is room for it; the place behind it.
#[tactic(auto, unfolding(crate::specs::Cases::word_bytes))]
fn put(out: &mut [u8], at: usize, room: usize, high: u8, low: u8) -> usize
    requires { (at ≤ room) × (room ≤ length out.old) }
    ensures { (result ≡ at + length (word_bytes (room - at) high low)) × (result ≤ room) × (out.new ≡ take at out.old ++ (word_bytes (room - at) high low ++ drop result out.old)) }
{
    if room - at < 2 || !word::is_valid(high, low) {
        return at;
    }
    out[at] = high;
    out[at + 1] = low;
    at + 2
}

// The generator's valid words, among 65,536, for a number of bytes: more than half of the words are valid.
fn valid(seed: u32, count: usize, out: &mut [u8]) -> usize
    ensures { Expanded (valid_words 65536 seed (min count (length out.old))) out.old out.new result }
{
    let room = within(count, out);
    let mut x = seed;
    let mut at = 0;
    for _ in 0..65536usize {
        let y = digest::next(x);
        x = digest::next(y);
        let high = digest::byte_of(u64::from(y));
        let low = digest::byte_of(u64::from(x));
        at = put(out, at, room, high, low);
    }
    at
}

// The number behind a form's second colon. A form without a count does not seek it: the next colon may be far behind.
fn count(s: &[u8], first: usize) -> usize
    requires { first ≤ length s.now }
    ensures { (result ≡ decimal_at s.now (place_behind s.now first 58)) × (result < 4294967296) }
{
    number(s, after(s, first, b':'))
}

// Expands the form at a place: hex:DIGITS, lcg:SEED:COUNT, fill:WORD:COUNT or valid:SEED:COUNT, and none for any other.
pub fn expand(s: &[u8], from: usize, out: &mut [u8]) -> usize
    requires { from ≤ length s.now }
    ensures { Expanded (form_bytes s.now from (length out.old)) out.old out.new result }
{
    let first = after(s, from, b':');
    match s.get(from).copied().unwrap_or(0) {
        b'h' => hex(s, first, out),
        b'l' => lcg(number(s, first) as u32, count(s, first), out),
        b'f' => fill(
            pair(s, first).unwrap_or(0),
            pair(s, first + 2).unwrap_or(0),
            2 * count(s, first),
            out,
        ),
        b'v' => valid(number(s, first) as u32, 2 * count(s, first), out),
        _ => 0,
    }
}
