// Texts put into lent bytes, one behind another: bytes, numbers in decimal and in octal, spaces. Digit by digit, as `decimal` and
// `octal` tell them: nothing is allocated here.
#![tactic(auto)]

ghost use Rattle.std.specs.Prelude.{◌≡◌, ◌++◌, ◌+◌, ◌-◌, ◌/◌, ◌%◌, ◌^◌, ◌≤◌, ◌<◌, length};
ghost use Rattle.text.specs.Text.{decimal, door_line, octal, spaces};
ghost use Rattle.text.specs.Parts.{Written};

// Puts a text at a place; the place behind it.
pub fn put(out: &mut [u8], at: usize, text: &[u8]) -> usize
    requires { at + length text.now ≤ length out.old }
    ensures { Written out.old at text.now out.new result }
{
    let e = at + text.len();
    out[at..e].copy_from_slice(text);
    e
}

// The byte of a digit.
fn digit(d: usize) -> u8
    requires { d < 10 }
    ensures { result ≡ 48 + d }
{
    b'0' + d as u8
}

// Puts a number below 1,000 in decimal.
fn put_decimal(out: &mut [u8], at: usize, n: usize) -> usize
    requires { (at + 3 ≤ length out.old) × (n < 1000) }
    ensures { Written out.old at (decimal n) out.new result × (result ≤ at + 3) }
{
    if n < 10 {
        return put(out, at, &[digit(n)]);
    }
    if n < 100 {
        return put(out, at, &[digit(n / 10), digit(n % 10)]);
    }
    put(
        out,
        at,
        &[digit(n / 100), digit(n / 10 % 10), digit(n % 10)],
    )
}

// A text and a number.
pub fn put_value(out: &mut [u8], at: usize, text: &[u8], n: usize) -> usize
    requires { (at + length text.now + 3 ≤ length out.old) × (n < 1000) }
    ensures { Written out.old at (text.now ++ decimal n) out.new result × (result ≤ at + length text.now + 3) }
{
    let b = put(out, at, text);
    put_decimal(out, b, n)
}

// A number of the door. Not a `Refusal`: any number below 1,000 can be put, and that type would ask more of callers.
pub fn put_door(out: &mut [u8], number: usize) -> usize
    requires { (11 ≤ length out.old) × (number < 1000) }
    ensures { Written out.old 0 (door_line number) out.new result × (result ≤ 11) }
{
    put_value(out, 0, b"refused ", number)
}

// The octal digit of weight 8^place.
fn octal_digit(value: usize, place: usize) -> u8
    requires { place < 21 }
    ensures { result ≡ 48 + value / 8 ^ place % 8 }
{
    digit((value >> (3 * place)) % 8)
}

// Fills a slice with the last octal digits of a number.
fn fill_octal(out: &mut [u8], value: usize)
    requires { length out.old ≤ 21 }
    ensures { out.new ≡ octal (length out.old) value }
{
    let n = out.len();
    for (k, byte) in out.iter_mut().enumerate() {
        *byte = octal_digit(value, n - 1 - k);
    }
}

// Puts the last octal digits of a number, with leading zeros.
pub fn put_octal(out: &mut [u8], at: usize, value: usize, digits: usize) -> usize
    requires { (at + digits ≤ length out.old) × (digits ≤ 21) }
    ensures { Written out.old at (octal digits value) out.new result }
{
    fill_octal(&mut out[at..at + digits], value);
    at + digits
}

// Puts spaces up to a place.
pub fn fill(out: &mut [u8], at: usize, to: usize) -> usize
    requires { (at ≤ to) × (to ≤ length out.old) }
    ensures { Written out.old at (spaces (to - at)) out.new result }
{
    out[at..to].fill(b' ');
    to
}
