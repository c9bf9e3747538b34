// What the programs that the gate runs share: the lines of their input and the fields of a line, what they lend, what they print, a
// count of words.
#![tactic(auto)]

ghost use Rattle.std.specs.Prelude.{◌≡◌, All, List, ℕ, ◌+◌, ◌%◌, ◌^◌, ◌≤◌, cond, length, take, drop};
ghost use Rattle.std.specs.Fn.{CalledAt};
ghost use Rattle.std.specs.List.{FoldsTo};
ghost use Rattle.cases.specs.Cases.{place_behind, decimal_at, form_bytes};
ghost use Rattle.cases.specs.Parts.{Expanded};
ghost use Rattle.digest.specs.Digest.{empty_digest, digest_of};
ghost use Rattle.harness.specs.Fields.{next_field, joined_bytes};
ghost use Rattle.harness.specs.Lines.{line_texts};
ghost use Rattle.refusal.specs.Refusal.{refusal_number};

use refusal::Refusal;
use std::marker::Model;

// Calls `case` with the text from each line on, in order.
// Not with the lines that `split` gives: a case reads on in the next line where its own has too few fields.
pub fn each_line<F: FnMut(&[u8])>(text: &[u8], mut case: F)
    requires { F.IsAlwaysCallable case }
    ensures { (last : F) × FoldsTo (λ p rest q. CalledAt F.FnMut p rest tt q) case (line_texts text.now) last }
{
    let mut rest = text;
    while !rest.is_empty() {
        case(rest);
        rest = &rest[cases::after(rest, 0, b'\n')..];
    }
}

// Calls `case` with the text from each line of standard input on, in order; how many bytes of input there were.
pub fn each_case<F: FnMut(&[u8])>(case: F) -> usize
    requires { F.IsAlwaysCallable case }
    ensures { (text : List ℕ) × (last : F) × (result ≡ length text) × FoldsTo (λ p rest q. CalledAt F.FnMut p rest tt q) case (line_texts text) last }
{
    let mut input = io::large_buffer();
    let n = io::read_full(0, &mut input);
    each_line(&input[..n], case);
    n
}

// The longest table that is lent: 144 bytes for each of 8,192 words and for one more.
pub const LONGEST_TABLE: usize = 1179792;

// Room for what is lent: a5 throughout, so that what a call leaves alone shows in the digest.
pub fn lent<const N: usize>() -> [u8; N]
    ensures { All (λ byte. byte ≡ 165) result }
{
    [0xa5; N]
}

// As much of the room as a count asks for.
pub fn part_of<'b>(room: &'b mut [u8], count: usize) -> &'b mut [u8]
    ensures { result.now ≡ take count room.old }
{
    let n = cases::within(count, room);
    &mut room[..n]
}

// The fields of a case that are left, each behind an '='; a clause sees the text from the first of them on. That is sought when it is
// read: behind an input's last field the next '=' may be far away.
#[derive(Drop)]
pub struct Fields<'a> {
    before: &'a [u8],
}

impl<'a> Model for Fields<'a> {
    ghost use Rattle.std.specs.Prelude.{List, ℕ};
    ghost use Rattle.harness.specs.Fields.{next_field};

    ghost Value = { List ℕ };

    ghost view = { λ f. next_field f.before.now };
}

impl<'a> Fields<'a> {
    // The text from the first field on; those behind it are left.
    fn first(&mut self) -> &'a [u8]
        ensures text { result.now ≡ self.old }
        ensures rest { self.new ≡ next_field self.old }
    {
        self.before = &self.before[cases::after(self.before, 0, b'=')..];
        self.before
    }

    // Expands a field into the room; the count of its bytes.
    fn expand(&mut self, room: &mut [u8]) -> usize
        ensures bytes { Expanded (form_bytes self.old 0 (length room.old)) room.old room.new result }
        ensures rest { self.new ≡ next_field self.old }
    {
        cases::expand(self.first(), 0, room)
    }

    // A field's number.
    pub fn number(&mut self) -> usize
        ensures number { result ≡ decimal_at self.old 0 }
        ensures rest { self.new ≡ next_field self.old }
    {
        cases::number(self.first(), 0)
    }

    // As much of the room as a field's number asks for.
    pub fn part<'b>(&mut self, room: &'b mut [u8]) -> &'b mut [u8]
        ensures part { result.now ≡ take (decimal_at self.old 0) room.old }
        ensures rest { self.new ≡ next_field self.old }
    {
        part_of(room, self.number())
    }

    // A field's bytes, as many as there is room for.
    pub fn bytes<'b>(&mut self, room: &'b mut [u8]) -> &'b mut [u8]
        ensures bytes { result.now ≡ form_bytes self.old 0 (length room.old) }
        ensures within { length result.now ≤ length room.old }
        ensures rest { self.new ≡ next_field self.old }
    {
        let count = self.expand(room);
        &mut room[..count]
    }

    // The bytes of two fields, one behind the other.
    pub fn joined<'b>(&mut self, room: &'b mut [u8]) -> &'b mut [u8]
        ensures bytes { result.now ≡ joined_bytes self.old (length room.old) }
        ensures within { length result.now ≤ length room.old }
        ensures rest { self.new ≡ next_field (next_field self.old) }
    {
        let first = self.expand(room);
        let next = self.expand(&mut room[first..]);
        &mut room[..first + next]
    }
}

// Prints the kind and the name that a line begins with; the fields behind them.
pub fn print_title<'a>(line: &'a [u8]) -> Fields<'a>
    ensures { result ≡ next_field (drop (place_behind line.now (place_behind line.now 0 32) 32) line.now) }
{
    let name = cases::after(line, 0, b' ');
    let end = cases::after(line, name, b' ');
    io::write_all(1, &line[..end]);
    Fields {
        before: &line[end..],
    }
}

// Prints that a call was refused, by the paper's number; that number.
pub fn print_refusal(refusal: Refusal) -> u8
    ensures { result ≡ refusal_number refusal }
{
    let number = refusal.number();
    io::write_all(1, b"answer=refused:");
    io::print_decimal(1, u64::from(number));
    number
}

// Prints a name and the digest of some bytes; that digest.
pub fn print_digest(name: &[u8], bytes: &[u8]) -> u64
    ensures { result ≡ digest_of empty_digest bytes.now }
{
    let sum = digest::add(digest::none(), bytes);
    io::write_all(1, name);
    io::print_hex(1, sum, 16);
    sum
}

// How many words were valid, how many came back equal, and the digest of what was read.
#[derive(Clone, Copy)]
pub struct Tally {
    pub valid: usize,
    pub equal: usize,
    pub sum: u64,
}

impl Tally {
    // That of no words.
    pub fn none() -> Tally
        ensures { result ≡ record { valid = 0; equal = 0; sum = empty_digest } }
    {
        Tally {
            valid: 0,
            equal: 0,
            sum: digest::none(),
        }
    }

    // That of one word more.
    pub fn with(self, valid: bool, equal: bool, bytes: &[u8]) -> Tally
        ensures valid { result.valid ≡ cond valid (self.valid + 1) self.valid % 2 ^ 64 }
        ensures equal { result.equal ≡ cond equal (self.equal + 1) self.equal % 2 ^ 64 }
        ensures sum { result.sum ≡ digest_of self.sum bytes.now }
    {
        Tally {
            valid: self.valid.wrapping_add(usize::from(valid)),
            equal: self.equal.wrapping_add(usize::from(equal)),
            sum: digest::add(self.sum, bytes),
        }
    }
}
