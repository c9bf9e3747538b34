// Calls every function of `riptide`, which `riptide_c` exports, once for each line of standard input: a kind of call, a name, what is
// lent. Prints the numbers that come out in hexadecimal, and the digests of the lent bytes afterwards.
#![tactic(auto)]

use harness::{Fields, Tally};

// Writes the opcode and the fields that a number has.
fn again(n: u64) -> u64 {
    riptide::riptide_write_word(
        (n / 256 % 256) as usize,
        (n / 65536 % 65536) as usize,
        (n / 4294967296 % 65536) as usize,
        (n / 281474976710656) as usize,
    )
}

// Reads the words from first to last, and writes each again.
fn read(first: u16, last: u16) -> Tally {
    let mut t = Tally::none();
    for bits in first..=last {
        let n = riptide::riptide_read_word(bits);
        let equal = again(n) == u64::from(bits) * 256;
        t = t.with(n != 22, equal, &n.to_le_bytes());
    }
    t
}

fn print_number(n: u64) {
    io::write_all(1, b"number=");
    io::print_hex(1, n, 16);
}

// A field's number as a word.
fn bits(fields: &mut Fields) -> u16 {
    (fields.number() % 65536) as u16
}

// Each call, with the fields of its line.

fn words(mut fields: Fields) {
    let first = bits(&mut fields);
    let last = bits(&mut fields);
    let t = read(first, last);
    io::write_all(1, b"valid=");
    io::print_decimal(1, t.valid as u64);
    io::write_all(1, b" equal=");
    io::print_decimal(1, t.equal as u64);
    io::write_all(1, b" digest=");
    io::print_hex(1, t.sum, 16);
}

fn decode(mut fields: Fields) {
    print_number(riptide::riptide_read_word(bits(&mut fields)));
}

fn encode(mut fields: Fields) {
    print_number(riptide::riptide_write_word(
        fields.number(),
        fields.number(),
        fields.number(),
        fields.number(),
    ));
}

fn count(mut fields: Fields) {
    let mut map = io::buffer();
    print_number(riptide::riptide_count_sets(fields.bytes(&mut map)));
}

fn state(mut fields: Fields) {
    let mut state = io::buffer();
    let state = fields.bytes(&mut state);
    print_number(riptide::riptide_reset(state));
    harness::print_digest(b" state_digest=", state);
}

fn admit(mut fields: Fields) {
    let mut image = io::large_buffer();
    let image = fields.bytes(&mut image);
    let mut map = io::buffer();
    let map = fields.bytes(&mut map);
    let mut table: [u8; harness::LONGEST_TABLE] = harness::lent();
    let table = fields.part(&mut table);
    print_number(riptide::riptide_admit(image, map, table));
    harness::print_digest(b" table_digest=", table);
}

// The table comes along with the case, and is only read.
fn hold(mut fields: Fields) {
    let mut image = io::large_buffer();
    let image = fields.bytes(&mut image);
    let mut map = io::buffer();
    let map = fields.bytes(&mut map);
    let mut table = io::buffer();
    let table = fields.bytes(&mut table);
    print_number(riptide::riptide_check(image, map, table));
    harness::print_digest(b" table_digest=", table);
}

fn foretell(mut fields: Fields) {
    let mut image = io::large_buffer();
    print_number(riptide::riptide_foretell(fields.bytes(&mut image)));
}

fn run(mut fields: Fields) {
    let mut image = io::large_buffer();
    let image = fields.bytes(&mut image);
    let mut map = io::buffer();
    let map = fields.bytes(&mut map);
    let mut state = io::buffer();
    let state = fields.bytes(&mut state);
    let mut recording = io::large_buffer();
    let recording = fields.bytes(&mut recording);
    let mut trace: [u8; 262144] = harness::lent();
    let trace = fields.part(&mut trace);
    print_number(riptide::riptide_run(image, map, state, recording, trace));
    harness::print_digest(b" state_digest=", state);
    harness::print_digest(b" trace_digest=", trace);
}

fn list_over(image: &[u8], page: &mut [u8]) {
    print_number(riptide::riptide_list(image, page));
    harness::print_digest(b" page_digest=", page);
}

fn list(mut fields: Fields) {
    let mut image = io::large_buffer();
    let image = fields.bytes(&mut image);
    let mut page: [u8; 262176] = harness::lent();
    list_over(image, fields.part(&mut page));
}

// The words that rise from a first one.
fn rise(first: u16, image: &mut [u8]) {
    for (k, byte) in image.iter_mut().enumerate() {
        let [high, low] = first.wrapping_add((k / 2 % 65536) as u16).to_be_bytes();
        *byte = if k % 2 == 0 { high } else { low };
    }
}

// An image of 8,192 words, each the one before it and 1.
fn block(mut fields: Fields) {
    let mut image = [0; 16384];
    let mut page: [u8; 262144] = harness::lent();
    rise(bits(&mut fields), &mut image);
    list_over(&image, &mut page);
}

// The last lines of a page, without the line feed of the last one.
fn print_lines(page: &[u8], count: usize) {
    let size = cases::within(count % 65536 * 32, page);
    if size > 0 {
        io::write_all(1, &page[page.len() - size..page.len() - 1]);
    }
}

// The page is as long as the image's.
fn tail(mut fields: Fields) {
    let mut image = io::large_buffer();
    let image = fields.bytes(&mut image);
    let mut page = [0; 262176];
    let page = harness::part_of(&mut page, image.len() / 2 * 32);
    print_number(riptide::riptide_list(image, page));
    io::write_all(1, b"\n");
    print_lines(page, fields.number());
}

// A call whose line a text begins with: its kind, of which the first letter tells the call, its name, then its fields. Each call is
// named here alone.
fn case(line: &[u8]) {
    let fields = harness::print_title(line);
    match line.first().copied().unwrap_or(0) {
        b'w' => words(fields),
        b'd' => decode(fields),
        b'e' => encode(fields),
        b'c' => count(fields),
        b's' => state(fields),
        b'a' => admit(fields),
        b'h' => hold(fields),
        b'f' => foretell(fields),
        b'l' => list(fields),
        b'b' => block(fields),
        b't' => tail(fields),
        _ => run(fields),
    }
    io::write_all(1, b"\n");
}

fn main() {
    harness::each_case(case);
}
