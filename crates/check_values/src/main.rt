// Runs one pair for each value of "Values to hold against" and for the manual's worked examples that have numbers, and
// prints what came out beside it. State not named is as after reset, and every map bit is one.
//
// A value is named by a letter: A AUX, 1-6 R1-R6, E R11, V OVF, l and r the bus addresses, L and R the latches, p and P
// the low and high byte of PC; and in what is printed also c PC, n pending address, a the return address pushed,
// s the stop number, w the data written.
#![tactic(auto)]

// Where a named byte stands among the state's 36.
fn place_of(name: u8) -> usize {
    match name {
        b'p' => 0,
        b'P' => 1,
        b'A' => 5,
        b'1' => 6,
        b'2' => 7,
        b'3' => 8,
        b'4' => 9,
        b'5' => 10,
        b'6' => 11,
        b'E' => 12,
        b'V' => 13,
        b'l' => 14,
        b'r' => 15,
        b'L' => 16,
        b'R' => 17,
        _ => 35,
    }
}

fn byte_at(b: &[u8], at: usize) -> u8 {
    b.get(at).copied().unwrap_or(0)
}

// Sets the bytes that a list of names and values gives.
fn set(state: &mut [u8], given: &[u8]) {
    for pair in given.chunks_exact(2) {
        if let Some(byte) = state.get_mut(place_of(pair[0])) {
            *byte = pair[1];
        }
    }
}

fn item(name: &[u8], value: u64) {
    io::write_all(1, name);
    io::print_decimal(1, value);
}

// The number of two bytes, low byte first.
fn number(b: &[u8], low: usize, high: usize) -> u64 {
    u64::from(u16::from_le_bytes([byte_at(b, low), byte_at(b, high)]))
}

fn hex_item(name: &[u8], value: u8) {
    io::write_all(1, name);
    io::print_hex(1, u64::from(value), 2);
}

// The byte of the step's record at a place, named by the record's kind; a record of another kind has none.
fn recorded(trace: &[u8], at: usize, names: [(u8, &[u8]); 2], none: &[u8]) {
    for (kind, name) in names {
        if byte_at(trace, 0) == kind {
            hex_item(name, byte_at(trace, at));
            return;
        }
    }
    io::write_all(1, none);
}

fn print_one(name: u8, state: &[u8], trace: &[u8]) {
    match name {
        b'c' => item(b" PC ", number(state, 0, 1)),
        b'n' => item(b" pending ", number(state, 3, 4)),
        b'a' => item(b" pushes ", number(state, 19, 20)),
        b's' => item(b" stop ", number(state, 35, 36)),
        b'V' => item(b" OVF ", number(state, 13, 36)),
        b'A' => hex_item(b" AUX 0x", byte_at(state, 5)),
        b'6' => hex_item(b" R6 0x", byte_at(state, 11)),
        b'E' => hex_item(b" R11 0x", byte_at(state, 12)),
        b'L' => hex_item(b" left latch 0x", byte_at(state, 16)),
        b'w' => recorded(
            trace,
            2,
            [(3, b" writes 0x"), (4, b" writes right 0x")],
            b" writes nothing",
        ),
        _ => recorded(
            trace,
            1,
            [(1, b" left address 0x"), (2, b" right address 0x")],
            b" no address",
        ),
    }
}

fn print_all(asked: &[u8], state: &[u8], trace: &[u8]) {
    for name in asked {
        print_one(*name, state, trace);
    }
}

// Runs a pair on an image that has the word everywhere, and prints the line.
fn value(title: &[u8], word: [u8; 2], given: &[u8], pair: [u8; 2], asked: &[u8]) {
    io::write_all(1, title);
    io::write_all(1, b":");
    let mut image = [0; 16384];
    digest::repeat(word[0], word[1], &mut image);
    let map = [255u8; 128];
    let mut state = [0u8; 36];
    set(&mut state, given);
    let mut trace = [0u8; 8];
    let answer = running::run(&image, &map, &mut state, &pair, &mut trace);
    let Ok(end) = answer else {
        io::write_all(1, b" refused\n");
        return;
    };
    if end.count != 1 {
        io::write_all(1, b" not one step\n");
        return;
    }
    print_all(asked, &state, &trace);
    io::write_all(1, b"\n");
}

// "Values to hold against".
fn values() {
    value(b"0x0140, R1 0x96", [1, 64], b"1\x96", [0, 0], b"A");
    value(
        b"0x0975, R11 0xD8, left latch 0xEF",
        [9, 117],
        b"E\xd8L\xef",
        [0, 0],
        b"wL",
    );
    value(b"0x2000, AUX 200", [32, 0], b"A\xc8", [0, 0], b"AV");
    value(
        b"0x2993, AUX 1, R11 255, latch 0",
        [41, 147],
        b"A\x01E\xff",
        [0, 0],
        b"wLV",
    );
    value(
        b"0x9476 at PC 64, left byte 0x38",
        [148, 118],
        b"p\x40",
        [56, 0],
        b"n",
    );
    value(
        b"0xA734 at PC 3, AUX 0x12",
        [167, 52],
        b"p\x03A\x12",
        [0, 0],
        b"ca",
    );
    value(b"0xD586, latch 0xFF", [213, 134], b"L\xff", [0, 0], b"wL");
    value(b"0xD71F, latch 0xFF", [215, 31], b"L\xff", [0, 0], b"wL");
    value(b"0xD1BF, latch 0x3F", [209, 191], b"L\x3f", [0, 0], b"wL");
    value(
        b"0xA632 at PC 1108, R6 1",
        [166, 50],
        b"p\x54P\x046\x01",
        [0, 0],
        b"c",
    );
    value(b"0x0008", [0, 8], b"", [0, 0], b"s");
}

// The manual's worked examples of MOVE, each with a number for what the page leaves open.
fn acts() {
    value(
        b"MOVE RIV3, 3, R6, right byte 01010000",
        [27, 102],
        b"",
        [0, 80],
        b"6",
    );
    value(
        b"MOVE LIV2, 3, LIV5, left byte 10111111",
        [18, 117],
        b"",
        [191, 0],
        b"wL",
    );
    value(
        b"MOVE LIV4, 3, IVL, left byte 00110000",
        [20, 103],
        b"",
        [48, 0],
        b"l",
    );
    value(b"MOVE R3(0), IVR, R3 0x2B", [3, 15], b"3\x2b", [0, 0], b"l");
}

// Its worked examples of XEC, NZT, CALL, XMIT and JMP, likewise.
fn controls() {
    value(
        b"XEC 315 (R3) at PC 0x1200, R3 64, OVF 1",
        [131, 205],
        b"P\x123\x40V\x01",
        [0, 0],
        b"nV",
    );
    value(
        b"NZT R6, $32 at PC 0x1412, R6 9",
        [166, 50],
        b"p\x12P\x146\x09",
        [0, 0],
        b"c",
    );
    value(
        b"NZT LIV5, 1 at PC 64, bit 5 one",
        [181, 45],
        b"p\x40",
        [4, 0],
        b"c",
    );
    value(
        b"NZT LIV5, 1 at PC 64, bit 5 zero",
        [181, 45],
        b"p\x40",
        [251, 0],
        b"c",
    );
    value(b"CALL $34, AUX 0x12", [167, 52], b"A\x12", [0, 0], b"c");
    value(b"XMIT @377, AUX", [192, 255], b"", [0, 0], b"A");
    value(b"XMIT @53, IVL", [199, 43], b"", [0, 0], b"l");
    value(
        b"XMIT $06, LIV5, 4, latch 0xFF",
        [213, 134],
        b"L\xff",
        [0, 0],
        b"w",
    );
    value(b"JMP @512", [225, 74], b"", [0, 0], b"c");
}

fn main() {
    values();
    acts();
    controls();
}
