// Runs each line of standard input, the inputs of a run as docs/src/expect/runs.txt has them, and prints a line with
// the answer, the state afterwards, and the digests of state and trace.
#![tactic(auto)]

use emulator::RunEnd;
use refusal::Refusal;

fn print_end(answer: Result<RunEnd, Refusal>) {
    match answer {
        Ok(end) => {
            io::write_all(1, b"answer=ran:");
            io::print_decimal(1, end.count as u64);
            io::write_all(1, b":");
            io::print_decimal(1, end.stop as u64);
        }
        Err(refusal) => {
            harness::print_refusal(refusal);
        }
    }
}

// Two hexadecimal digits for each byte.
fn print_bytes(bytes: &[u8]) {
    for byte in bytes {
        io::print_hex(1, u64::from(*byte), 2);
    }
}

// A run whose line a text begins with: 'run', its name, then the fields image, map, state, recording, trace.
fn case(line: &[u8]) {
    let mut fields = harness::print_title(line);
    let mut image = io::large_buffer();
    let image = fields.bytes(&mut image);
    let mut map = io::buffer();
    let map = fields.bytes(&mut map);
    let mut state = io::buffer();
    let state = fields.bytes(&mut state);
    let mut recording = io::large_buffer();
    let recording = fields.bytes(&mut recording);
    let mut trace: [u8; 262144] = harness::lent();
    let trace = fields.part(&mut trace);
    print_end(running::run(image, map, state, recording, trace));
    io::write_all(1, b" state_after=");
    print_bytes(state);
    harness::print_digest(b" state_digest=", state);
    harness::print_digest(b" trace_digest=", trace);
    io::write_all(1, b"\n");
}

fn main() {
    harness::each_case(case);
}
