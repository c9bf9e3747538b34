// Admits each line of standard input, the inputs of an admission as docs/src/expect/admissions.txt has them, and prints a
// line with the answer, the count of sweeps and the digest of the table.
#![tactic(auto)]

use findings::Failure;
use refusal::Refusal;

fn print_verdict(answer: Result<Option<Failure>, Refusal>) {
    match answer {
        Ok(None) => {
            io::write_all(1, b"answer=admitted");
        }
        Ok(Some(failure)) => {
            io::write_all(1, b"answer=finding:");
            io::print_decimal(1, u64::from(failure.fault.number()));
            io::write_all(1, b":");
            io::print_decimal(1, failure.depth as u64);
            io::write_all(1, b":");
            io::print_decimal(1, failure.address as u64);
        }
        Err(refusal) => {
            harness::print_refusal(refusal);
        }
    }
}

// An admission whose line a text begins with: 'admission', its name, then the fields image, map, table.
fn case(line: &[u8]) {
    let mut fields = harness::print_title(line);
    let mut image = io::large_buffer();
    let image = fields.bytes(&mut image);
    let mut map = io::buffer();
    let map = fields.bytes(&mut map);
    let mut table: [u8; harness::LONGEST_TABLE] = harness::lent();
    let table = fields.part(&mut table);
    let answered = admission::admit(image, map, table);
    print_verdict(answered.answer);
    io::write_all(1, b" sweeps=");
    io::print_decimal(1, answered.sweeps as u64);
    harness::print_digest(b" table_digest=", table);
    io::write_all(1, b"\n");
}

fn main() {
    harness::each_case(case);
}
