// Makes the bench's line for each line of standard input, the map and the image as docs/src/expect/bench.txt has them.
#![tactic(auto)]

// A case whose line a text begins with: 'bench', its name, then the fields map, image.
fn case(text: &[u8]) {
    let mut fields = harness::print_title(text);
    io::write_all(1, b"line=");
    let mut input = io::large_buffer();
    let input = fields.joined(&mut input);
    let mut out = [0; 64];
    let m = line::line(input, &mut out);
    io::write_all(1, &out[..m]);
}

fn main() {
    harness::each_case(case);
}
