// The bench: reads the map and then the image from standard input, and prints one line.
#![tactic(auto)]

fn main() {
    let mut input = io::large_buffer();
    let n = io::read_full(0, &mut input);
    let mut out = [0; 64];
    let m = line::line(&input[..n], &mut out);
    io::write_all(1, &out[..m]);
}
