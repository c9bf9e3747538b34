// Reads an image from standard input, and prints its listing page or `refused 11`.
#![tactic(auto)]

fn main() {
    let mut input = io::large_buffer();
    let n = io::read_full(0, &mut input);
    let mut out = [0; 262144];
    let m = listing::print(&input[..n], &mut out);
    io::write_all(1, &out[..m]);
}
