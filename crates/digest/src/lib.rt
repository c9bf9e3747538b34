// What test programs share with the reference in another language: the FNV-1a digest of 64 bits, and the bytes of a
// linear congruential generator.
#![tactic(auto)]

ghost use Rattle.std.specs.Prelude.{◌≡◌, ◌*◌, ◌%◌, ◌<◌, length};
ghost use Rattle.digest.specs.Digest.{empty_digest, digest_byte, digest_of, next_number, number_byte, generated, in_turn};

// The digest of no bytes.
pub fn none() -> u64
    ensures { result ≡ empty_digest }
{
    14695981039346656037
}

// FNV's prime, 2^40 + 435.
const PRIME: u64 = 1099511628211;

fn add_byte(h: u64, byte: u8) -> u64
    ensures { result ≡ digest_byte h byte }
{
    (h ^ u64::from(byte)).wrapping_mul(PRIME)
}

// The digest h gone on over the bytes.
pub fn add(h: u64, bytes: &[u8]) -> u64
    ensures { result ≡ digest_of h bytes.now }
{
    let mut sum = h;
    for byte in bytes {
        sum = add_byte(sum, *byte);
    }
    sum
}

// The generator's next number.
pub fn next(x: u32) -> u32
    ensures { result ≡ next_number x }
{
    x.wrapping_mul(1103515245).wrapping_add(12345)
}

// The byte that a number of the generator gives.
pub fn byte_of(x: u64) -> u8
    ensures { result ≡ number_byte x }
{
    (x / 65536 % 256) as u8
}

// Fills a slice with the generator's bytes from a seed on.
pub fn generate(seed: u32, out: &mut [u8])
    ensures { out.new ≡ generated seed (length out.old) }
{
    let mut x = seed;
    for byte in out {
        x = next(x);
        *byte = byte_of(u64::from(x));
    }
}

// Fills a slice with a word's two bytes in turn.
pub fn repeat(high: u8, low: u8, out: &mut [u8])
    ensures { out.new ≡ in_turn high low (length out.old) }
{
    for (i, byte) in out.iter_mut().enumerate() {
        *byte = if i % 2 == 0 { high } else { low };
    }
}
