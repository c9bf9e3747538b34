// Has a record of a table that came along the layout?
#![tactic(auto)]

ghost use Rattle.std.specs.Prelude.{◌≡◌, ◌||◌, ◌/◌, ◌%◌, ◌^◌, ◌<◌, eqb};
ghost use Rattle.facts.specs.Facts.{fact_count};
ghost use Rattle.records.specs.Records.{mask_in, values_fit, reached_fits, all_zero, record_fits};

use facts::RECORD;
use state::OVERFLOW;

// Facts of a record, and the byte of the first one's value.
const FACTS: usize = 11;

const VALUES: usize = 4;

fn all_zero(b: &[u8; RECORD]) -> bool
    ensures { result ≡ all_zero b.now }
{
    b.iter().all(|&x| x == 0)
}

// Which facts are known, low byte first.
fn mask(b: &[u8; RECORD]) -> u16
    ensures { result ≡ mask_in b.now }
{
    u16::from_le_bytes([b[2], b[3]])
}

// The byte of fact k is 0 where its bit of the mask is not one.
fn value_fits(mask: u16, k: usize, value: u8) -> bool
    requires { k < fact_count }
    ensures { result ≡ (eqb (mask / 2 ^ k % 2) 1 || eqb value 0) }
{
    ((mask >> k) % 2 == 1) | (value == 0)
}

fn values_fit(b: &[u8; RECORD]) -> bool
    ensures { result ≡ values_fit b.now 0 fact_count }
{
    let m = mask(b);
    (0..FACTS).all(|k| value_fits(m, k, b[VALUES + k]))
}

// No finding, no bit of the mask above fact 10, OVF unknown, 0 or 1.
fn reached_fits(b: &[u8; RECORD]) -> bool
    ensures { result ≡ reached_fits b.now }
{
    (b[1] == 0) & (mask(b) < 2048) & values_fit(b) & (b[VALUES + OVERFLOW] < 2) & (b[15] == 0)
}

// A record; one that is not reached is all zero.
pub fn record_fits(b: &[u8; RECORD]) -> bool
    ensures { result ≡ record_fits b.now }
{
    if b[0] == 1 {
        reached_fits(b)
    } else {
        all_zero(b)
    }
}
