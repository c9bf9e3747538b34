// The access map: 128 bytes, four sets of bus addresses. Bank 0 is left, 1 is right.
#![tactic(auto)]

ghost use Rattle.std.specs.Prelude.{◌≡◌, ◌+◌, ◌≤◌, ◌<◌, IfErr};
ghost use Rattle.refusal.specs.declared.Refusal.{Refusal};
ghost use Rattle.map.specs.Map.{map_length, in_set, readable, writable, listed, count_of, counts_told, counted, counts_of, counting};
ghost use Rattle.map.specs.Ones.{number_from, ones_from};

use refusal::Refusal;

// Bytes of a map.
pub const LENGTH: usize = 128;

// How many addresses each set has.
#[derive(Clone, Copy, Debug, PartialEq, Eq)]
pub struct SetSizes {
    pub left_readable: usize,
    pub left_writable: usize,
    pub right_readable: usize,
    pub right_writable: usize,
}

// Is the address in the set, 0 to 3?
pub fn in_set(map: &[u8; LENGTH], set: usize, address: u8) -> bool
    requires { set < 4 }
    ensures { result ≡ in_set map.now set address }
{
    map[set * 32 + usize::from(address / 8)] >> (address % 8) & 1 == 1
}

// May the bank be read at the address?
pub fn readable(map: &[u8; LENGTH], bank: usize, address: u8) -> bool
    requires { bank < 2 }
    ensures { result ≡ readable map.now bank address }
{
    in_set(map, 2 * bank, address)
}

// May data be written to the bank at the address?
pub fn writable(map: &[u8; LENGTH], bank: usize, address: u8) -> bool
    requires { bank < 2 }
    ensures { result ≡ writable map.now bank address }
{
    in_set(map, 2 * bank + 1, address)
}

// Is the address in either of the bank's sets?
pub fn listed(map: &[u8; LENGTH], bank: usize, address: u8) -> bool
    requires { bank < 2 }
    ensures { result ≡ listed map.now bank address }
{
    readable(map, bank, address) | writable(map, bank, address)
}

// The eight bytes from place `at` on as one word of 64 bits, the first byte lowest. Place by place: a chunk of a slice comes as an
// Option that is never None.
#[tactic(auto, unfolding(crate::specs::Ones::number_from))]
fn word_at(map: &[u8; LENGTH], at: usize) -> u64
    requires { at + 8 ≤ map_length }
    ensures { result ≡ number_from map.now at 8 }
{
    u64::from_le_bytes([
        map[at],
        map[at + 1],
        map[at + 2],
        map[at + 3],
        map[at + 4],
        map[at + 5],
        map[at + 6],
        map[at + 7],
    ])
}

// The ones of the eight bytes from place `at` on.
fn ones_at(map: &[u8; LENGTH], at: usize) -> usize
    requires { at + 8 ≤ map_length }
    ensures { (result ≡ ones_from map.now at 8) × (result ≤ 64) }
{
    word_at(map, at).count_ones() as usize
}

// How many addresses the set has.
fn set_size(map: &[u8; LENGTH], set: usize) -> usize
    requires { (set < 4) }
    ensures { result ≡ count_of map.now set }
{
    let at = set * 32;
    ones_at(map, at) + ones_at(map, at + 8) + ones_at(map, at + 16) + ones_at(map, at + 24)
}

// How many addresses each set has.
pub fn sizes(map: &[u8; LENGTH]) -> SetSizes
    ensures { (result.left_readable ≡ count_of map.now 0) × (result.left_writable ≡ count_of map.now 1) × (result.right_readable ≡ count_of map.now 2) × (result.right_writable ≡ count_of map.now 3) }
{
    SetSizes {
        left_readable: set_size(map, 0),
        left_writable: set_size(map, 1),
        right_readable: set_size(map, 2),
        right_writable: set_size(map, 3),
    }
}

// The same, for a map of 128 bytes; another length is refused.
pub fn count(map: &[u8]) -> Result<SetSizes, Refusal>
    ensures counts { (counts_told result ≡ counted map.now) × (counts_of (counts_told result) ≡ counting map.now) }
    ensures refusal { IfErr result (λ e. e ≡ Refusal.Map) }
{
    let Ok(map) = <&[u8; LENGTH]>::try_from(map) else {
        return Err(Refusal::Map);
    };
    Ok(sizes(map))
}
