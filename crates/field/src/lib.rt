// Bytes and their fields: rotation, the field at a bit position, the merge of a field into a latch, and
// the three operations with AUX. Bit 0 is the most significant bit; a length of 0 means 8 bits.
#![tactic(auto)]

ghost use Rattle.std.specs.Prelude.{◌≡◌, ◌-◌, ◌^◌, ◌<◌};
ghost use Rattle.field.specs.Field.{rotate_right, width_of, low_bits, field_of, merge_into, sum_of, carry_of, and_of, xor_of};

// x rotated right by places.
pub fn rotate(x: u8, places: usize) -> u8
    requires { places < 8 }
    ensures { result ≡ rotate_right places x }
{
    x.rotate_right(places as u32)
}

// A byte of length ones at its low end.
fn ones(length: usize) -> u8
    requires { length < 8 }
    ensures { result ≡ 2 ^ width_of length - 1 }
{
    if length == 0 { 255 } else { (1 << length) - 1 }
}

// The low length bits of x.
pub fn low(x: u8, length: usize) -> u8
    requires { length < 8 }
    ensures { result ≡ low_bits length x }
{
    x & ones(length)
}

// The field of x whose least significant bit is at position.
#[tactic(auto, unfolding(crate::specs::Field::field_of))]
pub fn field(x: u8, position: usize, length: usize) -> u8
    requires { (position < 8) × (length < 8) }
    ensures { result ≡ field_of position length x }
{
    low(rotate(x, 7 - position), length)
}

// The latch with the low length bits of value in the place of its bits at position.
pub fn merge(latch: u8, value: u8, position: usize, length: usize) -> u8
    requires { (position < 8) × (length < 8) }
    ensures { result ≡ merge_into position length value latch }
{
    let mask = ones(length) << (7 - position);
    latch & !mask | value << (7 - position) & mask
}

// The sum kept to 8 bits.
pub fn sum(aux: u8, x: u8) -> u8
    ensures { result ≡ sum_of aux x }
{
    aux.wrapping_add(x)
}

// 1 where the sum exceeds 255, else 0.
pub fn carry(aux: u8, x: u8) -> u8
    ensures { result ≡ carry_of aux x }
{
    u8::from(255 - x < aux)
}

pub fn and(aux: u8, x: u8) -> u8
    ensures { result ≡ and_of aux x }
{
    aux & x
}

pub fn xor(aux: u8, x: u8) -> u8
    ensures { result ≡ xor_of aux x }
{
    aux ^ x
}
