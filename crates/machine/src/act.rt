// What the words that deliver read of their source, and what they make of it: MOVE, ADD, AND, XOR, XMIT.
ghost use Rattle.std.specs.Prelude.{◌≡◌, ℕ, ◌<◌, ◌%◌, min};
ghost use Rattle.machine.specs.Shape.{slot_of, source_of, places_of};
ghost use Rattle.machine.specs.Step.{value_of, result_of, may_read};
ghost use Rattle.machine.specs.Parts.{operation_number, masked_into, delivery_source};
ghost use Rattle.machine.specs.Numbers.{source_told};

// MOVE, ADD, AND, XOR. XMIT moves its constant.
#[derive(Clone, Copy, PartialEq, Eq)]
pub enum Operation {
    Move,
    Add,
    And,
    Xor,
}

impl Operation {
    // The operation of a number: from 3 on XOR.
    #[tactic(auto, unfolding(crate::specs::Step::result_of))]
    pub fn of(number: usize) -> Operation
        ensures number { operation_number result ≡ min number 3 }
        ensures result { (aux x : ℕ) → result_of (operation_number result) aux x ≡ result_of number aux x }
        ensures mask { (l d x : ℕ) → masked_into (operation_number result) l d x ≡ masked_into number l d x }
    {
        match number {
            0 => Operation::Move,
            1 => Operation::Add,
            2 => Operation::And,
            _ => Operation::Xor,
        }
    }
}

// What a delivering word reads: the register or bank of a number, or XMIT's constant.
#[derive(Clone, Copy)]
pub enum Argument {
    Number(usize),
    Constant(u8),
}

// A word that delivers a source to a target. l is the rotation of a register, or the length of a bank's field.
#[derive(Clone, Copy)]
pub struct Delivery {
    pub op: Operation,
    pub from: Argument,
    pub l: usize,
    pub d: usize,
}

impl Delivery {
    // A delivery told in numbers: where kind is 1 of the constant i, else of the register or bank s.
    pub fn of(kind: usize, op: usize, s: usize, l: usize, d: usize, i: usize) -> Delivery
        ensures fields { (operation_number result.op ≡ min op 3) × (result.l ≡ l) × (result.d ≡ d) }
        ensures source { delivery_source result ≡ source_told kind op s l d (i % 256) }
        ensures byte { i < 256 → delivery_source result ≡ source_told kind op s l d i }
    {
        Delivery {
            op: Operation::of(op),
            from: if kind == 1 {
                Argument::Constant((i % 256) as u8)
            } else {
                Argument::Number(s)
            },
            l,
            d,
        }
    }
}

// The slot of a register number among the eleven values.
#[tactic(auto, unfolding(crate::specs::Shape::slot_of))]
pub fn slot_of(r: usize) -> usize
    ensures { (result ≡ slot_of r) × (result < 11) }
{
    match r {
        0..=6 => r,
        9 => 7,
        8 => state::OVERFLOW,
        7 => state::ADDRESS,
        _ => state::ADDRESS + 1,
    }
}

// Where the source is a bank: is the bank's address readable?
pub fn may_read(map: &[u8; map::LENGTH], values: &[u8; 11], s: usize) -> bool
    ensures { (places kept l : ℕ) → result ≡ may_read map.now (source_of s places kept l) values.now }
{
    if s < word::FIRST_BANK {
        return true;
    }
    let bank = s / 8 % 2;
    map::readable(map, bank, values[state::ADDRESS + bank])
}

// The source: a register rotated by places, or a bank's field of length l.
pub fn operand(values: &[u8; 11], bus: [u8; 2], s: usize, places: usize, l: usize) -> u8
    requires { (places < 8) × (l < 8) }
    ensures { result ≡ value_of (source_of s places 0 l) values.now bus }
{
    if s < word::FIRST_BANK {
        return field::rotate(values[slot_of(s)], places);
    }
    field::field(bus[s / 8 % 2], s % 8, l)
}

// The source, or AUX with the source added, ANDed or XORed.
#[tactic(auto, unfolding(crate::specs::Step::result_of))]
pub fn result(op: Operation, aux: u8, x: u8) -> u8
    ensures { result ≡ result_of (operation_number op) aux x }
{
    match op {
        Operation::Move => x,
        Operation::Add => field::sum(aux, x),
        Operation::And => field::and(aux, x),
        Operation::Xor => field::xor(aux, x),
    }
}

// What an operation takes of its source: ADD to a bank the low bits. A bank's field has no others.
pub fn masked(op: Operation, x: u8, l: usize, d: usize) -> u8
    requires { l < 8 }
    ensures { result ≡ masked_into (operation_number op) l d x }
{
    match op {
        Operation::Add if word::FIRST_BANK <= d => field::low(x, l),
        _ => x,
    }
}

// A register is rotated on its way to a register or a bus address, and not to a bank.
pub fn places(rl: usize, d: usize) -> usize
    requires { rl < 8 }
    ensures { (result ≡ places_of rl d) × (result < 8) }
{
    if d < word::FIRST_BANK { rl } else { 0 }
}
