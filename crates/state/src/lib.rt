// The machine's state by value, and its 36 bytes: loaded, tested, reset.
#![tactic(auto)]

ghost use Rattle.std.specs.Prelude.{◌≡◌, ◌<◌, ◌+◌};
ghost use Rattle.state.specs.State.{state_length, stack_places, bytes_from, number_at, numbers_from, loaded, flag_fits, place_fits, stack_fits, is_stop, well_formed, reset_answer_of, reset_number, reset_number_of, reset_state};

use refusal::Refusal;

// Bytes of a state, and places of its call stack.
pub const LENGTH: usize = 36;

pub const PLACES: usize = 8;

// Among the eleven values: the slot of OVF, and of the left bus address, with the right one after it.
pub const OVERFLOW: usize = 8;

pub const ADDRESS: usize = 9;

// Values in the order of the eleven facts of a table record: AUX, R1-R6, R11, OVF, left and right bus address.
// Flag, pending address and stop are numbers: any bytes load, and `loaded` and `well_formed` speak of what they hold. The call stack has
// eight places beside its depth, as those definitions have it.
#[derive(Clone, Copy)]
pub struct State {
    pub pc: usize,
    pub flag: usize,
    pub pending: usize,
    pub values: [u8; 11],
    pub latches: [u8; 2],
    pub depth: usize,
    pub returns: [u16; PLACES],
    pub stop: usize,
}

// The number of two bytes from a place on, low byte first.
fn number_at(b: &[u8; LENGTH], at: usize) -> u16
    requires { at + 1 < state_length }
    ensures { result ≡ number_at b.now at }
{
    u16::from_le_bytes([b[at], b[at + 1]])
}

fn load_values(b: &[u8; LENGTH]) -> [u8; 11]
    ensures { result ≡ bytes_from b.now 5 11 }
{
    let mut values = [0; 11];
    values.copy_from_slice(&b[5..16]);
    values
}

fn load_returns(b: &[u8; LENGTH]) -> [u16; PLACES]
    ensures { result ≡ numbers_from b.now 19 8 }
{
    let mut returns = [0; PLACES];
    for (place, r) in returns.iter_mut().enumerate() {
        *r = number_at(b, 19 + 2 * place);
    }
    returns
}

#[tactic(auto, unfolding(crate::specs::State::loaded))]
pub fn load(b: &[u8; LENGTH]) -> State
    ensures { result ≡ loaded b.now }
{
    State {
        pc: usize::from(number_at(b, 0)),
        flag: usize::from(b[2]),
        pending: usize::from(number_at(b, 3)),
        values: load_values(b),
        latches: [b[16], b[17]],
        depth: usize::from(b[18]),
        returns: load_returns(b),
        stop: usize::from(b[35]),
    }
}

// With the flag, PC and pending address are below 8,192; without it the pending address is 0.
fn flag_fits(flag: usize, pc: usize, pending: usize) -> bool
    ensures { result ≡ flag_fits flag pc pending }
{
    if flag == 0 {
        pending == 0
    } else {
        (flag == 1) & ((pc < 8192) & (pending < 8192))
    }
}

fn place_fits(depth: usize, place: usize, r: u16) -> bool
    ensures { result ≡ place_fits depth place r }
{
    if place < depth { r <= 8192 } else { r == 0 }
}

fn stack_fits(depth: usize, returns: [u16; PLACES]) -> bool
    ensures { result ≡ stack_fits depth returns stack_places }
{
    let mut fits = true;
    for (place, r) in returns.iter().enumerate() {
        fits &= place_fits(depth, place, *r);
    }
    fits
}

fn is_stop(n: usize) -> bool
    ensures { result ≡ is_stop n }
{
    (n == 0) | (21..=27).contains(&n)
}

#[tactic(auto, unfolding(crate::specs::State::well_formed))]
pub fn well_formed(s: State) -> bool
    ensures { result ≡ well_formed s }
{
    let values = s.values;
    let returns = s.returns;
    (flag_fits(s.flag, s.pc, s.pending) & (values[OVERFLOW] < 2))
        & (((s.depth <= PLACES) & stack_fits(s.depth, returns)) & is_stop(s.stop))
}

// Makes all 36 bytes zero; a slice of another length is refused and stays as it is.
#[tactic(auto, unfolding(crate::specs::State::reset_answer_of, crate::specs::State::reset_number_of, crate::specs::State::reset_state))]
pub fn reset(bytes: &mut [u8]) -> Result<(), Refusal>
    ensures { (result ≡ reset_answer_of bytes.old) × (reset_number result ≡ reset_number_of bytes.old) × (bytes.new ≡ reset_state bytes.old) }
{
    if bytes.len() != LENGTH {
        return Err(Refusal::State);
    }
    bytes.fill(0);
    Ok(())
}
