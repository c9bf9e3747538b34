// Words that deliver a source to a target: MOVE, ADD, AND, XOR, XMIT.
#![tactic(auto)]

ghost use Rattle.std.specs.Prelude.{◌≡◌, List, ℕ, ◌<◌};
ghost use Rattle.machine.specs.Shape.{target_of, slot, latch, bank_of, position_of};
ghost use Rattle.machine.specs.Step.{value_of, with_overflow, may_read, word_step};
ghost use Rattle.machine.specs.Parts.{whole, outcome, act_effect, operation_number, masked_into, delivered, taken_source, delivery_source, shape_of_delivery, Ready};

use machine::act::{Argument, Delivery, Operation};
use machine::{Effect, Event, Sequencer, Stop};

// ADD alone sets OVF.
#[tactic(auto, unfolding(machine::specs::Step::with_overflow))]
fn set_overflow(op: Operation, aux: u8, x: u8, values: &mut [u8; 11])
    ensures { values.new ≡ with_overflow (operation_number op) aux x values.old }
{
    if matches!(op, Operation::Add) {
        values[state::OVERFLOW] = field::carry(aux, x);
    }
}

// An act that has gone on to PC + 1, with its trace record.
fn went(q: Sequencer, event: Event) -> Effect
    requires { q.pc < 8192 }
    ensures { result ≡ act_effect q event }
{
    Effect {
        q: Sequencer {
            pc: q.pc + 1,
            pending: None,
            depth: q.depth,
        },
        event,
    }
}

// To a register or a bus address, by its slot. The result is worked out in each arm: worked out once, before them, it takes 3
// instructions a step more (of 91, the timing image).
fn to_slot(
    map: &[u8; map::LENGTH],
    op: Operation,
    x: u8,
    k: usize,
    q: Sequencer,
    values: &mut [u8; 11],
) -> Effect
    requires { Ready q × (k < 11) }
    ensures { (l s : List ℕ) → outcome result values.new l s ≡ delivered map.now (operation_number op) x (slot k) (whole q values.old l s) }
{
    let aux = values[0];
    if k < state::ADDRESS {
        let y = machine::act::result(op, aux, x);
        set_overflow(op, aux, x, values);
        values[k] = y;
        return went(q, Event::Quiet);
    }
    let y = machine::act::result(op, aux, x);
    if !map::listed(map, k - state::ADDRESS, y) {
        return q.stopped(Stop::Unlisted);
    }
    set_overflow(op, aux, x, values);
    values[k] = y;
    went(
        q,
        Event::Address {
            bank: k - state::ADDRESS,
            address: values[k],
        },
    )
}

// To a bank: merged into its latch, which is then the byte written at its address.
fn to_latch(
    map: &[u8; map::LENGTH],
    op: Operation,
    x: u8,
    d: usize,
    l: usize,
    q: Sequencer,
    values: &mut [u8; 11],
    latches: &mut [u8; 2],
) -> Effect
    requires { Ready q × (l < 8) }
    ensures { (s : List ℕ) → outcome result values.new latches.new s ≡ delivered map.now (operation_number op) (masked_into (operation_number op) l d x) (latch (bank_of d) (position_of d) l) (whole q values.old latches.old s) }
{
    let aux = values[0];
    let bank = d / 8 % 2;
    if !map::writable(map, bank, values[state::ADDRESS + bank]) {
        return q.stopped(Stop::Unwritable);
    }
    let summand = machine::act::masked(op, x, l, d);
    let y = machine::act::result(op, aux, summand);
    set_overflow(op, aux, summand, values);
    latches[bank] = field::merge(latches[bank], y, d % 8, l);
    went(
        q,
        Event::Data {
            bank,
            address: values[state::ADDRESS + bank],
            data: latches[bank],
        },
    )
}

// Delivers the source x to the target d, of length l in a bank.
fn deliver(
    map: &[u8; map::LENGTH],
    op: Operation,
    x: u8,
    d: usize,
    l: usize,
    q: Sequencer,
    values: &mut [u8; 11],
    latches: &mut [u8; 2],
) -> Effect
    requires { Ready q × (l < 8) }
    ensures { (s : List ℕ) → outcome result values.new latches.new s ≡ delivered map.now (operation_number op) (masked_into (operation_number op) l d x) (target_of d l) (whole q values.old latches.old s) }
{
    if d < word::FIRST_BANK {
        let k = machine::act::slot_of(d);
        return to_slot(map, op, x, k, q, values);
    }
    to_latch(map, op, x, d, l, q, values, latches)
}

// Where the source is a bank: is the bank's address readable?
fn may_take(map: &[u8; map::LENGTH], values: &[u8; 11], a: Delivery) -> bool
    ensures { result ≡ may_read map.now (delivery_source a) values.now }
{
    match a.from {
        Argument::Number(s) => machine::act::may_read(map, values, s),
        Argument::Constant(_) => true,
    }
}

// The source, before ADD's mask.
fn argument(values: &[u8; 11], bus: [u8; 2], a: Delivery) -> u8
    requires { a.l < 8 }
    ensures { result ≡ value_of (taken_source a) values.now bus }
{
    match a.from {
        Argument::Number(s) => {
            let places = machine::act::places(a.l, a.d);
            machine::act::operand(values, bus, s, places, a.l)
        }
        Argument::Constant(i) => i,
    }
}

// MOVE, ADD, AND, XOR, XMIT. The values, the latches and the call stack are lent apart from the sequencer, here, in `processor` and in
// `emulator`, so that they stay in place in the loop over steps (docs/DECISIONS.md has the measured shapes).
pub fn act(
    map: &[u8; map::LENGTH],
    bus: [u8; 2],
    a: Delivery,
    q: Sequencer,
    values: &mut [u8; 11],
    latches: &mut [u8; 2],
) -> Effect
    requires { Ready q × (a.l < 8) }
    ensures { (t : List ℕ) → outcome result values.new latches.new t ≡ word_step map.now (shape_of_delivery a) bus (whole q values.old latches.old t) }
{
    if !may_take(map, values, a) {
        return q.stopped(Stop::Unreadable);
    }
    let x = argument(values, bus, a);
    deliver(map, a.op, x, a.d, a.l, q, values, latches)
}
