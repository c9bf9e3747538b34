// What a word makes of facts: the fact of its source, of its result and of OVF, and the facts after it.
#![tactic(auto)]

ghost use Rattle.std.specs.Prelude.{◌≡◌, ℕ, ◌<◌, get_or};
ghost use Rattle.choice.specs.Choice.{pick};
ghost use Rattle.field.specs.Field.{rotate_right, low_bits};
ghost use Rattle.machine.specs.Shape.{source_of, target_of};
ghost use Rattle.machine.specs.Parts.{operation_number, masked_into, delivery_source};
ghost use Rattle.facts.specs.Facts.{unknown, is_known, source_fact, result_fact, carry_fact, with_carry_fact, put_fact};

use cells::known::{Fact, Facts};
use machine::act::{Argument, Delivery, Operation};

// The fact of a register rotated by places.
#[tactic(auto, using(field::proofs::Laws::low_all))]
fn rotated(f: Fact, places: usize) -> Fact
    requires { places < 8 }
    ensures { result ≡ pick (is_known f) (low_bits 0 (rotate_right places f)) unknown }
{
    match f.value() {
        Some(x) => Fact::of(field::rotate(x, places)),
        None => Fact::unknown(),
    }
}

// The fact of the source s, a register rotated by places. A bank is never known.
pub fn fact_of(facts: Facts, s: usize, places: usize) -> Fact
    requires { places < 8 }
    ensures { (l : ℕ) → result ≡ source_fact (source_of s places 0 l) facts }
{
    if s < word::FIRST_BANK {
        return rotated(facts.at(machine::act::slot_of(s)), places);
    }
    Fact::unknown()
}

// The fact of a source x as an operation with the target d takes it.
fn masked(op: Operation, x: Fact, l: usize, d: usize) -> Fact
    requires { l < 8 }
    ensures { result ≡ pick (is_known x) (masked_into (operation_number op) l d x) unknown }
{
    match x.value() {
        Some(x) => Fact::of(machine::act::masked(op, x, l, d)),
        None => Fact::unknown(),
    }
}

// The fact of an act's source: what it reads, with ADD's mask.
pub fn argument_fact(facts: Facts, a: Delivery) -> Fact
    requires { a.l < 8 }
    ensures { result ≡ source_fact (delivery_source a) facts }
{
    match a.from {
        Argument::Number(s) => {
            let taken = fact_of(facts, s, machine::act::places(a.l, a.d));
            masked(a.op, taken, a.l, a.d)
        }
        Argument::Constant(i) => Fact::of(machine::act::masked(a.op, i, a.l, a.d)),
    }
}

// The fact of a result: MOVE reads the source alone, ADD, AND and XOR read AUX too.
#[tactic(auto, unfolding(facts::specs::Facts::result_fact, machine::specs::Step::result_of))]
pub fn result_fact(op: Operation, aux: Fact, x: Fact) -> Fact
    ensures { result ≡ result_fact (operation_number op) aux x }
{
    if matches!(op, Operation::Move) {
        return x;
    }
    match (aux.value(), x.value()) {
        (Some(aux), Some(x)) => Fact::of(machine::act::result(op, aux, x)),
        _ => Fact::unknown(),
    }
}

// The fact of OVF after ADD.
#[tactic(auto, unfolding(facts::specs::Facts::carry_fact))]
pub fn carry_fact(aux: Fact, x: Fact) -> Fact
    ensures { result ≡ carry_fact aux x }
{
    match (aux.value(), x.value()) {
        (Some(aux), Some(x)) => Fact::of(field::carry(aux, x)),
        _ => Fact::unknown(),
    }
}

// ADD alone sets OVF.
#[tactic(auto, unfolding(facts::specs::Facts::with_carry_fact))]
fn with_carry_fact(op: Operation, aux: Fact, x: Fact, facts: Facts) -> Facts
    ensures { result ≡ with_carry_fact (operation_number op) aux x facts }
{
    if matches!(op, Operation::Add) {
        return facts.with(state::OVERFLOW, carry_fact(aux, x));
    }
    facts
}

// The facts after an act whose source has the fact x, with the target d. A bank's latch is no fact.
pub fn facts_after(op: Operation, x: Fact, d: usize, facts: Facts) -> Facts
    ensures { (l : ℕ) → result ≡ put_fact (target_of d l) (result_fact (operation_number op) (get_or facts 0 unknown) x) (with_carry_fact (operation_number op) (get_or facts 0 unknown) x facts) }
{
    let aux = facts.at(0);
    let after = with_carry_fact(op, aux, x, facts);
    if d < word::FIRST_BANK {
        return after.with(machine::act::slot_of(d), result_fact(op, aux, x));
    }
    after
}
