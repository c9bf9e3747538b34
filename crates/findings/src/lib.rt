// The cell questions: the finding of a cell, the first question that gets a no.
#![tactic(auto)]

ghost use Rattle.std.specs.Prelude.{◌≡◌, List, [], ◌∷◌, ◌++◌, ℕ, ◌+◌, ◌-◌, ◌≤◌, ◌<◌, ltb, get_or};
ghost use Rattle.choice.specs.Choice.{ask};
ghost use Rattle.machine.specs.Shape.{source_of, target_of, register, constant, go, call, return};
ghost use Rattle.machine.specs.Step.{word_count};
ghost use Rattle.machine.specs.Parts.{operation_number, delivery_source, shape_of_delivery};
ghost use Rattle.control.specs.Pages.{branch_shape, defer_shape};
ghost use Rattle.forms.specs.Forms.{shape_is, FormFits};
ghost use Rattle.facts.specs.Facts.{unknown, result_fact};
ghost use Rattle.callers.specs.Callers.{InImage, Held};
ghost use Rattle.transfer.specs.Passes.{is_defer, is_call_site, point_at};
ghost use Rattle.transfer.specs.Findings.{read_questions, target_questions, all_below, word_findings, executed_findings, defer_findings, finding_at};
ghost use Rattle.findings.specs.Findings.{fault_number, finding_number, Tells};
ghost use Rattle.findings.specs.Queries.{Back};

use cells::known::{Fact, Facts};
use control::Paged;
use forms::Form;
use machine::Stop;
use machine::act::{Argument, Delivery, Operation};

// What a cell fails with: a stop that may come, an address or value that is not known, an XEC that may execute an XEC;
// and for a table that came along, the layout of its record, or a next cell that does not hold what is passed on.
#[derive(Clone, Copy, PartialEq, Eq)]
pub enum Fault {
    Stop(Stop),
    Unknown,
    Executed,
    Layout,
    Unheld,
}

impl Fault {
    // The paper's number.
    pub fn number(self) -> u8
        ensures { result ≡ fault_number self }
    {
        match self {
            Fault::Stop(why) => why.number(),
            Fault::Unknown => 28,
            Fault::Executed => 29,
            Fault::Layout => 42,
            Fault::Unheld => 43,
        }
    }
}

// The cell that fails, and with what.
#[derive(Clone, Copy, PartialEq, Eq)]
pub struct Failure {
    pub fault: Fault,
    pub depth: usize,
    pub address: usize,
}

// Of what the cell questions are asked: a point of an image under a map, what is known there, and whether the address after every
// call site at the depth below is inside the code.
#[derive(Clone, Copy)]
struct Query<'a> {
    image: &'a [u8],
    map: &'a [u8; map::LENGTH],
    depth: usize,
    pc: usize,
    facts: Facts,
    back: bool,
}

// Question 2, where the source s is a bank.
fn read_finding(q: &Query<'_>, s: usize) -> Result<(), Fault>
    ensures { (places kept l : ℕ) → Tells (finding_number result) (read_questions q.now.map.now (source_of s places kept l) q.now.facts) }
{
    if s < word::FIRST_BANK {
        return Ok(());
    }
    let bank = s / 8 % 2;
    let Some(a) = q.facts.at(state::ADDRESS + bank).value() else {
        return Err(Fault::Unknown);
    };
    if !map::readable(q.map, bank, a) {
        return Err(Fault::Stop(Stop::Unreadable));
    }
    Ok(())
}

// Questions 3 and 4: the result has the fact y, the target is d.
fn target_finding(q: &Query<'_>, d: usize, y: Fact) -> Result<(), Fault>
    ensures { (l : ℕ) → Tells (finding_number result) (target_questions q.now.map.now (target_of d l) y q.now.facts) }
{
    if d < word::FIRST_BANK {
        let k = machine::act::slot_of(d);
        if k < state::ADDRESS {
            return Ok(());
        }
        let Some(y) = y.value() else {
            return Err(Fault::Unknown);
        };
        if !map::listed(q.map, k - state::ADDRESS, y) {
            return Err(Fault::Stop(Stop::Unlisted));
        }
        return Ok(());
    }
    let bank = d / 8 % 2;
    let Some(a) = q.facts.at(state::ADDRESS + bank).value() else {
        return Err(Fault::Unknown);
    };
    if !map::writable(q.map, bank, a) {
        return Err(Fault::Stop(Stop::Unwritable));
    }
    Ok(())
}

// Question 7, where one next PC is asked.
fn next_finding(image: &[u8], a: usize) -> Result<(), Fault>
    ensures { Tells (finding_number result) (ask 21 (ltb a (word_count image.now)) ∷ []) }
{
    if a < image.len() / 2 {
        Ok(())
    } else {
        Err(Fault::Stop(Stop::Outside))
    }
}

// Questions 3, 4 and 7 of a word that delivers a source with the fact x to the target d.
fn deliver_finding(q: &Query<'_>, op: Operation, x: Fact, d: usize) -> Result<(), Fault>
    requires { InImage q.now.image.now q.now.pc }
    ensures { (l : ℕ) → Tells (finding_number result) (target_questions q.now.map.now (target_of d l) (result_fact (operation_number op) (get_or q.now.facts 0 unknown) x) q.now.facts ++ (ask 21 (ltb (q.now.pc + 1) (word_count q.now.image.now)) ∷ [])) }
{
    let y = effects::result_fact(op, q.facts.at(0), x);
    target_finding(q, d, y)?;
    next_finding(q.image, q.pc + 1)
}

// Question 2 of an act; a constant is no bank.
fn argument_finding(q: &Query<'_>, a: Delivery) -> Result<(), Fault>
    ensures { Tells (finding_number result) (read_questions q.now.map.now (delivery_source a) q.now.facts) }
{
    match a.from {
        Argument::Number(s) => read_finding(q, s),
        Argument::Constant(_) => Ok(()),
    }
}

// MOVE, ADD, AND, XOR and XMIT.
fn act_finding(q: &Query<'_>, a: Delivery) -> Result<(), Fault>
    requires { InImage q.now.image.now q.now.pc × (a.l < 8) }
    ensures { (table : List ℕ) (depth : ℕ) → Tells (finding_number result) (word_findings q.now.image.now q.now.map.now table depth q.now.pc q.now.facts (shape_of_delivery a)) }
{
    argument_finding(q, a)?;
    let x = effects::argument_fact(q.facts, a);
    deliver_finding(q, a.op, x, a.d)
}

// NZT.
fn branch_finding(q: &Query<'_>, w: Paged) -> Result<(), Fault>
    requires { InImage q.now.image.now q.now.pc × (w.l < 8) }
    ensures { (table : List ℕ) (depth : ℕ) → Tells (finding_number result) (word_findings q.now.image.now q.now.map.now table depth q.now.pc q.now.facts (branch_shape w)) }
{
    read_finding(q, w.s)?;
    let words = q.image.len() / 2;
    let v = callers::values_of(q.facts, w.s, w.l);
    let on = (v.low != 0) | (q.pc + 1 < words);
    let off = (v.low + v.count < 2) | (control::in_page(w.page, q.pc, usize::from(w.i)) < words);
    if on & off {
        Ok(())
    } else {
        Err(Fault::Stop(Stop::Outside))
    }
}

// CALL.
fn call_finding(q: &Query<'_>, i: u8) -> Result<(), Fault>
    requires { InImage q.now.image.now q.now.pc }
    ensures { (map table : List ℕ) → Tells (finding_number result) (word_findings q.now.image.now map table q.now.depth q.now.pc q.now.facts (go (register 0 0 0) (call i))) }
{
    if state::PLACES <= q.depth {
        return Err(Fault::Stop(Stop::Full));
    }
    let v = callers::values_of(q.facts, 0, 0);
    if v.count != 1 {
        return Err(Fault::Unknown);
    }
    let words = q.image.len() / 2;
    if (v.low * 256 + usize::from(i) < words) & (q.pc + 1 < words) {
        Ok(())
    } else {
        Err(Fault::Stop(Stop::Outside))
    }
}

// RET: back says that the address after every call site at the depth below is inside the code.
fn return_finding(depth: usize, back: bool) -> Result<(), Fault>
    ensures { (image map table facts : List ℕ) (pc : ℕ) → back ≡ all_below (word_count image) (word_count image) (is_call_site image table (depth - 1)) → Tells (finding_number result) (word_findings image map table depth pc facts (go (constant 0) return)) }
{
    if depth == 0 {
        return Err(Fault::Stop(Stop::Empty));
    }
    if back {
        Ok(())
    } else {
        Err(Fault::Stop(Stop::Outside))
    }
}

// Questions 1 to 7 of a word that is executed at pc.
fn word_finding(q: &Query<'_>, form: Form) -> Result<(), Fault>
    requires { InImage q.now.image.now q.now.pc × FormFits form }
    ensures { (table : List ℕ) → Back q.now table → Tells (finding_number result) (word_findings q.now.image.now q.now.map.now table q.now.depth q.now.pc q.now.facts (shape_is form)) }
{
    match form {
        Form::Act(a) => act_finding(q, a),
        Form::Jump { a } => next_finding(q.image, a),
        Form::Branch(w) => branch_finding(q, w),
        Form::Defer(w) => read_finding(q, w.s),
        Form::Call { i } => call_finding(q, i),
        Form::Return => return_finding(q.depth, q.back),
        Form::Invalid => Err(Fault::Stop(Stop::Invalid)),
    }
}

fn is_xec(form: Form) -> bool
    ensures { result ≡ is_defer (shape_is form) }
{
    matches!(form, Form::Defer(_))
}

// Question 8 for one address that an XEC at pc may give.
fn executed_finding(q: &Query<'_>, a: usize) -> Result<(), Fault>
    requires { InImage q.now.image.now q.now.pc }
    ensures { (table : List ℕ) → Back q.now table → Tells (finding_number result) (executed_findings q.now.image.now q.now.map.now table q.now.depth q.now.pc q.now.facts a) }
{
    if q.image.len() / 2 <= a {
        return Err(Fault::Stop(Stop::Outside));
    }
    let Some(word) = processor::fetched_of(processor::word_at(q.image, a)) else {
        return Err(Fault::Stop(Stop::Invalid));
    };
    let form = forms::form_of(word);
    if is_xec(form) {
        return Err(Fault::Executed);
    }
    word_finding(q, form)
}

// Question 8 of an XEC.
fn xec_finding(q: &Query<'_>, w: Paged) -> Result<(), Fault>
    requires { InImage q.now.image.now q.now.pc × (w.l < 8) }
    ensures { (table : List ℕ) → Back q.now table → Tells (finding_number result) (defer_findings q.now.image.now q.now.map.now table q.now.depth q.now.pc q.now.facts (defer_shape w)) }
{
    let v = callers::values_of(q.facts, w.s, w.l);
    for k in 0..w.page.size() {
        if callers::gives(w, v, k) {
            executed_finding(q, control::in_page(w.page, q.pc, k))?;
        }
    }
    Ok(())
}

// Question 8 of a word, where it is an XEC.
fn defer_finding(q: &Query<'_>, form: Form) -> Result<(), Fault>
    requires { InImage q.now.image.now q.now.pc × FormFits form }
    ensures { (table : List ℕ) → Back q.now table → Tells (finding_number result) (defer_findings q.now.image.now q.now.map.now table q.now.depth q.now.pc q.now.facts (shape_is form)) }
{
    match form {
        Form::Defer(w) => xec_finding(q, w),
        _ => Ok(()),
    }
}

// Is the address after every call site at a depth inside the code? Of the addresses below N only the last has none
// inside the code after it.
fn returns_inside(image: &[u8], table: &[u8], depth: usize) -> bool
    requires { Held image.now table.now × (depth < 9) × (0 < word_count image.now) }
    ensures { result ≡ all_below (word_count image.now) (word_count image.now) (is_call_site image.now table.now depth) }
{
    !callers::is_call_site(image, table, depth, image.len() / 2 - 1)
}

// The depth that a RET goes back to; 0 has none below it.
fn below(depth: usize) -> usize
    ensures { result ≡ depth - 1 }
{
    depth.saturating_sub(1)
}

// The finding of a cell.
pub fn cell_finding<'a>(
    image: &'a [u8],
    map: &'a [u8; map::LENGTH],
    table: &[u8],
    depth: usize,
    pc: usize,
) -> Result<(), Fault>
    requires { Held image.now table.now × (depth < 9) × (pc < word_count image.now) }
    ensures { finding_number result ≡ finding_at image.now map.now table.now (point_at (word_count image.now) depth pc) }
{
    let i = depth * (image.len() / 2) + pc;
    if !cells::reached(table, i) {
        return Ok(());
    }
    let c = cells::load(table, i);
    let Some(word) = processor::fetched_of(processor::word_at(image, pc)) else {
        return Err(Fault::Stop(Stop::Invalid));
    };
    let form = forms::form_of(word);
    let facts = Facts::of(c);
    let q = Query {
        image,
        map,
        depth,
        pc,
        facts,
        back: returns_inside(image, table, below(depth)),
    };
    word_finding(&q, form)?;
    defer_finding(&q, form)
}
