// Words that direct PC: XEC, NZT, CALL, RET, JMP.
#![tactic(auto)]

ghost use Rattle.std.specs.Prelude.{◌≡◌, List, ℕ, ◌<◌, ◌≤◌, ◌%◌, eqb};
ghost use Rattle.choice.specs.Choice.{pick};
ghost use Rattle.state.specs.declared.State.{State};
ghost use Rattle.machine.specs.Shape.{register, constant, go, branch, call, return, source_of};
ghost use Rattle.machine.specs.Step.{in_page, word_step};
ghost use Rattle.machine.specs.Parts.{whole, outcome, go_effect, defer_effect, IsPage, Ready};
ghost use Rattle.control.specs.Pages.{page_size, branch_shape, defer_shape};

use machine::{Effect, Event, Sequencer, Stop};

// A page has 256 addresses, or 32 for a word that reads a bank.
#[derive(Clone, Copy, PartialEq, Eq)]
pub enum Page {
    Long,
    Short,
}

impl Page {
    // The page of so many addresses: the long one, or else the short.
    pub fn of(size: usize) -> Page
        ensures { (page_size result ≡ pick (eqb size 256) 256 32) × (IsPage size → page_size result ≡ size) }
    {
        if size == 256 { Page::Long } else { Page::Short }
    }

    // Its addresses.
    pub fn size(self) -> usize
        ensures { (result ≡ page_size self) × (0 < result) × (result ≤ 256) }
    {
        match self {
            Page::Long => 256,
            Page::Short => 32,
        }
    }
}

// What XEC and NZT have: the source's number, the length of a bank's field, the page, the constant.
#[derive(Clone, Copy)]
pub struct Paged {
    pub s: usize,
    pub l: usize,
    pub page: Page,
    pub i: u8,
}

impl Paged {
    // The same told in numbers. Of an NZT's constant the low byte counts alone, since no page has more addresses.
    pub fn of(s: usize, l: usize, page: usize, i: usize) -> Paged
        ensures fields { (result.s ≡ s) × (result.l ≡ l) × (page_size result.page ≡ pick (eqb page 256) 256 32) × (result.i ≡ i % 256) }
        ensures branch { IsPage page → (map bus : List ℕ) (q : State) → word_step map (branch_shape result) bus q ≡ word_step map (go (source_of s 0 0 l) (branch page i)) bus q }
    {
        Paged {
            s,
            l,
            page: Page::of(page),
            i: (i % 256) as u8,
        }
    }
}

// On at another PC; nothing is pending.
pub fn go_to(pc: usize, depth: usize) -> Effect
    ensures { result ≡ go_effect pc depth }
{
    Effect {
        q: Sequencer {
            pc,
            pending: None,
            depth,
        },
        event: Event::Quiet,
    }
}

// The word at another address is executed next, at this PC.
fn defer_to(q: Sequencer, at: usize) -> Effect
    ensures { result ≡ defer_effect q at }
{
    Effect {
        q: Sequencer {
            pending: Some(at),
            ..q
        },
        event: Event::Quiet,
    }
}

// PC with x, kept to the page's width, in the place of its low bits.
pub fn in_page(page: Page, pc: usize, x: usize) -> usize
    requires { pc < 8192 }
    ensures { result ≡ in_page (page_size page) pc x }
{
    let size = page.size();
    pc / size * size + x % size
}

// XEC of a register or of a bank's field.
pub fn xec(
    map: &[u8; map::LENGTH],
    bus: [u8; 2],
    w: Paged,
    q: Sequencer,
    values: &[u8; 11],
) -> Effect
    requires { Ready q × (w.l < 8) }
    ensures { (a b : List ℕ) → outcome result values.now a b ≡ word_step map.now (defer_shape w) bus (whole q values.now a b) }
{
    if !machine::act::may_read(map, values, w.s) {
        return q.stopped(Stop::Unreadable);
    }
    let x = usize::from(machine::act::operand(values, bus, w.s, 0, w.l));
    defer_to(q, in_page(w.page, q.pc, usize::from(w.i) + x))
}

// NZT of a register or of a bank's field.
pub fn nzt(
    map: &[u8; map::LENGTH],
    bus: [u8; 2],
    w: Paged,
    q: Sequencer,
    values: &[u8; 11],
) -> Effect
    requires { Ready q × (w.l < 8) }
    ensures { (a b : List ℕ) → outcome result values.now a b ≡ word_step map.now (branch_shape w) bus (whole q values.now a b) }
{
    if !machine::act::may_read(map, values, w.s) {
        return q.stopped(Stop::Unreadable);
    }
    let x = machine::act::operand(values, bus, w.s, 0, w.l);
    if x == 0 {
        return go_to(q.pc + 1, q.depth);
    }
    go_to(in_page(w.page, q.pc, usize::from(w.i)), q.depth)
}

// CALL: the page is AUX.
pub fn call(i: u8, q: Sequencer, values: &[u8; 11], returns: &mut [u16; 8]) -> Effect
    requires { (q.pc < 8192) × (q.depth ≤ 8) }
    ensures { (map bus l : List ℕ) → outcome result values.now l returns.new ≡ word_step map (go (register 0 0 0) (call i)) bus (whole q values.now l returns.old) }
{
    let depth = q.depth;
    if depth == state::PLACES {
        return q.stopped(Stop::Full);
    }
    returns[depth] = (q.pc + 1) as u16;
    go_to(usize::from(values[0]) * 256 + usize::from(i), depth + 1)
}

// RET: pops into PC and zeroes the popped place.
pub fn ret(q: Sequencer, returns: &mut [u16; 8]) -> Effect
    requires { q.depth ≤ 8 }
    ensures { (map bus v l : List ℕ) → outcome result v l returns.new ≡ word_step map (go (constant 0) return) bus (whole q v l returns.old) }
{
    let depth = q.depth;
    if depth == 0 {
        return q.stopped(Stop::Empty);
    }
    let at = depth - 1;
    let pc = usize::from(returns[at]);
    returns[at] = 0;
    go_to(pc, at)
}
