// The walk over all that a cell passes on: what its word passes on, or what the words that its XEC may execute do, and
// a RET's way back to the address after every call site.
#![tactic(auto)]

ghost use Rattle.std.specs.Prelude.{◌≡◌, true, false, ◌&&◌, [], ◌∷◌, ◌+◌, ◌-◌, ◌≤◌, ◌<◌, ltb, length};
ghost use Rattle.choice.specs.Choice.{pick};
ghost use Rattle.machine.specs.Step.{word_count, shape_at};
ghost use Rattle.control.specs.Pages.{page_size, defer_shape};
ghost use Rattle.forms.specs.Forms.{shape_is, FormFits};
ghost use Rattle.callers.specs.Callers.{span_is, InImage, Held};
ghost use Rattle.transfer.specs.Passes.{gives, is_call_site, page_address, can_be_executed, words_at, some, is_return, all_passes, return_passes, cell_passes};
ghost use Rattle.passing.specs.Passing.{asks, seen};
ghost use Rattle.passing.specs.Tables.{ReadyIn, PassedIn, SameLoans};
ghost use Rattle.marks.specs.Marks.{mark_words};
ghost use Rattle.walking.specs.Walking.{site_at, after_last, LastBelow};

use callers::{Asked, Values};
use cells::known::Facts;
use control::Paged;
use forms::Form;
use marks::SITE;
use passing::{Reached, Tables};

// What the word at place k of the page passes on, if the XEC w at a point may execute it.
fn pass_place(t: &mut Tables<'_>, p: &Reached, w: Paged, v: Values, k: usize) -> bool
    requires { ReadyIn t.old × (p.now.depth < 9) × InImage t.old.image.now p.now.pc × (v.low + v.count ≤ 256) × (k < page_size w.page) }
    ensures passed { PassedIn t.old p.now.depth (all_passes (word_count t.old.image.now) p.now.depth p.now.pc p.now.facts (pick (gives (page_size w.page) w.i (span_is v) k && can_be_executed t.old.image.now (page_address (page_size w.page) p.now.pc k)) (shape_at t.old.image.now (page_address (page_size w.page) p.now.pc k) ∷ []) [])) t.new result }
    ensures lent { SameLoans t.old t.new }
{
    if !callers::gives(w, v, k) {
        return false;
    }
    let a = control::in_page(w.page, p.pc, k);
    if t.image.len() / 2 <= a {
        return false;
    }
    passing::pass_word(t, p, processor::form_at(t.image, a))
}

// What the words that an XEC at a point may execute pass on.
fn pass_executed(t: &mut Tables<'_>, p: &Reached, w: Paged) -> bool
    requires { ReadyIn t.old × (p.now.depth < 9) × InImage t.old.image.now p.now.pc × (w.l < 8) }
    ensures passed { PassedIn t.old p.now.depth (all_passes (word_count t.old.image.now) p.now.depth p.now.pc p.now.facts (words_at t.old.image.now p.now.pc p.now.facts (defer_shape w))) t.new result }
    ensures lent { SameLoans t.old t.new }
{
    let v = callers::values_of(p.facts, w.s, w.l);
    let mut changed = false;
    for k in 0..w.page.size() {
        changed |= pass_place(t, p, w, v, k);
    }
    changed
}

// What all the words that the cell at a point executes pass on.
pub fn pass_words(t: &mut Tables<'_>, p: &Reached, form: Form) -> bool
    requires { ReadyIn t.old × (p.now.depth < 9) × InImage t.old.image.now p.now.pc × FormFits form }
    ensures passed { PassedIn t.old p.now.depth (all_passes (word_count t.old.image.now) p.now.depth p.now.pc p.now.facts (words_at t.old.image.now p.now.pc p.now.facts (shape_is form))) t.new result }
    ensures lent { SameLoans t.old t.new }
{
    match form {
        Form::Defer(w) => pass_executed(t, p, w),
        _ => passing::pass_word(t, p, form),
    }
}

// Is the cell at an address and depth a call site? One that is not reached is told by one byte, before the rest is called: 13 ns
// a word without (docs/RATES.md).
fn is_site(image: &[u8], asked: &[u8], depth: usize, a: usize) -> bool
    requires { Held image.now asked.now × (depth < 9) × (a < word_count image.now) }
    ensures { result ≡ is_call_site image.now asked.now depth a }
{
    if !cells::reached(asked, depth * (image.len() / 2) + a) {
        return false;
    }
    callers::is_call_site(image, asked, depth, a)
}

// The last call site of a table below address a, at a depth.
fn asked_below(image: &[u8], asked: &[u8], depth: usize, a: usize) -> Option<usize>
    requires { Held image.now asked.now × (depth < 9) × (a ≤ word_count image.now) }
    ensures { LastBelow (is_call_site image.now asked.now depth) a (after_last result) }
{
    for b in (0..a).rev() {
        if is_site(image, asked, depth, b) {
            return Some(b);
        }
    }
    None
}

// The same, of the table that is asked or of the one whose marks these are.
fn site_below(t: &Tables<'_>, depth: usize, a: usize) -> Option<usize>
    requires { ReadyIn t.now × (depth < 9) × (a ≤ word_count t.now.image.now) }
    ensures { LastBelow (site_at t.now.image.now t.now.asked.now t.now.marks.now depth) a (after_last result) }
{
    if 0 < t.asked.len() {
        return asked_below(t.image, t.asked, depth, a);
    }
    let first = SITE + depth * (t.image.len() / 2);
    bitset::last(t.marks, first, first + a).checked_sub(first + 1)
}

// RET back to a depth: to the address after every call site there, from the last on, so that a cell that changes is
// none that is still to be asked. Each site is found below the last one: no range names them.
pub fn pass_back(t: &mut Tables<'_>, depth: usize, facts: Facts) -> bool
    requires { ReadyIn t.old × (depth < 9) }
    ensures passed { PassedIn t.old depth (return_passes t.old.image.now (seen t.old.asked.now t.old.table.now) depth facts) t.new result }
    ensures lent { SameLoans t.old t.new }
{
    let mut changed = false;
    let mut end = t.image.len() / 2;
    while let Some(site) = site_below(t, depth, end) {
        let to = Reached {
            depth,
            pc: site + 1,
            facts,
        };
        changed |= passing::pass(t, to);
        end = site;
    }
    changed
}

// RET at a point, where the cell there executes one and the depth is not 0.
fn pass_returns(t: &mut Tables<'_>, p: &Reached, form: Form) -> bool
    requires { ReadyIn t.old × (p.now.depth < 9) × InImage t.old.image.now p.now.pc × FormFits form }
    ensures passed { PassedIn t.old (p.now.depth - 1) (pick (ltb 0 p.now.depth && some is_return (words_at t.old.image.now p.now.pc p.now.facts (shape_is form))) (return_passes t.old.image.now (seen t.old.asked.now t.old.table.now) (p.now.depth - 1) p.now.facts) []) t.new result }
    ensures lent { SameLoans t.old t.new }
{
    if p.depth == 0 {
        return false;
    }
    if !callers::performs(t.image, p.pc, p.facts, form, Asked::Return) {
        return false;
    }
    pass_back(t, p.depth - 1, p.facts)
}

// All that the cell at a reached point passes on.
pub fn pass_cell(t: &mut Tables<'_>, p: &Reached) -> bool
    requires { ReadyIn t.old × (p.now.depth < 9) × InImage t.old.image.now p.now.pc }
    ensures passed { PassedIn t.old (p.now.depth - 1) (cell_passes t.old.image.now (seen t.old.asked.now t.old.table.now) p.now.depth p.now.pc p.now.facts) t.new result }
    ensures lent { SameLoans t.old t.new }
{
    let form = processor::form_at(t.image, p.pc);
    let on = pass_words(t, p, form);
    let back = pass_returns(t, p, form);
    on | back
}
