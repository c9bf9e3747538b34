// Which values a source may have, which words a cell executes, and which cells are call sites.
#![tactic(auto)]

ghost use Rattle.std.specs.Prelude.{◌&&◌, ◌≡◌, ◌+◌, ◌%◌, ◌≤◌, ◌<◌};
ghost use Rattle.machine.specs.Shape.{source_of};
ghost use Rattle.control.specs.Pages.{page_size, defer_shape};
ghost use Rattle.forms.specs.Forms.{shape_is, FormFits};
ghost use Rattle.machine.specs.Step.{word_count, shape_at};
ghost use Rattle.facts.specs.Facts.{span_of};
ghost use Rattle.transfer.specs.Passes.{gives, page_address, can_be_executed, is_call, is_return, some, words_at, is_call_site};
ghost use Rattle.callers.specs.Callers.{span_is, asks, InImage, Held};

use cells::known::Facts;
use control::Paged;
use forms::Form;

// The values that a source may have: count of them from low on. A Range is not Copy, and these are used at each place of a page.
#[derive(Clone, Copy)]
pub struct Values {
    pub low: usize,
    pub count: usize,
}

// The values of the source s, or of its field of length l where it is a bank.
pub fn values_of(facts: Facts, s: usize, l: usize) -> Values
    requires { l < 8 }
    ensures { (span_is result ≡ span_of (source_of s 0 0 l) facts) × (result.low + result.count ≤ 256) }
{
    if s < word::FIRST_BANK {
        return match effects::fact_of(facts, s, 0).value() {
            Some(x) => Values {
                low: usize::from(x),
                count: 1,
            },
            None => Values { low: 0, count: 256 },
        };
    }
    if l == 0 {
        return Values { low: 0, count: 256 };
    }
    Values {
        low: 0,
        count: 1 << l,
    }
}

// May an XEC whose source has the values v give the address at place k of its page?
pub fn gives(w: Paged, v: Values, k: usize) -> bool
    requires { (v.low + v.count ≤ 256) × (k < page_size w.page) }
    ensures { result ≡ gives (page_size w.page) w.i (span_is v) k }
{
    let size = w.page.size();
    let back = size - (usize::from(w.i) + v.low) % size;
    (k + back) % size < v.count
}

pub fn is_call(form: Form) -> bool
    ensures { result ≡ is_call (shape_is form) }
{
    matches!(form, Form::Call { .. })
}

pub fn is_return(form: Form) -> bool
    ensures { result ≡ is_return (shape_is form) }
{
    matches!(form, Form::Return)
}

// What is asked of a word: whether it is a CALL, or a RET.
#[derive(Clone, Copy)]
pub enum Asked {
    Call,
    Return,
}

fn is_asked(form: Form, asked: Asked) -> bool
    ensures { result ≡ asks asked (shape_is form) }
{
    match asked {
        Asked::Call => is_call(form),
        Asked::Return => is_return(form),
    }
}

// May an XEC at pc execute such a word at place k of its page? The form is told in line: by `processor::form_at` a check of N/4 returns
// takes 77 % more (docs/RATES.md). `walking` and `findings` go over the page too: what they do at a place, and when they end, differs.
fn performs_at(image: &[u8], pc: usize, w: Paged, v: Values, k: usize, asked: Asked) -> bool
    requires { InImage image.now pc × (v.low + v.count ≤ 256) × (k < page_size w.page) }
    ensures { result ≡ (gives (page_size w.page) w.i (span_is v) k && can_be_executed image.now (page_address (page_size w.page) pc k)) && asks asked (shape_at image.now (page_address (page_size w.page) pc k)) }
{
    if !gives(w, v, k) {
        return false;
    }
    let a = control::in_page(w.page, pc, k);
    if image.len() / 2 <= a {
        return false;
    }
    is_asked(forms::form_of(processor::word_at(image, a)), asked)
}

// The same at any place.
fn xec_performs(image: &[u8], pc: usize, facts: Facts, w: Paged, asked: Asked) -> bool
    requires { InImage image.now pc × (w.l < 8) }
    ensures { result ≡ some (asks asked) (words_at image.now pc facts (defer_shape w)) }
{
    let v = values_of(facts, w.s, w.l);
    (0..w.page.size()).any(|k| performs_at(image, pc, w, v, k, asked))
}

// May the cell at pc with these facts and its word execute a CALL, or a RET?
pub fn performs(image: &[u8], pc: usize, facts: Facts, form: Form, asked: Asked) -> bool
    requires { InImage image.now pc × FormFits form }
    ensures { result ≡ some (asks asked) (words_at image.now pc facts (shape_is form)) }
{
    match form {
        Form::Defer(w) => xec_performs(image, pc, facts, w, asked),
        _ => is_asked(form, asked),
    }
}

// Is the cell at an address and depth reached, and may it execute a CALL? One that is not reached is told by one byte; what is
// known there is loaded for an XEC alone.
pub fn is_call_site(image: &[u8], table: &[u8], depth: usize, a: usize) -> bool
    requires { Held image.now table.now × (depth < 9) × (a < word_count image.now) }
    ensures { result ≡ is_call_site image.now table.now depth a }
{
    let at = depth * (image.len() / 2) + a;
    if !cells::reached(table, at) {
        return false;
    }
    match forms::form_of(processor::word_at(image, a)) {
        Form::Defer(w) => xec_performs(image, a, Facts::of(cells::load(table, at)), w, Asked::Call),
        form => is_call(form),
    }
}
