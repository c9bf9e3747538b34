// Facts handed on to a cell, and what one word passes on, for two uses: they are joined into a table that is being filled,
// or a table that came along is asked whether it holds them. The two tables are lent side by side, and the walk goes over
// the first unless that is empty. Both are lists for `Ready`, `Passed` and `seen`, so that neither is an Option.
#![tactic(auto)]

ghost use Rattle.std.specs.Prelude.{◌≡◌, true, false, not, [], ◌<◌};
ghost use Rattle.choice.specs.Choice.{pick};
ghost use Rattle.machine.specs.Shape.{register, go, call};
ghost use Rattle.machine.specs.Step.{word_count};
ghost use Rattle.machine.specs.Parts.{shape_of_delivery};
ghost use Rattle.control.specs.Pages.{branch_shape};
ghost use Rattle.forms.specs.Forms.{shape_is, FormFits};
ghost use Rattle.facts.specs.Record.{FineCell, holds_cell, join_cell, cell_at, put_cell};
ghost use Rattle.callers.specs.Callers.{InImage};
ghost use Rattle.transfer.specs.Passes.{point_at, toward, word_passes};
ghost use Rattle.marks.specs.Marks.{Sited, Noted};
ghost use Rattle.passing.specs.Passing.{Laid, asks, seen};
ghost use Rattle.passing.specs.Tables.{ReadyIn, PassedIn, SameLoans};

use cells::known::Facts;
use control::Paged;
use facts::Cell;
use forms::Form;
use machine::act::Delivery;

// A point of the program that is reached, and what is known there.
#[derive(Clone, Copy)]
pub struct Reached {
    pub depth: usize,
    pub pc: usize,
    pub facts: Facts,
}

// The image, the table that is asked, the one that is joined into and its marks.
#[derive(Drop)]
pub struct Tables<'a> {
    pub image: &'a [u8],
    pub asked: &'a [u8],
    pub table: &'a mut [u8],
    pub marks: &'a mut [u64],
}

// Joins d into the cell at an address and depth. Says whether that changed, and then notes it.
fn join_at(
    image: &[u8],
    table: &mut [u8],
    marks: &mut [u64],
    depth: usize,
    a: usize,
    d: Cell,
) -> bool
    requires { Laid image.now table.old × Sited image.now table.old marks.old × (depth < 9) × InImage image.now a × FineCell d }
    ensures { (table.new ≡ put_cell table.old (point_at (word_count image.now) depth a) (join_cell (cell_at table.old (point_at (word_count image.now) depth a)) d)) × (result ≡ not (holds_cell (cell_at table.old (point_at (word_count image.now) depth a)) d)) × Noted image.now table.old marks.old table.new marks.new }
{
    if !cells::join_into(table, depth * (image.len() / 2) + a, d) {
        return false;
    }
    marks::note(image, table, marks, depth, a);
    true
}

// Asks the cell of the first table whether it does not hold d; or joins d into that of the second.
fn hand_on(t: &mut Tables<'_>, depth: usize, a: usize, d: Cell) -> bool
    requires { ReadyIn t.old × (depth < 9) × InImage t.old.image.now a × FineCell d }
    ensures handed { (t.new.table.now ≡ pick (asks t.old.asked.now) t.old.table.now (put_cell t.old.table.now (point_at (word_count t.old.image.now) depth a) (join_cell (cell_at t.old.table.now (point_at (word_count t.old.image.now) depth a)) d))) × (result ≡ not (holds_cell (cell_at (seen t.old.asked.now t.old.table.now) (point_at (word_count t.old.image.now) depth a)) d)) × (asks t.old.asked.now ≡ false → Noted t.old.image.now t.old.table.now t.old.marks.now t.new.table.now t.new.marks.now) × (asks t.old.asked.now ≡ true → t.new.marks.now ≡ t.old.marks.now) }
    ensures lent { SameLoans t.old t.new }
{
    if 0 < t.asked.len() {
        return !order::holds(cells::load(t.asked, depth * (t.image.len() / 2) + a), d);
    }
    join_at(t.image, t.table, t.marks, depth, a, d)
}

// Passes facts on to a point; one at an address at or above N gets nothing. Says whether the cell did not hold them, as all
// that follow do.
pub fn pass(t: &mut Tables<'_>, to: Reached) -> bool
    requires { ReadyIn t.old × (to.depth < 9) }
    ensures passed { PassedIn t.old to.depth (toward (word_count t.old.image.now) to.depth to.pc to.facts) t.new result }
    ensures lent { SameLoans t.old t.new }
{
    if t.image.len() / 2 <= to.pc {
        return false;
    }
    hand_on(t, to.depth, to.pc, to.facts.cell())
}

// The same where a test holds, and else nothing.
pub fn pass_if(t: &mut Tables<'_>, to: Reached, test: bool) -> bool
    requires { ReadyIn t.old × (to.depth < 9) }
    ensures passed { PassedIn t.old to.depth (pick test (toward (word_count t.old.image.now) to.depth to.pc to.facts) []) t.new result }
    ensures lent { SameLoans t.old t.new }
{
    if test {
        return pass(t, to);
    }
    false
}

// MOVE, ADD, AND, XOR and XMIT.
fn pass_act(t: &mut Tables<'_>, p: &Reached, a: Delivery) -> bool
    requires { ReadyIn t.old × (p.now.depth < 9) × InImage t.old.image.now p.now.pc × (a.l < 8) }
    ensures passed { PassedIn t.old p.now.depth (word_passes (word_count t.old.image.now) p.now.depth p.now.pc p.now.facts (shape_of_delivery a)) t.new result }
    ensures lent { SameLoans t.old t.new }
{
    let x = effects::argument_fact(p.facts, a);
    let facts = effects::facts_after(a.op, x, a.d, p.facts);
    let to = Reached {
        pc: p.pc + 1,
        facts,
        ..*p
    };
    pass(t, to)
}

// NZT: on, and away.
fn pass_branch(t: &mut Tables<'_>, p: &Reached, w: Paged) -> bool
    requires { ReadyIn t.old × (p.now.depth < 9) × InImage t.old.image.now p.now.pc × (w.l < 8) }
    ensures passed { PassedIn t.old p.now.depth (word_passes (word_count t.old.image.now) p.now.depth p.now.pc p.now.facts (branch_shape w)) t.new result }
    ensures lent { SameLoans t.old t.new }
{
    let v = callers::values_of(p.facts, w.s, w.l);
    let next = Reached { pc: p.pc + 1, ..*p };
    let on = pass_if(t, next, v.low == 0);
    let pc = control::in_page(w.page, p.pc, usize::from(w.i));
    let target = Reached { pc, ..*p };
    let away = pass_if(t, target, 1 < v.low + v.count);
    on | away
}

// CALL: to every page that AUX may be, up to the last of the image.
fn pass_call(t: &mut Tables<'_>, p: &Reached, i: u8) -> bool
    requires { ReadyIn t.old × (p.now.depth < 9) }
    ensures passed { PassedIn t.old p.now.depth (word_passes (word_count t.old.image.now) p.now.depth p.now.pc p.now.facts (go (register 0 0 0) (call i))) t.new result }
    ensures lent { SameLoans t.old t.new }
{
    if p.depth == state::PLACES {
        return false;
    }
    let v = callers::values_of(p.facts, 0, 0);
    let mut changed = false;
    for n in 0..v.count {
        let pc = (v.low + n) * 256 + usize::from(i);
        if t.image.len() / 2 <= pc {
            return changed;
        }
        let to = Reached {
            depth: p.depth + 1,
            pc,
            ..*p
        };
        changed |= pass(t, to);
    }
    changed
}

// What a word that is executed at a point passes on; RET is told by walking::pass_back.
pub fn pass_word(t: &mut Tables<'_>, p: &Reached, form: Form) -> bool
    requires { ReadyIn t.old × (p.now.depth < 9) × InImage t.old.image.now p.now.pc × FormFits form }
    ensures passed { PassedIn t.old p.now.depth (word_passes (word_count t.old.image.now) p.now.depth p.now.pc p.now.facts (shape_is form)) t.new result }
    ensures lent { SameLoans t.old t.new }
{
    match form {
        Form::Act(a) => pass_act(t, p, a),
        Form::Jump { a } => pass(t, Reached { pc: a, ..*p }),
        Form::Branch(w) => pass_branch(t, p, w),
        Form::Call { i } => pass_call(t, p, i),
        Form::Defer(_) | Form::Return | Form::Invalid => false,
    }
}
