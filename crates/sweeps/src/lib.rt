// A sweep over the lent table: what each cell passes on is joined in at its targets. Cells that are not due are left out.
#![tactic(auto)]

ghost use Rattle.std.specs.Prelude.{◌≡◌, true, not, ◌&&◌, [], ◌-◌, ◌*◌, ◌<◌, length};
ghost use Rattle.choice.specs.Choice.{pick};
ghost use Rattle.machine.specs.Step.{word_count};
ghost use Rattle.facts.specs.Record.{depths, cell_at, holds_cell, FineCell, Layout};
ghost use Rattle.transfer.specs.Passes.{return_passes};
ghost use Rattle.marks.specs.Marks.{set_size, mark_words, is_returning, is_born, returns_at, own_passes, Sited, Hubs, Agenda};
ghost use Rattle.passing.specs.Passing.{Laid, Ready, Passed};
ghost use Rattle.sweeps.specs.Turns.{Place, Read, OneDown, Told, Begun, HubKept, Turned, TurnDone, SweepDone};

use callers::Asked;
use cells::known::Facts;
use facts::Cell;
use forms::Form;
use marks::{BORN, CHANGED, RETURNING};
use passing::{Reached, Tables};

// A cell whose turn it is: its number, depth and address, its record, and the form of its word.
#[derive(Clone, Copy)]
struct Due {
    i: usize,
    depth: usize,
    pc: usize,
    c: Cell,
    form: Form,
}

// Puts a number into a set, or takes it out: the truth of `on` is what is stored.
fn tell(set: &mut [u64], i: usize, on: bool)
    requires { i < 64 * length set.old }
    ensures { Told set.old i on set.new }
{
    if on {
        bitset::put(set, i);
    } else {
        bitset::take(set, i);
    }
}

// Does the cell return?
fn returns(image: &[u8], t: Due) -> bool
    requires { Place image.now t.i t.depth t.pc × FineCell t.c × Read image.now t.pc t.form }
    ensures { result ≡ returns_at image.now t.i t.c }
{
    if !t.c.reached {
        return false;
    }
    if t.depth == 0 {
        return false;
    }
    callers::performs(image, t.pc, Facts::of(t.c), t.form, Asked::Return)
}

// The marks as the turn begins. Says whether the cell's record changed since its last turn.
fn begin(image: &[u8], marks: &mut [u64], t: Due) -> bool
    requires { (length marks.old ≡ mark_words) × Place image.now t.i t.depth t.pc × FineCell t.c × Read image.now t.pc t.form }
    ensures { Begun image.now t.i t.c marks.old marks.new result }
{
    let i = t.i;
    bitset::take(marks, i);
    if !bitset::has(marks, CHANGED + i) {
        return false;
    }
    bitset::take(marks, CHANGED + i);
    tell(marks, RETURNING + i, returns(image, t));
    true
}

// What the cell passes on by its own record, if that changed.
fn own_turn(image: &[u8], table: &mut [u8], marks: &mut [u64], t: Due, changed: bool) -> bool
    requires { Ready image.now [] table.old marks.old × Place image.now t.i t.depth t.pc × FineCell t.c × Read image.now t.pc t.form }
    ensures { Passed image.now [] t.depth table.old marks.old (pick changed (own_passes image.now t.i t.c) []) table.new marks.new result }
{
    if !changed {
        return false;
    }
    if !t.c.reached {
        return false;
    }
    let p = Reached {
        depth: t.depth,
        pc: t.pc,
        facts: Facts::of(t.c),
    };
    let mut tables = Tables {
        image,
        asked: &image[..0],
        table,
        marks,
    };
    walking::pass_words(&mut tables, &p, t.form)
}

// Does the address after every call site at a depth hold what the hub there holds, and with it c?
fn covered(marks: &[u64], hubs: &[u8], depth: usize, c: Cell) -> bool
    requires { (length marks.now ≡ mark_words) × Layout depths hubs.now × (depth < 9) }
    ensures { result ≡ not (is_born marks.now depth) && holds_cell (cell_at hubs.now depth) c }
{
    if bitset::has(marks, BORN + depth) {
        return false;
    }
    order::holds(cells::load(hubs, depth), c)
}

// The hub of a depth after c went back there in the turn of cell i. If that cell is due again, a call site may have been
// born on the way.
fn keep_hub(marks: &mut [u64], hubs: &mut [u8], depth: usize, i: usize, c: Cell)
    requires { (length marks.old ≡ mark_words) × Layout depths hubs.old × (depth < 9) × (i < set_size) × FineCell c }
    ensures { HubKept marks.old hubs.old depth i c marks.new hubs.new }
{
    if bitset::has(marks, i) {
        return;
    }
    let born = BORN + depth;
    if bitset::has(marks, born) {
        bitset::take(marks, born);
        cells::store(hubs, depth, c, 0);
        return;
    }
    let wider = order::joined(cells::load(hubs, depth), c);
    cells::store(hubs, depth, wider, 0);
}

// RET back to a depth, joined in: no table is asked.
fn walk_back(image: &[u8], table: &mut [u8], marks: &mut [u64], depth: usize, facts: Facts) -> bool
    requires { Ready image.now [] table.old marks.old × (depth < 9) }
    ensures { Passed image.now [] depth table.old marks.old (return_passes image.now table.old depth facts) table.new marks.new result }
{
    let none = &image[..0];
    let mut tables = Tables {
        image,
        asked: none,
        table,
        marks,
    };
    walking::pass_back(&mut tables, depth, facts)
}

// The return of a cell one depth down: nothing where the hub there covers it.
fn back_to(image: &[u8], table: &mut [u8], marks: &mut [u64], hubs: &mut [u8], t: Due) -> bool
    requires { Laid image.now table.old × Sited image.now table.old marks.old × Hubs image.now table.old marks.old hubs.old × (0 < t.depth) × OneDown image.now t.i (t.depth - 1) × FineCell t.c × (is_returning marks.old t.i ≡ true) }
    ensures { Turned image.now table.old marks.old (return_passes image.now table.old (t.depth - 1) t.c.facts) table.new marks.new hubs.new result }
{
    let depth = t.depth - 1;
    let facts = Facts::of(t.c);
    let c = facts.cell();
    if covered(marks, hubs, depth, c) {
        return false;
    }
    let r = walk_back(image, table, marks, depth, facts);
    keep_hub(marks, hubs, depth, t.i, c);
    r
}

// The same where the cell returns.
fn go_back(image: &[u8], table: &mut [u8], marks: &mut [u64], hubs: &mut [u8], t: Due) -> bool
    requires { Laid image.now table.old × Sited image.now table.old marks.old × Hubs image.now table.old marks.old hubs.old × (is_returning marks.old t.i ≡ true → (0 < t.depth) × OneDown image.now t.i (t.depth - 1)) × FineCell t.c × (t.i < set_size) }
    ensures { Turned image.now table.old marks.old (pick (is_returning marks.old t.i) (return_passes image.now table.old (t.depth - 1) t.c.facts) []) table.new marks.new hubs.new result }
{
    if !bitset::has(marks, RETURNING + t.i) {
        return false;
    }
    back_to(image, table, marks, hubs, t)
}

// The turn of cell i.
fn turn(image: &[u8], table: &mut [u8], marks: &mut [u64], hubs: &mut [u8], i: usize) -> bool
    requires { Laid image.now table.old × Agenda image.now table.old marks.old hubs.old × (i < depths * word_count image.now) }
    ensures { TurnDone image.now table.old i table.new marks.new hubs.new result }
{
    let words = image.len() / 2;
    let depth = i / words;
    let pc = i % words;
    let c = cells::load(table, i);
    let form = processor::form_at(image, pc);
    let t = Due {
        i,
        depth,
        pc,
        c,
        form,
    };
    let changed = begin(image, marks, t);
    let on = own_turn(image, table, marks, t, changed);
    let back = go_back(image, table, marks, hubs, t);
    on | back
}

// The turn of every cell that is due, in order. Says whether the table changed. `next` answers `size` where no more cell is
// due (`Next`), and so the loop ends by it: a Some and a None would have to be made of that first.
pub fn sweep(image: &[u8], table: &mut [u8], marks: &mut [u64], hubs: &mut [u8]) -> bool
    requires { Laid image.now table.old × Agenda image.now table.old marks.old hubs.old }
    ensures { SweepDone image.now table.old table.new marks.new hubs.new result }
{
    let size = facts::DEPTHS * (image.len() / 2);
    let mut changed = false;
    let mut i = bitset::next(marks, 0, size);
    while i < size {
        changed |= turn(image, table, marks, hubs, i);
        i = bitset::next(marks, i + 1, size);
    }
    changed
}
