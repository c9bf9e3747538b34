// The marks of a table that is being filled: which cells are due, and what makes them so.
#![tactic(auto)]

ghost use Rattle.std.specs.Prelude.{◌≡◌, ◌*◌, ◌≤◌, ◌<◌, length};
ghost use Rattle.machine.specs.Step.{word_count};
ghost use Rattle.callers.specs.Callers.{Held};
ghost use Rattle.marks.specs.Marks.{set_size, mark_words, Birth, Marked};

// Cells of a set, and where the sets lie after that of the cells that are due.
pub const CELLS: usize = 73728;

pub const CHANGED: usize = CELLS;

pub const RETURNING: usize = 147456;

pub const SITE: usize = 221184;

pub const BORN: usize = 294912;

// Words of the marks; those of one set.
pub const WORDS: usize = 4609;

const SET_WORDS: usize = 1152;

// Cell i has become a call site: it is noted for its depth, and the returning cells one depth down are due.
fn birth(marks: &mut [u64], words: usize, depth: usize, i: usize)
    requires { (length marks.old ≡ mark_words) × (words ≤ 8192) × (depth < 9) × (i < set_size) }
    ensures { Birth words marks.old depth i marks.new }
{
    bitset::put(marks, SITE + i);
    bitset::put(marks, BORN + depth);
    if depth < 8 {
        let from = (depth + 1) * words / 64;
        let end = ((depth + 2) * words + 63) / 64;
        bitset::unite(marks, from, 2 * SET_WORDS, end - from);
    }
}

// The record of the cell at an address and depth has changed, and this is the table now.
pub fn note(image: &[u8], table: &[u8], marks: &mut [u64], depth: usize, a: usize)
    requires { Held image.now table.now × (length marks.old ≡ mark_words) × (depth < 9) × (a < word_count image.now) }
    ensures { Marked image.now table.now marks.old depth a marks.new }
{
    let words = image.len() / 2;
    let i = depth * words + a;
    bitset::put(marks, i);
    bitset::put(marks, CHANGED + i);
    if bitset::has(marks, SITE + i) {
        return;
    }
    if callers::is_call_site(image, table, depth, a) {
        birth(marks, words, depth, i);
    }
}
