// The order and the join of cells, by value.
#![tactic(auto)]

ghost use Rattle.std.specs.Prelude.{◌≡◌};
ghost use Rattle.facts.specs.Facts.{knows_no_more, all_know_no_more, join_fact, join_facts};
ghost use Rattle.facts.specs.Record.{holds_cell, join_cell};

use facts::{Cell, UNKNOWN};
use std::array;

fn knows_no_more(f: u16, g: u16) -> bool
    ensures { result ≡ knows_no_more f g }
{
    (f == UNKNOWN) | (f == g)
}

fn all_know_no_more(f: [u16; 11], g: [u16; 11]) -> bool
    ensures { result ≡ all_know_no_more f g }
{
    f.iter().zip(&g).all(|(&f, &g)| knows_no_more(f, g))
}

// Does cell c hold what d passes on?
pub fn holds(c: Cell, d: Cell) -> bool
    ensures { result ≡ holds_cell c d }
{
    if !d.reached {
        return true;
    }
    if !c.reached {
        return false;
    }
    let f = c.facts;
    let g = d.facts;
    all_know_no_more(f, g)
}

// Two differing values join to unknown.
fn join_fact(f: u16, g: u16) -> u16
    ensures { result ≡ join_fact f g }
{
    if f == g { f } else { UNKNOWN }
}

fn join_facts(f: [u16; 11], g: [u16; 11]) -> [u16; 11]
    ensures { result ≡ join_facts f g }
{
    array::from_fn(|k| join_fact(f[k], g[k]))
}

// What both c and d know.
pub fn joined(c: Cell, d: Cell) -> Cell
    ensures { result ≡ join_cell c d }
{
    if !d.reached {
        return c;
    }
    if !c.reached {
        return d;
    }
    let f = c.facts;
    let g = d.facts;
    Cell {
        reached: true,
        facts: join_facts(f, g),
    }
}
