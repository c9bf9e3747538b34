// What is known at a point that is reached: of one value, and of all eleven.

ghost use Rattle.std.specs.Prelude.{◌≡◌, true, ◌<◌, get_or, set, MatchOption};
ghost use Rattle.facts.specs.Facts.{fact_count, unknown, reset_facts};
ghost use Rattle.facts.specs.Record.{cell_of, FineCell};

use facts::{Cell, UNKNOWN};
use std::marker::Model;

// What is known of a value: a number below 256, or nothing.
#[derive(Clone, Copy)]
pub struct Fact {
    code: u16,
}

impl Model for Fact {
    ghost use Rattle.std.specs.Prelude.{ℕ, ◌≤◌};
    ghost use Rattle.facts.specs.Facts.{unknown};

    ghost Value = { ℕ };

    ghost view = { λ f. f.code };

    ghost invariant = { λ f. f.code ≤ unknown };

    ghost inverse = { λ n. record { code = n } };
}

impl Fact {
    pub fn unknown() -> Fact
        ensures { result ≡ unknown }
    {
        Fact { code: UNKNOWN }
    }

    pub fn of(x: u8) -> Fact
        ensures { result ≡ x }
    {
        Fact { code: u16::from(x) }
    }

    // The value, where it is known.
    pub fn value(self) -> Option<u8>
        ensures { MatchOption result (self ≡ unknown) (λ x. self ≡ x) }
    {
        u8::try_from(self.code).ok()
    }
}

// What is known of each of the eleven values.
#[derive(Clone, Copy)]
pub struct Facts {
    codes: [u16; 11],
}

impl Model for Facts {
    ghost use Rattle.std.specs.Prelude.{List, ℕ};

    ghost Value = { List ℕ };

    ghost use Rattle.cells.specs.Cells.{Bounded};

    ghost view = { λ f. f.codes };

    ghost invariant = { λ f. Bounded f.codes };

    ghost inverse = { λ l. record { codes = l } };
}

impl Facts {
    // Those of reset.
    pub fn reset() -> Facts
        ensures { result ≡ reset_facts }
    {
        Facts { codes: [0; 11] }
    }

    // Those of a cell.
    pub fn of(c: Cell) -> Facts
        requires { FineCell c }
        ensures { result ≡ c.facts }
    {
        let codes = c.facts;
        Facts { codes }
    }

    // The cell that is reached with them.
    pub fn cell(self) -> Cell
        ensures { (result ≡ cell_of true self) × FineCell result }
    {
        let facts = self.codes;
        Cell {
            reached: true,
            facts,
        }
    }

    pub fn at(self, k: usize) -> Fact
        requires { k < fact_count }
        ensures { result ≡ get_or self k unknown }
    {
        Fact {
            code: self.codes[k],
        }
    }

    pub fn with(self, k: usize, f: Fact) -> Facts
        requires { k < fact_count }
        ensures { result ≡ set self k f }
    {
        let mut codes = self.codes;
        codes[k] = f.code;
        Facts { codes }
    }
}
