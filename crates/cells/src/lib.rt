// Cells of the table of facts, read from and joined into the lent bytes.
#![tactic(auto)]

ghost use Rattle.std.specs.Prelude.{◌≡◌, not, ◌+◌, ◌*◌, ◌/◌, ◌%◌, ◌^◌, ◌≤◌, ◌<◌, eqb, length};
ghost use Rattle.choice.specs.Choice.{pick};
ghost use Rattle.facts.specs.Facts.{fact_count, unknown, is_known};
ghost use Rattle.facts.specs.Record.{record_size, facts_from, read_cell, cell_at, mask_of, value_byte, record_of, put_record, put_cell, FineCell, holds_cell, join_cell};
ghost use Rattle.cells.specs.Cells.{HasCell};

pub mod known;

use facts::{Cell, RECORD, UNKNOWN};
use std::array;

// Fact k of a record: its value where its bit of the mask is one.
fn fact(mask: u16, k: usize, value: u8) -> u16
    requires { k < fact_count }
    ensures { result ≡ pick (eqb (mask / 2 ^ k % 2) 1) value unknown }
{
    if (mask >> k) % 2 == 1 {
        u16::from(value)
    } else {
        UNKNOWN
    }
}

// A record of 16 bytes. Bytes 2-3: which facts are known, low byte first.
fn load_record(b: &[u8; RECORD]) -> Cell
    ensures { result ≡ read_cell b.now }
{
    let mask = u16::from_le_bytes([b[2], b[3]]);
    Cell {
        reached: b[0] == 1,
        facts: array::from_fn(|k| fact(mask, k, b[4 + k])),
    }
}

// Cell i of a table.
pub fn load(table: &[u8], i: usize) -> Cell
    requires { record_size * i + record_size ≤ length table.now }
    ensures { result ≡ cell_at table.now i }
{
    let (records, _) = table.as_chunks();
    load_record(&records[i])
}

// Is cell i of a table reached?
pub fn reached(table: &[u8], i: usize) -> bool
    requires { record_size * i + record_size ≤ length table.now }
    ensures { result ≡ (cell_at table.now i).reached }
{
    table[RECORD * i] == 1
}

fn mask_of(facts: [u16; 11]) -> u16
    ensures { result ≡ mask_of facts }
{
    let mut mask = 0;
    for (k, &f) in facts.iter().enumerate() {
        mask += u16::from(f != UNKNOWN) << k;
    }
    mask
}

// The byte of a value, 0 if unknown.
fn value_byte(f: u16) -> u8
    ensures { f ≤ unknown → result ≡ value_byte f }
{
    u8::try_from(f).unwrap_or(0)
}

// A cell's record, with the byte of its finding.
fn record_of(c: Cell, finding: u8) -> [u8; RECORD]
    requires { FineCell c }
    ensures { result ≡ record_of c finding }
{
    let mut b = [0; RECORD];
    b[0] = u8::from(c.reached);
    b[1] = finding;
    b[2..4].copy_from_slice(&mask_of(c.facts).to_le_bytes());
    b[4..15].copy_from_slice(&c.facts.map(value_byte));
    b
}

// Puts cell i with its finding into a table.
pub fn store(table: &mut [u8], i: usize, c: Cell, finding: u8)
    requires { (record_size * i + record_size ≤ length table.old) × FineCell c }
    ensures { table.new ≡ put_record table.old i (record_of c finding) }
{
    let a = RECORD * i;
    table[a..a + RECORD].copy_from_slice(&record_of(c, finding));
}

// Joins d into cell i of a table. Says whether the cell changed.
pub fn join_into(table: &mut [u8], i: usize, d: Cell) -> bool
    requires { HasCell table.old i × FineCell d }
    ensures { (table.new ≡ put_cell table.old i (join_cell (cell_at table.old i) d)) × (result ≡ not (holds_cell (cell_at table.old i) d)) }
{
    let c = load(table, i);
    if order::holds(c, d) {
        return false;
    }
    store(table, i, order::joined(c, d), 0);
    true
}
