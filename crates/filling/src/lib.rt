// The lent table filled: sweeps from the reset cell until one changes nothing.
#![tactic(auto)]

ghost use Rattle.std.specs.Prelude.{◌≡◌, [], ◌*◌, ◌≤◌, ◌<◌, length};
ghost use Rattle.machine.specs.Step.{word_count};
ghost use Rattle.facts.specs.Facts.{reset_facts};
ghost use Rattle.facts.specs.Record.{record_size, depths};
ghost use Rattle.transfer.specs.Passes.{toward, start_table, sweep_bound, least_table, sweeps_of};
ghost use Rattle.marks.specs.Marks.{Agenda};
ghost use Rattle.passing.specs.Passing.{Laid, Ready, Passed};

use cells::known::Facts;
use passing::{Reached, Tables};

// Passes what reset knows on to the first cell.
fn start(image: &[u8], table: &mut [u8], marks: &mut [u64]) -> bool
    requires { Ready image.now [] table.old marks.old }
    ensures { Passed image.now [] 0 table.old marks.old (toward (word_count image.now) 0 0 reset_facts) table.new marks.new result }
{
    let mut tables = Tables {
        image,
        asked: &image[..0],
        table,
        marks,
    };
    let reset = Reached {
        depth: 0,
        pc: 0,
        facts: Facts::reset(),
    };
    passing::pass(&mut tables, reset)
}

// Sweeps until one changes nothing. Tells how many changed the table; no range says beforehand how many.
fn sweep_all(image: &[u8], table: &mut [u8], marks: &mut [u64], hubs: &mut [u8]) -> usize
    requires { (0 < word_count image.now) × Laid image.now table.old × (table.old ≡ start_table image.now) × Agenda image.now table.old marks.old hubs.old }
    ensures { (table.new ≡ least_table image.now) × (result ≡ sweeps_of image.now) × (result ≤ sweep_bound image.now) }
{
    let mut count = 0;
    while sweeps::sweep(image, table, marks, hubs) {
        count += 1;
    }
    count
}

// Fills the table, whatever it held: the least table of the image. Tells how many sweeps changed it.
pub fn fill(image: &[u8], table: &mut [u8]) -> usize
    requires { (0 < word_count image.now) × (word_count image.now ≤ 8192) × (length table.old ≡ record_size * (depths * word_count image.now)) }
    ensures { (table.new ≡ least_table image.now) × (result ≡ sweeps_of image.now) × (result ≤ sweep_bound image.now) }
{
    table.fill(0);
    let mut marks = [0u64; marks::WORDS];
    let mut hubs = [0u8; facts::WORD_RECORDS];
    start(image, table, &mut marks);
    sweep_all(image, table, &mut marks, &mut hubs)
}
