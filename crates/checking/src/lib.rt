// A table that came along with an image and a map, checked in one pass over its cells. Nothing is written.
#![tactic(auto)]

ghost use Rattle.std.specs.Prelude.{◌≡◌, true, ℕ, ◌*◌, ◌≤◌, ◌<◌, length, MatchOption};
ghost use Rattle.machine.specs.Step.{word_count};
ghost use Rattle.emulator.specs.Run.{image_fits};
ghost use Rattle.facts.specs.Record.{record_size};
ghost use Rattle.callers.specs.Callers.{InImage};
ghost use Rattle.passing.specs.Passing.{Laid};
ghost use Rattle.transfer.specs.Passes.{point_at, table_length};
ghost use Rattle.transfer.specs.Findings.{first_of};
ghost use Rattle.checking.specs.Check.{layout_at, start_held, fault_at, in_order, judged, judged_as, check_told, answering, check_result};
ghost use Rattle.checking.specs.Check.{Accepted};
ghost use Rattle.findings.specs.Findings.{finding_number};

use cells::known::Facts;
use findings::{Failure, Fault};
use passing::{Reached, Tables};
use refusal::Refusal;

// The first record that has another layout.
fn first_unfit(table: &[u8]) -> Option<usize>
    ensures { (count : ℕ) → length table.now ≡ record_size * count → MatchOption result (first_of (layout_at table.now) 0 count ≡ count) (λ i. (i < count) × (i ≡ first_of (layout_at table.now) 0 count)) }
{
    let (records, _) = table.as_chunks();
    records.iter().position(|b| !records::record_fits(b))
}

// Is cell (0, 0) reached with at most the reset facts?
fn starts(table: &[u8]) -> bool
    requires { record_size ≤ length table.now }
    ensures { result ≡ start_held table.now }
{
    order::holds(cells::load(table, 0), Facts::reset().cell())
}

// What a cell fails with: its finding, or else that a next cell does not hold what it passes on.
fn cell_fault(
    image: &[u8],
    map: &[u8; map::LENGTH],
    table: &[u8],
    depth: usize,
    pc: usize,
) -> Result<(), Fault>
    requires { Laid image.now table.now × (depth < 9) × InImage image.now pc }
    ensures { finding_number result ≡ fault_at image.now map.now table.now (point_at (word_count image.now) depth pc) }
{
    let i = depth * (image.len() / 2) + pc;
    if !cells::reached(table, i) {
        return Ok(());
    }
    findings::cell_finding(image, map, table, depth, pc)?;
    let c = cells::load(table, i);
    let facts = Facts::of(c);
    let mut none = [0; 0];
    let mut unmarked = [0; 0];
    let mut asked = Tables {
        image,
        asked: table,
        table: &mut none,
        marks: &mut unmarked,
    };
    if walking::pass_cell(&mut asked, &Reached { depth, pc, facts }) {
        return Err(Fault::Unheld);
    }
    Ok(())
}

// The first cell in table order that fails.
fn settle(image: &[u8], map: &[u8; map::LENGTH], table: &[u8]) -> Option<Failure>
    requires { Laid image.now table.now × (0 < word_count image.now) }
    ensures { judged_as result ≡ in_order image.now (fault_at image.now map.now table.now) Accepted }
{
    let words = image.len() / 2;
    for depth in 0..facts::DEPTHS {
        for address in 0..words {
            if let Err(fault) = cell_fault(image, map, table, depth, address) {
                return Some(Failure {
                    fault,
                    depth,
                    address,
                });
            }
        }
    }
    None
}

// Past the door: the layout of all records, then the start, then the cells.
fn judge(image: &[u8], map: &[u8; map::LENGTH], table: &[u8]) -> Option<Failure>
    requires { (image_fits image.now ≡ true) × (length table.now ≡ table_length image.now) }
    ensures { judged_as result ≡ judged image.now map.now table.now }
{
    let words = image.len() / 2;
    if let Some(i) = first_unfit(table) {
        return Some(Failure {
            fault: Fault::Layout,
            depth: i / words,
            address: i % words,
        });
    }
    if !starts(table) {
        return Some(Failure {
            fault: Fault::Unheld,
            depth: 0,
            address: 0,
        });
    }
    settle(image, map, table)
}

// Answers none where the table is accepted, or the first cell that fails and with what; or a refusal, 11, 12 or 13.
pub fn check(image: &[u8], map: &[u8], table: &[u8]) -> Result<Option<Failure>, Refusal>
    ensures { answering (check_told result) ≡ check_result image.now map.now table.now }
{
    let map = admission::door(image, map, table)?;
    Ok(judge(image, map, table))
}
