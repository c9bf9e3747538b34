// Admission: a program is read before it runs. Fills the lent table of facts and answers.
#![tactic(auto)]

ghost use Rattle.std.specs.Prelude.{◌≡◌, ◌*◌, ◌≤◌, ◌<◌, Some, Ok, Err, IfOk, IfSome, MatchOption};
ghost use Rattle.choice.specs.Choice.{first_no};
ghost use Rattle.machine.specs.Step.{word_count};
ghost use Rattle.facts.specs.Record.{depths, record_of, cell_at, put_record};
ghost use Rattle.transfer.specs.Passes.{point_at, sweep_bound};
ghost use Rattle.transfer.specs.Findings.{finding_at};
ghost use Rattle.callers.specs.Callers.{Held};
ghost use Rattle.findings.specs.Findings.{finding_number, failing};
ghost use Rattle.admission.specs.Admission.{admit_told, door_number, admit_questions, with_findings, verdict_of, resulting, admit_result};

use findings::{Failure, Fault};
use refusal::Refusal;

// What admission answers: none where the program is admitted, or the cell with a finding that has the lowest depth, and
// among those the lowest address; or a refusal at the door. Beside it the count of sweeps that changed the table.
#[derive(Clone, Copy, PartialEq, Eq)]
pub struct Answered {
    pub answer: Result<Option<Failure>, Refusal>,
    pub sweeps: usize,
}

// The byte of a cell's finding, 0 where it has none.
fn finding_byte(found: Result<(), Fault>) -> u8
    ensures { result ≡ finding_number found }
{
    match found {
        Ok(()) => 0,
        Err(fault) => fault.number(),
    }
}

// The cell and what it fails with, if it does.
fn failure(found: Result<(), Fault>, depth: usize, address: usize) -> Option<Failure>
    ensures number { failing result ≡ finding_number found }
    ensures cell { IfSome result (λ f. (f.depth ≡ depth) × (f.address ≡ address)) }
{
    match found {
        Ok(()) => None,
        Err(fault) => Some(Failure {
            fault,
            depth,
            address,
        }),
    }
}

// Writes the finding of a cell into its record, and tells it.
fn mark_cell(
    image: &[u8],
    map: &[u8; map::LENGTH],
    table: &mut [u8],
    depth: usize,
    pc: usize,
) -> Option<Failure>
    requires { Held image.now table.old × (depth < 9) × (pc < word_count image.now) }
    ensures number { failing result ≡ finding_at image.now map.now table.old (point_at (word_count image.now) depth pc) }
    ensures cell { IfSome result (λ f. (f.depth ≡ depth) × (f.address ≡ pc)) }
    ensures table { table.new ≡ put_record table.old (point_at (word_count image.now) depth pc) (record_of (cell_at table.old (point_at (word_count image.now) depth pc)) (failing result)) }
{
    let found = findings::cell_finding(image, map, table, depth, pc);
    let i = depth * (image.len() / 2) + pc;
    let c = cells::load(table, i);
    cells::store(table, i, c, finding_byte(found));
    failure(found, depth, pc)
}

// What is told after one cell more, in the table's order: what was told before it stays.
fn keep_lower(before: Option<Failure>, found: Option<Failure>) -> Option<Failure>
    ensures { MatchOption before (result ≡ found) (λ b. result ≡ Some b) }
{
    match before {
        None => found,
        Some(_) => before,
    }
}

// Writes the finding of every cell, and tells the first.
fn mark(image: &[u8], map: &[u8; map::LENGTH], table: &mut [u8]) -> Option<Failure>
    requires { Held image.now table.old × (0 < word_count image.now) }
    ensures { (admit_told (Ok result) ≡ verdict_of image.now map.now table.old) × (table.new ≡ with_findings image.now map.now table.old table.old 0 (depths * word_count image.now)) }
{
    let words = image.len() / 2;
    let mut first = None;
    for depth in 0..facts::DEPTHS {
        for address in 0..words {
            let found = mark_cell(image, map, table, depth, address);
            first = keep_lower(first, found);
        }
    }
    first
}

// Questions 11, 12 and 13: the refusal is that of the first that gets a no; with none, the map.
pub fn door<'a>(image: &[u8], map: &'a [u8], table: &[u8]) -> Result<&'a [u8; map::LENGTH], Refusal>
    ensures number { door_number result ≡ first_no (admit_questions image.now map.now table.now) }
    ensures map { IfOk result (λ m. m.now ≡ map.now) }
{
    if !emulator::image_fits(image) {
        return Err(Refusal::Image);
    }
    let Ok(map) = <&[u8; map::LENGTH]>::try_from(map) else {
        return Err(Refusal::Map);
    };
    if table.len() != image.len() / 2 * facts::WORD_RECORDS {
        return Err(Refusal::Table);
    }
    Ok(map)
}

// A refusal at the door: no sweep was made.
fn refused(refusal: Refusal) -> Answered
    ensures { result ≡ record { answer = Err refusal; sweeps = 0 } }
{
    Answered {
        answer: Err(refusal),
        sweeps: 0,
    }
}

// Reads an image under a map, and fills the table of facts, whatever it held. Answers admitted, or the lowest finding, which
// Lowest.antt tells, and counts the sweeps; or a refusal, 11, 12 or 13, and then no byte changes and the count is 0.
#[tactic(auto, using(crate::proofs::Opening::yields))]
pub fn admit(image: &[u8], map: &[u8], table: &mut [u8]) -> Answered
    ensures { (resulting (admit_told result.answer) result.sweeps table.new ≡ admit_result image.now map.now table.old) × (result.sweeps ≤ sweep_bound image.now) }
{
    let map = match door(image, map, table) {
        Ok(map) => map,
        Err(refusal) => return refused(refusal),
    };
    let sweeps = filling::fill(image, table);
    let first = mark(image, map, table);
    Answered {
        answer: Ok(first),
        sweeps,
    }
}
