// Each answer as one number, for C and Rust; those of words are in `numbers`.
#![tactic(auto)]

ghost use Rattle.std.specs.Prelude.{◌≡◌, ◌<◌, ◌≤◌};
ghost use Rattle.map.specs.Map.{counts_told};
ghost use Rattle.emulator.specs.Run.{run_told};
ghost use Rattle.findings.specs.Findings.{fault_number};
ghost use Rattle.admission.specs.Admission.{admit_told};
ghost use Rattle.checking.specs.Check.{check_told};
ghost use Rattle.foretell.specs.Foretell.{foretold_as};
ghost use Rattle.answers.specs.Numbers.{sets_number, count_number, found_number, verdict_number, admit_number, check_number, foretell_number, run_number};
ghost use Rattle.answers.specs.Fits.{CountsFit, CellFits, VerdictFits, CheckFits, ForetoldFits};

use admission::Answered;
use emulator::RunEnd;
use findings::Failure;
use foretell::Forecast;
use map::SetSizes;
use refusal::Refusal;

// Four counts, each at its place of a number.
fn sets(a: usize, b: usize, c: usize, d: usize) -> u64
    requires { (a ≤ 256) × (b ≤ 256) × (c ≤ 256) × (d ≤ 256) }
    ensures { result ≡ sets_number a b c d }
{
    a as u64 * 256 + b as u64 * 1048576 + c as u64 * 4294967296 + d as u64 * 17592186044416
}

// The counts of the four sets at bits 8, 20, 32 and 44; or 12.
pub fn count_number(counts: Result<SetSizes, Refusal>) -> u64
    requires { CountsFit (counts_told counts) }
    ensures { result ≡ count_number (counts_told counts) }
{
    match counts {
        Ok(sizes) => sets(
            sizes.left_readable,
            sizes.left_writable,
            sizes.right_readable,
            sizes.right_writable,
        ),
        Err(_) => u64::from(Refusal::Map.number()),
    }
}

// The number of a cell's fault, its depth and its address, each at its place of a number.
fn found(failure: Failure) -> u64
    requires { CellFits (fault_number failure.fault) failure.depth failure.address }
    ensures { result ≡ found_number (fault_number failure.fault) failure.depth failure.address }
{
    u64::from(failure.fault.number()) + failure.depth as u64 * 256 + failure.address as u64 * 65536
}

// 0 where nothing fails, the refusal, or what a cell fails with, its depth at bit 8 and its address at bit 16: 32 bits, of an
// admission and of a check.
fn verdict_number(answer: Result<Option<Failure>, Refusal>) -> u64
    requires { VerdictFits (admit_told answer) }
    ensures admission { result ≡ verdict_number (admit_told answer) }
    ensures check { result ≡ check_number (check_told answer) }
    ensures bits { result < 4294967296 }
{
    match answer {
        Ok(None) => 0,
        Ok(Some(failure)) => found(failure),
        Err(refusal) => u64::from(refusal.number()),
    }
}

// The same, and the count of sweeps at bit 32.
pub fn admit_number(answered: Answered) -> u64
    requires { VerdictFits (admit_told answered.answer) × (answered.sweeps < 4294967296) }
    ensures { result ≡ admit_number (admit_told answered.answer) answered.sweeps }
{
    verdict_number(answered.answer) + answered.sweeps as u64 * 4294967296
}

// 0 for accepted, the refusal, or what a cell fails with, its depth at bit 8 and its address at bit 16.
pub fn check_number(answer: Result<Option<Failure>, Refusal>) -> u64
    requires { CheckFits (check_told answer) }
    ensures { result ≡ check_number (check_told answer) }
{
    verdict_number(answer)
}

// The table's length at bit 8 and the bound of the sweeps at bit 32; or 11.
pub fn foretell_number(answer: Result<Forecast, Refusal>) -> u64
    requires { ForetoldFits (foretold_as answer) }
    ensures { result ≡ foretell_number (foretold_as answer) }
{
    match answer {
        Ok(forecast) => forecast.length as u64 * 256 + forecast.bound as u64 * 4294967296,
        Err(_) => u64::from(Refusal::Image.number()),
    }
}

// The count of words executed at bit 8, and the stop number or 0; or the refusal.
pub fn run_number(answer: Result<RunEnd, Refusal>) -> u64
    ensures { result ≡ run_number (run_told answer) }
{
    match answer {
        Ok(end) => end.count as u64 % 72057594037927936 * 256 + end.stop as u64 % 256,
        Err(refusal) => u64::from(refusal.number()),
    }
}
