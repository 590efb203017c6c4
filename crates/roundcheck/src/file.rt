// The check of a whole file.
ghost use Rattle.std.specs.Prelude.{IfOk};
ghost use Rattle.roundcheck.specs.Checks.{Checks};

use crate::finish::Judge;
use crate::report::Report;
use crate::round::finish_file;
use std::alloc::{AllocError, Global};

// Runs a file's records on a board: a line for each that is taken, and the verdict or the refusal.
pub fn check_file(heap: Global, file: &[u8]) -> Result<Report, AllocError>
    ensures { IfOk result (λ report. Checks file.now report.lines.items report.ending) }
{
    finish_file(heap, file, Vec::new(heap), Judge)
}
