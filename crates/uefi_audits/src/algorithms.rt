//! The hash algorithms in the table of a log's header, by their numbers.

ghost use Rattle.std.specs.Prelude.{◌≡◌, map, IfOk};
ghost use Rattle.pcr_replay.specs.ReadLogs.{table_in};
ghost use Rattle.uefi_tcg.specs.v2.Views.{table_of};
ghost use Rattle.uefi_audits.specs.Algorithms.{AreAlgorithmsIn};

use pcr_replay::ReadLog;
use std::alloc::{AllocError, Global};
use uefi_tcg::v2::AlgorithmDigestSizes;

/// Returns the algorithms in the table of a log's header, each once, in ascending order. A log of
/// version 1 has no header, and no algorithms.
///
/// # Errors
///
/// [`AllocError`] if an allocation fails.
pub fn algorithms_in(alloc: Global, read: &ReadLog<'_>) -> Result<Vec<u16>, AllocError>
    ensures { IfOk result (λ algorithms. AreAlgorithmsIn (table_in read.now) algorithms.items) }
{
    let Some(header) = read.header() else {
        return Ok(Vec::new(alloc));
    };
    let mut algorithms = each_algorithm(alloc, &header.algorithm_digest_sizes())?;
    algorithms.sort()?;
    algorithms.dedup();
    Ok(algorithms)
}

/// Returns the algorithm in each row of a table.
pub(crate) fn each_algorithm(
    alloc: Global,
    table: &AlgorithmDigestSizes<'_>,
) -> Result<Vec<u16>, AllocError>
    ensures { IfOk result
        (λ algorithms. algorithms.items ≡ map (λ row. row.0) (table_of table.now)) }
{
    let mut algorithms = Vec::new(alloc);
    for index in 0..table.len() {
        let Some((algorithm, _)) = table.get(index) else {
            return Ok(algorithms);
        };
        algorithms.push(algorithm.0)?;
    }
    Ok(algorithms)
}
