//! Laws of the definitions. Each holds of every value of them, and takes nothing to run.

ghost use Rattle.pcr_replay.specs.Laws.{FirstContradicts, FirstIsNamed, ValueByItsEvents};
ghost use Rattle.pcr_replay.specs.ReadLogs.{OnlyReading, ReadingHolds};
ghost use Rattle.pcr_replay.specs.Rows.{RowsHold};

use std::alloc::Allocator;
use uefi_tcg::laws::one_contents;

/// States that the event that contradicts how PCR 0 starts is the first one that does, and that
/// without it none does.
pub fn first_contradicts()
    ensures { FirstContradicts }
{}

/// States that a PCR has a value only if no event makes it undetermined, and that the value is what
/// extending exactly the events of that PCR leads to, in their order.
pub fn value_by_its_events()
    ensures { ValueByItsEvents }
{}

/// States that a PCR is undetermined only if an event makes it so, and that the first such event is
/// named. An event makes a PCR undetermined that it extends if it has no digest of the bank, two, or
/// one of another length, and PCR 0 if it contradicts how that starts.
pub fn first_is_named()
    ensures { FirstIsNamed }
{}

/// States that the definitions give the values of worked rows: how PCR 0 starts, what PCRs start
/// with, and which events have no effect or no digest. Each row is a theorem.
pub fn worked_rows()
    ensures { RowsHold }
{}

/// States that what was read of a log is what the log has: its header and its contents.
pub fn reading_holds<A: Allocator>()
    ensures { ReadingHolds A }
{}

/// States that a log has no other contents, no other header and no other size of a `UINTN` than those
/// that were read. So each call over a log returns what the one over its events in memory
/// ([`entries`](crate::entries)) returns.
pub fn only_reading<A: Allocator>()
    ensures { OnlyReading A }
{
    one_contents();
}
