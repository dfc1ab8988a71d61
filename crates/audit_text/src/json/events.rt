ghost use Rattle.std.specs.Prelude.{map, OnOk};
ghost use Rattle.uefi_tcg.specs.LogViews.{entry_of};
ghost use Rattle.audit_text.specs.json.Events.{AreEventLines};
ghost use Rattle.audit_text.specs.words.Events.{AppendsSome};

use crate::json::event::event_line;
use std::alloc::{AllocError, Global};
use uefi_tcg::{LogEntry, UintnSize};

/// Appends the events of a log in order, each as one line of JSON: that of [`event_line`] with the
/// log's name and the event's index, and a line break. The log has a `UINTN` of this size
/// ([`ReadLog::uintn_size`](pcr_replay::ReadLog::uintn_size)).
///
/// # Errors
///
/// [`AllocError`] if an allocation fails. The text may have grown then.
pub fn push_events(
    text: &mut String,
    alloc: Global,
    name: &str,
    entries: &[LogEntry<'_>],
    uintn_size: UintnSize,
) -> Result<(), AllocError>
    ensures { OnOk result (AppendsSome
        (AreEventLines uintn_size name.now (map entry_of entries.now)) text.old text.new) }
{
    for index in 0..entries.len() {
        let line = event_line(alloc, name, index, &entries[index], uintn_size)?;
        writeln!(text, "{line}")?;
    }
    Ok(())
}
