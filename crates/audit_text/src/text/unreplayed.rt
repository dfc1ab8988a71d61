ghost use Rattle.std.specs.Prelude.{◌++◌, codes, flat_map, OnOk};
ghost use Rattle.uefi_base.specs.Appending.{AppendsText};
ghost use Rattle.audit_text.specs.words.Numbers.{hex_text};
ghost use Rattle.audit_text.specs.text.Remarks.{inactive_line, unsupported_line};

use crate::words::push_number;
use pcr_replay::Bank;
use shown::ShownName;
use std::alloc::{AllocError, Allocator};
use uefi_audits::naming::bank_name;

/// Appends a line for each of these banks, of which no event has a digest.
///
/// # Errors
///
/// [`AllocError`] if an allocation fails. The text may have grown then.
pub fn push_inactive<A: Allocator>(
    messages: &mut String<A>,
    name: &str,
    banks: &[Bank],
) -> Result<(), AllocError>
    ensures { OnOk result (AppendsText messages.old messages.new
        (flat_map (inactive_line name.now) banks.now)) }
{
    for bank in banks {
        let (name, bank) = (ShownName(name), bank_name(*bank));
        writeln!(messages, "{name}: no event has a digest of the bank {bank}")?;
    }
    Ok(())
}

/// Appends which banks can't be replayed, those of these algorithms, if there are any.
///
/// # Errors
///
/// [`AllocError`] if an allocation fails. The text may have grown then.
pub fn push_unsupported(
    messages: &mut String,
    name: &str,
    algorithms: &[u16],
) -> Result<(), AllocError>
    ensures { OnOk result (AppendsText messages.old messages.new
        (unsupported_line name.now algorithms.now)) }
{
    let Some((first, others)) = algorithms.split_first() else {
        return Ok(());
    };
    let name = ShownName(name);
    write!(messages, "{name}: not supported: the bank of algorithm ")?;
    push_number(messages, *first)?;
    push_others(messages, others)?;
    messages.push('\n')?;
    Ok(())
}

/// Appends further algorithms, each after a comma.
fn push_others(messages: &mut String, algorithms: &[u16]) -> Result<(), AllocError>
    ensures { OnOk result (AppendsText messages.old messages.new
        (flat_map (λ other. codes ", " ++ hex_text other) algorithms.now)) }
{
    for algorithm in algorithms {
        messages.push_str(", ")?;
        push_number(messages, *algorithm)?;
    }
    Ok(())
}
