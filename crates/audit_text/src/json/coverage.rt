ghost use Rattle.std.specs.Prelude.{◌≡◌, map, IfOk, OnOk};
ghost use Rattle.uefi_audits.specs.verify.Coverage.{covering_of};
ghost use Rattle.audit_text.specs.json.Coverage.{by_banks, covered_json, if_any, not_covered_json, numbers_in, of_bank, pcr_number, unless};
ghost use Rattle.audit_text.specs.json.Json.{Json};
ghost use Rattle.audit_text.specs.private.JsonValues.{AppendsValues, AreValuesOf, IsValueOf};

use pcr_replay::Bank;
use serde_json::{Value, json};
use std::alloc::{AllocError, Global};
use uefi_audits::naming::bank_name;
use uefi_audits::verify::{Coverage, NamedPcr};

/// Returns the PCRs that are covered: for each bank an object with its name and the PCRs.
#[tactic(auto, unfolding(crate::specs::json::Coverage::covered_json))]
pub(crate) fn covered_json(alloc: Global, covered: &[NamedPcr]) -> Result<Value, AllocError>
    ensures { IfOk result (IsValueOf (covered_json covered.now)) }
{
    Ok(Value::Array(by_banks(alloc, covered)?))
}

/// Returns the PCRs that aren't covered: such objects of those that are asked for, and one whose bank is
/// `null` of those that events extend.
#[tactic(auto, unfolding(crate::specs::json::Coverage::not_covered_json))]
pub(crate) fn not_covered_json(alloc: Global, coverage: &Coverage) -> Result<Value, AllocError>
    ensures { IfOk result (IsValueOf (not_covered_json (covering_of coverage.now))) }
{
    let mut values = by_banks(alloc, coverage.missing.as_slice())?;
    push_if_any(
        &mut values,
        alloc,
        Value::Null,
        coverage.extended.as_slice(),
    )?;
    Ok(Value::Array(values))
}

/// Appends the name of what doesn't agree.
#[tactic(auto, unfolding(crate::specs::json::Coverage::unless))]
pub(crate) fn push_unless(
    failed: &mut Vec<Value>,
    alloc: Global,
    agrees: bool,
    name: &str,
) -> Result<(), AllocError>
    ensures { OnOk result (AppendsValues failed.old failed.new (unless agrees name.now)) }
{
    if agrees {
        return Ok(());
    }
    let name = Value::try_from_str(alloc, name)?;
    failed.push(name)?;
    Ok(())
}

/// Returns PCRs by banks.
fn by_banks(alloc: Global, pcrs: &[NamedPcr]) -> Result<Vec<Value>, AllocError>
    ensures { IfOk result (AreValuesOf (by_banks pcrs.now)) }
{
    let mut values = Vec::new(alloc);
    for bank in &Bank::ALL {
        push_bank(&mut values, alloc, *bank, pcrs)?;
    }
    Ok(values)
}

/// Appends those of these PCRs that are of a bank, if there are any.
fn push_bank(
    values: &mut Vec<Value>,
    alloc: Global,
    bank: Bank,
    pcrs: &[NamedPcr],
) -> Result<(), AllocError>
    ensures { OnOk result (AppendsValues values.old values.new (of_bank pcrs.now bank)) }
{
    let name = Value::try_from_str(alloc, bank_name(bank))?;
    let numbers = numbers_in(alloc, pcrs, bank)?;
    push_if_any(values, alloc, name, numbers.as_slice())
}

/// Returns the numbers of those of these PCRs that are of a bank.
fn numbers_in(alloc: Global, pcrs: &[NamedPcr], bank: Bank) -> Result<Vec<u32>, AllocError>
    ensures { IfOk result (λ numbers. numbers.items ≡ numbers_in pcrs.now bank) }
{
    pcrs.iter()
        .filter(|it| it.bank == bank)
        .map(|it| it.pcr)
        .collect(alloc)
}

/// Appends the object of PCRs of a bank, if there are any.
#[tactic(auto, unfolding(crate::specs::json::Coverage::if_any))]
fn push_if_any(
    values: &mut Vec<Value>,
    alloc: Global,
    bank: Value,
    pcrs: &[u32],
) -> Result<(), AllocError>
    ensures { (json : Json) → IsValueOf json bank
        → OnOk result (AppendsValues values.old values.new (if_any json pcrs.now)) }
{
    if pcrs.is_empty() {
        return Ok(());
    }
    let pcrs = Value::Array(each_number(alloc, pcrs)?);
    let value = json!(in alloc; {"bank": bank, "pcrs": pcrs})?;
    values.push(value)?;
    Ok(())
}

/// Returns each number of a PCR.
fn each_number(alloc: Global, pcrs: &[u32]) -> Result<Vec<Value>, AllocError>
    ensures { IfOk result (AreValuesOf (map pcr_number pcrs.now)) }
{
    let mut values = Vec::new(alloc);
    for pcr in pcrs {
        values.push(Value::from(*pcr))?;
    }
    Ok(values)
}
