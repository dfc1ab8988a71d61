ghost use Rattle.std.specs.Prelude.{◌≡◌, ◌≢◌, [], IfOk, IfSome, Some, string_bytes};
ghost use Rattle.uefi_audit.specs.Held.{fault_text, pcr_path};

use crate::file_name::FileName;
use file_input::{MAX_READS, STANDARD_INPUT, read_file};
use pcr_replay::{Bank, PCR_COUNT};
use shown::ShownName;
use std::alloc::{AllocError, Global};
use std::io::ErrorKind;
use std::rt::Files;
use std::{fmt, fs};
use uefi_audits::naming::bank_name;
use uefi_audits::verify::{Held, HeldError, HeldPcr, held_in_file, held_in_text};

/// Returns the bytes of a file, of standard input if its name is `-`; `None` if it wasn't read, which
/// standard error is told.
pub(crate) fn file_bytes<R: Files + Input + Eprint + AllocGlobal>(
    rt: &R,
    name: FileName<'_>,
) -> Option<Vec<u8>> {
    bytes_at(rt, path_named(rt, name)?)
}

/// Returns the path that a name is; `None` if it isn't UTF-8, which standard error is told.
fn path_named<'a, R: Eprint>(rt: &R, name: FileName<'a>) -> Option<&'a str> {
    match name {
        FileName::Text(path) => Some(path),
        FileName::NotUtf8(shown) => {
            let _ = eprintln!(rt; "uefi_audit: {shown}: the name isn't UTF-8");
            None
        }
    }
}

/// Returns the bytes of the file at a path, as [`file_bytes`].
fn bytes_at<R: Files + Input + Eprint + AllocGlobal>(rt: &R, path: &str) -> Option<Vec<u8>> {
    let file = if path == "-" { STANDARD_INPUT } else { path };
    match read_file(rt, file, MAX_READS) {
        Ok(bytes) => Some(bytes),
        Err(error) => {
            let name = ShownName(path);
            // If standard error is closed, the exit status still tells.
            let _ = eprintln!(rt; "uefi_audit: {name}: {error}");
            None
        }
    }
}

/// Returns the PCRs of a TPM in a file that `tpm2_pcrread` printed or as TPM 1.2 has it, or in a
/// folder as Linux has it; `None` if there are none to be read, which standard error is told.
pub(crate) fn held_pcrs<R: Files + Input + Eprint + AllocGlobal>(
    rt: &R,
    name: FileName<'_>,
) -> Option<Vec<HeldPcr>>
    ensures { IfSome result (λ held. held.items ≢ []) }
{
    let path = path_named(rt, name)?;
    let held = match fs::metadata(rt, path) {
        Ok(found) if found.is_dir() => held_in_folder(rt, path)?,
        _ => held_in_listing(rt, path)?,
    };
    if held.is_empty() {
        let name = ShownName(path);
        let _ = eprintln!(rt; "uefi_audit: {name}: there are no PCRs that can be compared");
        return None;
    }
    Some(held)
}

/// Returns the PCRs in a file, and tells standard error which banks of it aren't supported.
fn held_in_listing<R: Files + Input + Eprint + AllocGlobal>(
    rt: &R,
    path: &str,
) -> Option<Vec<HeldPcr>> {
    let bytes = bytes_at(rt, path)?;
    match held_in_text(rt.alloc(), bytes.as_slice()) {
        Ok(held) => {
            let Held { pcrs, unsupported } = held;
            tell_unsupported(rt, path, unsupported);
            Some(pcrs)
        }
        Err(error) => {
            tell_held(rt, path, error);
            None
        }
    }
}

/// Tells on standard error which banks aren't supported, each once.
fn tell_unsupported<R: Eprint>(rt: &R, path: &str, mut names: Vec<&str>) {
    if names.sort().is_err() {
        return;
    }
    names.dedup();
    let path = ShownName(path);
    for name in &names {
        let name = ShownName(name);
        let _ = eprintln!(rt; "{path}: the bank {name} isn't supported");
    }
}

/// Tells on standard error why a file has no PCRs that can be compared.
fn tell_held<R: Eprint>(rt: &R, path: &str, error: HeldError) {
    let (name, fault) = (ShownName(path), HeldFault(error));
    let _ = eprintln!(rt; "uefi_audit: {name}: {fault}");
}

/// Why a file has no PCRs that can be compared, displayed as standard error is told it.
#[derive(Clone, Copy, Drop)]
struct HeldFault(HeldError);

impl fmt::Display for HeldFault {
    ghost output = { λ fault. Some (fault_text fault.0) };

    fn fmt<W: fmt::Write>(&self, f: &mut fmt::Formatter<W>) -> fmt::Result {
        match self.0 {
            HeldError::Memory => write!(f, "out of memory"),
            HeldError::Line(offset) => write!(
                f,
                "the line at offset {offset} states no PCR, or one that a line before it states"
            ),
        }
    }
}

/// Returns the PCRs of which the folder has a file, as `pcr-sha256/0`.
fn held_in_folder<R: Files + Input + Eprint + AllocGlobal>(
    rt: &R,
    path: &str,
) -> Option<Vec<HeldPcr>> {
    let mut held = Vec::new(rt.alloc());
    for bank in Bank::ALL {
        for pcr in 0..PCR_COUNT as u32 {
            if let Some(found) = held_in_bank(rt, path, bank, pcr)? {
                if held.push(found).is_err() {
                    tell_held(rt, path, HeldError::Memory);
                    return None;
                }
            }
        }
    }
    Some(held)
}

/// Returns the PCR of a bank, if the folder has a file for it.
fn held_in_bank<R: Files + Input + Eprint + AllocGlobal>(
    rt: &R,
    folder: &str,
    bank: Bank,
    pcr: u32,
) -> Option<Option<HeldPcr>>
    ensures { IfSome result (λ found. IfSome found
        (λ held. (held.bank ≡ bank) × (held.pcr ≡ pcr))) }
{
    let Ok(path) = pcr_path(rt.alloc(), folder, bank, pcr) else {
        tell_held(rt, folder, HeldError::Memory);
        return None;
    };
    match fs::metadata(rt, path.as_str()) {
        Err(error) if error.kind() == ErrorKind::NotFound => return Some(None),
        _ => {}
    }
    let bytes = bytes_at(rt, path.as_str())?;
    match held_in_file(rt.alloc(), bank, bytes.as_slice()) {
        Ok(value) => Some(Some(HeldPcr { bank, pcr, value })),
        Err(error) => {
            tell_held(rt, path.as_str(), error);
            None
        }
    }
}

/// Returns the path of a PCR's file in the folder, as `pcr-sha256/0`.
fn pcr_path(alloc: Global, folder: &str, bank: Bank, pcr: u32) -> Result<String, AllocError>
    ensures { IfOk result
        (λ path. string_bytes path ≡ pcr_path folder.now bank pcr) }
{
    let name = bank_name(bank);
    format!(in alloc; "{folder}/pcr-{name}/{pcr}")
}
