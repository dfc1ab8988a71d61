use crate::failure::Failure;
use boot_listing::variables::{BootVariable, VariableFile};
use file_input::{MAX_READS, read_file};
use std::fs;
use std::fs::DirEntry;
use std::rt::Files;

/// Returns the files of a folder that are variables of the boot manager.
pub(crate) fn read_folder<R: Files + Input + AllocGlobal + Clone + Drop>(
    rt: &R,
    folder: &str,
) -> Result<Vec<VariableFile>, Failure> {
    let mut files = Vec::new(rt.alloc());
    let entries = match fs::read_dir(rt, folder) {
        Ok(entries) => entries,
        Err(error) => return Err(Failure::of_folder(rt.alloc(), folder, error)),
    };
    for entry in entries {
        match entry {
            Ok(entry) => push_variable(rt, &mut files, &entry)?,
            Err(error) => return Err(Failure::of_folder(rt.alloc(), folder, error)),
        }
    }
    Ok(files)
}

/// Reads the file of an entry and adds it, if it is a variable of the boot manager.
fn push_variable<R: Files + Input + AllocGlobal + Clone + Drop>(
    rt: &R,
    files: &mut Vec<VariableFile>,
    entry: &DirEntry<R>,
) -> Result<(), Failure> {
    let name = entry.file_name();
    if BootVariable::of_file(name).is_none() {
        return Ok(());
    }
    let path = entry.path().as_str();
    match read_file(rt, path, MAX_READS) {
        Ok(bytes) => {
            let name = String::from_str(rt.alloc(), name)?;
            match files.push(VariableFile { name, bytes }) {
                Ok(()) => Ok(()),
                Err(_) => Err(Failure::Memory),
            }
        }
        Err(error) => Err(Failure::of_file(rt.alloc(), path, error)),
    }
}
