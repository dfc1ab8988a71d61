use uefi_records::FileInfo;

/// Reads the file information record that all the bytes were written for. The sum is the number of
/// units of its name, without the NUL.
#[unsafe(no_mangle)]
pub extern "C" fn port_info(bytes: &[u8]) -> u64 {
    match FileInfo::from_uefi(bytes, bytes.len()) {
        Ok(info) => info.file_name().len().saturating_sub(1) as u64,
        Err(_) => 0,
    }
}
