ghost use Rattle.std.specs.Prelude.{◌≡◌, IfSome, IsSome, List, length, take, ℕ};
ghost use Rattle.uefi_records.specs.file.FileInfo.{file_fields, file_info_verdict};
ghost use Rattle.uefi_records.specs.file.Verdict.{accepted};

use uefi_records::FileInfo;

/// Returns the size of the file whose record is in the written bytes of a buffer.
pub fn file_size_in(buffer: &[u8], written: usize) -> Option<u64>
    ensures size { IfSome result (λ size. size ≡ (file_fields buffer.now).file_size) }
    ensures record { IsSome result → (name : List ℕ)
        × (file_info_verdict (take written buffer.now) (length buffer.now) ≡ accepted name) }
    ensures none { (name : List ℕ)
        → file_info_verdict (take written buffer.now) (length buffer.now) ≡ accepted name
        → IsSome result }
{
    match FileInfo::from_uefi(buffer, written) {
        Ok(info) => Some(info.file_size()),
        Err(_) => None,
    }
}
