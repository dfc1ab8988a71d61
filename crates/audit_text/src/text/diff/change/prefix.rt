ghost use Rattle.std.specs.Prelude.{◌≡◌, ◌≤◌, length};
ghost use Rattle.std.specs.List.{common_prefix_len};

/// Returns how many first items both slices have.
pub(crate) fn common_prefix_length<T: PartialEq>(old: &[T], new: &[T]) -> usize
    ensures count { result ≡ common_prefix_len T.eq old.now new.now }
    ensures within_old { result ≤ length old.now }
    ensures within_new { result ≤ length new.now }
{
    let shorter = old.len().min(new.len());
    for index in 0..shorter {
        if old[index] != new[index] {
            return index;
        }
    }
    shorter
}
