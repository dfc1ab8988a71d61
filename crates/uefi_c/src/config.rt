ghost use Rattle.std.specs.Prelude.{◌≡◌, ◌<◌, ◌≤◌, [], ◌∷◌, drop, length, IfSome, IfNone, ◌≢◌};
ghost use Rattle.uefi_hii.specs.Pairs.{pairs};
ghost use Rattle.uefi_hii.specs.Views.{pair_view};
ghost use Rattle.uefi_c.specs.Config.{pair_seen};
ghost use Rattle.uefi_c.specs.Status.{ended, IsOneOf, ok};

use crate::cursor::bytes_from;
use crate::status::{self, UefiStatus};
use uefi_hii::next_pair;

/// A key of a configuration text, and its value if it has one.
#[derive(Clone, Copy)]
#[repr(C)]
pub struct UefiPair<'a> {
    /// The key.
    pub key: &'a [u8],
    /// The value. Without one it has no meaning.
    pub value: &'a [u8],
    /// Whether there is a value.
    pub has_value: bool,
}

/// Reads the pair of a configuration text at the offset, and moves the offset to the next.
#[unsafe(no_mangle)]
pub extern "C" fn uefi_config_next_pair<'a>(
    text: &'a [u8],
    offset: &mut usize,
    out: &mut UefiPair<'a>,
) -> UefiStatus
    ensures pair { result ≡ ok → pairs (drop offset.old text.now)
        ≡ pair_seen out.new ∷ pairs (drop offset.new text.now) }
    ensures moves { result ≡ ok → offset.old < offset.new }
    ensures within { result ≡ ok → offset.new ≤ length text.now }
    ensures known { IsOneOf result (ok ∷ ended ∷ []) }
    ensures none { result ≢ ok → pairs (drop offset.old text.now) ≡ [] }
    ensures offset_unchanged { result ≢ ok → offset.new ≡ offset.old }
    ensures out_unchanged { result ≢ ok → out.new ≡ out.old }
{
    let Some((pair, end)) = pair_at(text, *offset) else {
        return status::END;
    };
    *out = pair;
    *offset = end;
    status::OK
}

/// Returns the pair of a configuration text at the offset, and the offset of the next.
fn pair_at(text: &[u8], offset: usize) -> Option<(UefiPair<'_>, usize)>
    ensures pair { IfSome result (λ found. pairs (drop offset text.now)
        ≡ pair_seen found.0 ∷ pairs (drop found.1 text.now)) }
    ensures moves { IfSome result (λ found. offset < found.1) }
    ensures within { IfSome result (λ found. found.1 ≤ length text.now) }
    ensures none { IfNone result (pairs (drop offset text.now) ≡ []) }
{
    let ((key, value), rest) = next_pair(bytes_from(text, offset)?)?;
    Some((seen(key, value), text.len() - rest.len()))
}

/// Returns the pair of this key and this value.
fn seen<'a>(key: &'a [u8], value: Option<&'a [u8]>) -> UefiPair<'a>
    ensures { pair_seen result ≡ pair_view (key.entry, value.entry) }
{
    match value {
        Some(value) => UefiPair {
            key,
            value,
            has_value: true,
        },
        None => UefiPair {
            key,
            value: &[],
            has_value: false,
        },
    }
}
