ghost use Rattle.std.specs.Prelude.{◌≡◌};
ghost use Rattle.std.specs.Ordering.{nat_cmp};
ghost use Rattle.uefi_records.specs.flags.Views.{attribute_bits, daylight_bits};
ghost use Rattle.uefi_tcg.specs.FlagViews.{algorithm_bits, format_bits};

use std::cmp::Ordering;
use uefi_records::{Daylight, FileAttribute};
use uefi_tcg::HashAlgorithm;
use uefi_tcg::v2::EventLogFormat;

/// Returns the default of each kind of set: no bit is set.
pub fn empty_sets() -> (Daylight, FileAttribute, HashAlgorithm, EventLogFormat)
    ensures daylight { daylight_bits result.0 ≡ 0 }
    ensures attributes { attribute_bits result.1 ≡ 0 }
    ensures algorithms { algorithm_bits result.2 ≡ 0 }
    ensures formats { format_bits result.3 ≡ 0 }
{
    (
        Daylight::default(),
        FileAttribute::default(),
        HashAlgorithm::default(),
        EventLogFormat::default(),
    )
}

/// Returns the order of two sets of each kind: that of their bits as numbers.
pub fn orders(
    daylight: (Daylight, Daylight),
    attributes: (FileAttribute, FileAttribute),
    algorithms: (HashAlgorithm, HashAlgorithm),
    formats: (EventLogFormat, EventLogFormat),
) -> (Ordering, Ordering, Ordering, Ordering)
    ensures daylight { result.0 ≡ nat_cmp (daylight_bits daylight.0) (daylight_bits daylight.1) }
    ensures attributes { result.1
        ≡ nat_cmp (attribute_bits attributes.0) (attribute_bits attributes.1) }
    ensures algorithms { result.2
        ≡ nat_cmp (algorithm_bits algorithms.0) (algorithm_bits algorithms.1) }
    ensures formats { result.3 ≡ nat_cmp (format_bits formats.0) (format_bits formats.1) }
{
    (
        daylight.0.cmp(&daylight.1),
        attributes.0.cmp(&attributes.1),
        algorithms.0.cmp(&algorithms.1),
        formats.0.cmp(&formats.1),
    )
}
