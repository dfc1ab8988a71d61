ghost use Rattle.std.specs.Prelude.{map, option_map};
ghost use Rattle.uefi_audits.specs.diff.Differences.{IsFirstMoved};
ghost use Rattle.uefi_audits.specs.diff.Views.{change_of};
ghost use Rattle.uefi_audits.specs.private.diff.Ranks.{pair_of};

use crate::diff::changed::EventPair;
use crate::diff::difference::EventChange;

/// Returns the first pair whose new event comes before that of an earlier pair; `None` if the
/// events come in the same order in both logs.
pub(crate) fn first_moved<'a>(pairs: &[EventPair<'_, 'a>]) -> Option<EventChange<'a>>
    ensures { IsFirstMoved (map pair_of pairs.now) (option_map change_of result) }
{
    let mut last = 0;
    for pair in pairs {
        if pair.new.index < last {
            return Some(pair.copied());
        }
        last = pair.new.index;
    }
    None
}
