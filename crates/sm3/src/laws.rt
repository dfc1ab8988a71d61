//! Laws of the definition. Each takes nothing to run.

ghost use Rattle.sm3.specs.Laws.{PadsToBlocks};
ghost use Rattle.sm3.specs.Rows.{RowsHold};

/// States that a padded message is whole blocks, and that the padding has the fewest zeros that
/// make it so (GB/T 32905-2016, 5.2).
pub fn pads_to_blocks()
    ensures { PadsToBlocks }
{}

/// States that the definition gives the digests of the standard's two examples (GB/T 32905-2016,
/// A.1 and A.2), and that of the empty message. Each row is a theorem.
pub fn worked_rows()
    ensures { RowsHold }
{}
