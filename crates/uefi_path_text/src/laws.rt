//! Laws of the definitions. Each function states a law that holds for all values, and does nothing
//! when it runs.

ghost use Rattle.uefi_path_text.specs.Laws.{TextReadsBack, OnePathOfText};

/// States that the text of a path, with both flags false, is that of the path: so reading it gives
/// the path, byte for byte.
pub fn text_reads_back()
    ensures { TextReadsBack }
{}

/// States that a text is that of one path.
pub fn one_path_of_text()
    ensures { OnePathOfText }
{}
