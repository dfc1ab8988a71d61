//! Laws of several libraries. Each function states a law, and does nothing when it runs.

ghost use Rattle.uefi_examples.specs.FormSizes.{FormsFit};

/// States that each form of `uefi_path_text` whose type and subtype are numbers makes data of a
/// length that its type has in `uefi_node`: with empty texts, and with texts of two bytes.
pub fn forms_fit_layouts()
    ensures { FormsFit }
{}
