ghost use Rattle.std.specs.Prelude.{◌≡◌, OnOk, option_map};
ghost use Rattle.uefi_base.specs.Appending.{AppendsText};
ghost use Rattle.audit_text.specs.words.Tags.{tag_name, tag_text};

use std::alloc::AllocError;

/// Returns what Linux or systemd call the tag of a tagged event; `None` for another one.
#[tactic(auto, unfolding(crate::specs::words::Tags::tag_name))]
pub(crate) fn tag_name(id: u32) -> Option<&'static str>
    ensures { option_map (λ name. name.now) result ≡ tag_name id }
{
    match id {
        0x8f3b_22ec => Some("INITRD"),
        0x8f3b_22ed => Some("LOAD_OPTIONS"),
        0xf5bc_582a => Some("LOADER_CONF"),
        0x6c46_f751 => Some("DEVICETREE_ADDON"),
        0x49df_fe0f => Some("INITRD_ADDON"),
        0xdac0_8e1a => Some("UCODE_ADDON"),
        0x13ae_d6db => Some("UKI_PROFILE"),
        _ => None,
    }
}

/// Appends the name of a tag, if it has one, and its number.
#[tactic(auto, unfolding(crate::specs::words::Tags::named_tag))]
pub(crate) fn push_tag(text: &mut String, id: u32) -> Result<(), AllocError>
    ensures { OnOk result (AppendsText text.old text.new (tag_text id)) }
{
    match tag_name(id) {
        Some(name) => write!(text, "{name} 0x{id:x}"),
        None => write!(text, "0x{id:x}"),
    }
}
