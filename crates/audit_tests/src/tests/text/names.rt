use shown::ShownName;
use std::test::Fail;
use test_support::same_text;

/// Names that no file has, and how they are displayed.
const NAMES: [[&str; 2]; 2] = [
    ["", ""],
    [
        "\u{9}\n\u{1b}[2J\u{0}\u{1f}",
        "\\x09\\x0a\\x1b[2J\\x00\\x1f",
    ],
];

#[test]
fn controls_and_backslashes_of_a_name_are_displayed_in_hex(rt: HostRuntime) -> Result<(), Fail> {
    for [name, expected] in &NAMES {
        let found = format!(in rt.alloc(); "{}", ShownName(name))?;
        same_text("a name", found.as_str(), expected)?;
    }
    Ok(())
}
