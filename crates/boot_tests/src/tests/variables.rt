use boot_listing::variables::BootVariable;
use std::alloc::Global;
use std::test::Fail;
use test_support::same;

/// Names of files, and those of the variables of the boot manager that they are.
const NAMES: [(&str, Option<&str>); 16] = [
    ("BootCurrent", Some("BootCurrent")),
    ("BootOrder", Some("BootOrder")),
    ("Boot0000", Some("Boot0000")),
    ("BootFFFF", Some("BootFFFF")),
    ("Boot09AF", Some("Boot09AF")),
    (
        "Boot1234-8be4df61-93ca-11d2-aa0d-00e098032b8c",
        Some("Boot1234"),
    ),
    (
        "BootOrder-8be4df61-93ca-11d2-aa0d-00e098032b8c",
        Some("BootOrder"),
    ),
    ("Boot00af", None),
    ("Boot000", None),
    ("Boot00000", None),
    ("Boot000G", None),
    ("boot0000", None),
    ("BootNext", None),
    ("Boot1234-8BE4DF61-93CA-11D2-AA0D-00E098032B8C", None),
    ("-8be4df61-93ca-11d2-aa0d-00e098032b8c", None),
    ("", None),
];

/// Checks which variable a file of this name is, by the name that the variable is displayed as.
fn check_name(alloc: Global, name: &str, expected: Option<&str>) -> Result<(), Fail> {
    match BootVariable::of_file(name) {
        Some(variable) => {
            let shown = format!(in alloc; "{variable}")?;
            same(name, &Some(shown.as_str()), &expected)
        }
        None => same(name, &None, &expected),
    }
}

#[test]
fn a_name_is_that_of_a_variable_or_of_none(rt: HostRuntime) -> Result<(), Fail> {
    for &(name, expected) in &NAMES {
        check_name(rt.alloc(), name, expected)?;
    }
    Ok(())
}
