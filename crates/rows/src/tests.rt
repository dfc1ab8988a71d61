use crate::table::each_row;
use crate::texts::{hex_digits, hex_pair_row, hex_row, quoted};
use std::alloc::{AllocError, Global};
use std::test::Fail;
use test_support::{Refusing, bytes, holds, same, same_text};

/// Returns bytes as a list, which is in memory of the allocator of a row; or `None` if that ran out.
fn list(alloc: Global, heap: &Refusing<Global>, input: &str) -> Option<String> {
    let bytes = bytes(alloc, input).ok()?;
    let list = Vec::from_slice(heap, bytes.as_slice()).ok()?;
    format!(in alloc; "{:?}", list.as_slice()).ok()
}

/// Answers a row.
fn answer(alloc: Global, heap: &Refusing<Global>, call: &str, input: &str) -> Option<String> {
    match call {
        "name" => format!(in alloc; "Number(7)").ok(),
        "list" => list(alloc, heap, input),
        "length" => hex_row(alloc, input, |bytes| bytes.len()),
        "lengths" => hex_pair_row(alloc, input, |one, other| (one.len(), other.len())),
        "quoted" => quoted(alloc, input).ok(),
        "hex" => hex_digits(alloc, bytes(alloc, input).ok()?.as_slice()).ok(),
        "goes on" if Vec::from_slice(heap, b"a").is_err() => Some(String::new(alloc)),
        "no memory" => None,
        _ => Some(String::new(alloc)),
    }
}

/// Rows that are as wanted.
const PASSING: &str = "# A comment, and an empty line.

list | 01 ff | [1, 255] | by hand
list | 01 ff | [0x1, 0xff] | by hand
list | 61 62 00 0a 22 5c ff | b\"ab\\0\\n\\\"\\\\\\xff\" | by hand
list |  | b\"\" | by hand
list |  | [] | by hand
length | 0102 | 0x2 | by hand
length | 0 | the input is no hex | by hand
lengths | 01 ; 02 03 | (1, 2) | by hand
lengths |  ; | the input is no pair | by hand
lengths | 01 ; 0 | the input is no hex | by hand
quoted | a \"0x1f\" b | \"a \\\"0x1f\\\" b\" | by hand
hex | 7fff0400 | x\"7fff 0400\" | by hand
name | Number::SEVEN | Number(0x7) | by hand
name | Number::SEVEN | Number::SEVEN | by hand
";

/// Rows that aren't, and the lines that say why.
const FAILING: [[&str; 2]; 6] = [
    ["list | 01 | [2]", "  a row has four parts\n"],
    [
        "list | 01 | [2] | by hand",
        "  wanted  [2]\n  got     [1]\n",
    ],
    [
        "name | Number::SIX | Number::SIX | by hand",
        "  wanted  Number::SIX\n  got     Number(7)\n",
    ],
    [
        "goes on |  | 1 | by hand",
        "  wanted  1\n  got     , though a request was refused after 0\n",
    ],
    [
        "no memory |  |  | by hand",
        "  wanted  \n  got     no memory, though no request was refused\n",
    ],
    ["unknown |  | 1 | by hand", "  wanted  1\n  got     \n"],
];

#[test]
fn a_row_is_as_wanted_in_each_form(rt: HostRuntime) -> Result<(), Fail> {
    let judged = each_row(
        rt.alloc(),
        "a.rows",
        PASSING,
        &|heap, call, input| { answer(rt.alloc(), heap, call, input) },
    )?;
    same_text("faults", judged.faults.as_str(), "")?;
    same("rows, failed", &(judged.rows, judged.failed), &(14, 0))
}

/// Returns what is printed of rows.
fn faults(alloc: Global, rows: &str) -> Result<String, AllocError> {
    let judged = each_row(
        alloc,
        "a.rows",
        rows,
        &|heap, call, input| { answer(alloc, heap, call, input) },
    )?;
    Ok(judged.faults)
}

#[test]
fn a_row_that_is_not_as_wanted_is_printed(rt: HostRuntime) -> Result<(), Fail> {
    for [row, fault] in FAILING {
        let text = format!(in rt.alloc(); "# A comment.\n{row}\n")?;
        let expected = format!(in rt.alloc(); "a.rows:2: {row}\n{fault}")?;
        same_text(
            row,
            faults(rt.alloc(), text.as_str())?.as_str(),
            expected.as_str(),
        )?;
    }
    holds("no row, no fault", faults(rt.alloc(), "")?.is_empty())
}
