use crate::log_inputs::{log_input, number};
use rows::hex_digits;
use std::alloc::Global;
use test_support::bytes;
use uefi_tcg::AlgorithmId;
use uefi_tcg::v2::{AlgorithmDigestSizes, EventLog};

/// Returns the algorithm that has a name or a number.
pub(crate) fn algorithm_of(text: &str) -> Option<AlgorithmId> {
    Some(match text {
        "SHA1" => AlgorithmId::SHA1,
        "SHA256" => AlgorithmId::SHA256,
        "SHA384" => AlgorithmId::SHA384,
        "SHA512" => AlgorithmId::SHA512,
        "SM3_256" => AlgorithmId::SM3_256,
        _ => AlgorithmId(u16::try_from(number(text)?).ok()?),
    })
}

/// Returns the rows of a table, by their indices: there are none after them.
fn rows_of(alloc: Global, sizes: &AlgorithmDigestSizes<'_>) -> Option<String> {
    let mut rows = Vec::new(alloc);
    for index in 0..sizes.len() {
        let (algorithm, size) = sizes.get(index)?;
        rows.push((algorithm.0, size)).ok()?;
    }
    if sizes.get(sizes.len()).is_some() || sizes.get(usize::MAX).is_some() {
        return format!(in alloc; "a row after the last one").ok();
    }
    format!(in alloc; "{:?}", rows.as_slice()).ok()
}

/// Returns the sizes of algorithms in a table. They have spaces between them.
fn sizes_of(alloc: Global, sizes: &AlgorithmDigestSizes<'_>, algorithms: &str) -> Option<String> {
    let mut found = Vec::new(alloc);
    for algorithm in algorithms.split(" ") {
        found.push(sizes.get_size(algorithm_of(algorithm)?)).ok()?;
    }
    format!(in alloc; "{:?}", found.as_slice()).ok()
}

/// Returns the header of a log: the platform class, the version, the size of a `UINTN`, the rows,
/// the vendor's bytes, and where the header and its event end.
pub(crate) fn header(alloc: Global, input: &str) -> Option<String> {
    let input = log_input(alloc, input)?;
    let log = EventLog::new(input.bytes(), input.last_entry, false);
    let Some(header) = log.header() else {
        return format!(in alloc; "None").ok();
    };
    let (class, version) = (header.platform_class(), header.spec_version());
    let rows = rows_of(alloc, &header.algorithm_digest_sizes())?;
    let vendor = hex_digits(alloc, header.vendor_info()).ok()?;
    let ends = (header.size_in_bytes(), header.event_size());
    let uintn_size = header.uintn_size();
    format!(in alloc; "({class}, {version:?}, {uintn_size}, {rows}, {vendor}, {ends:?})").ok()
}

/// Returns the sizes of algorithms, which come first, under the header of a log.
pub(crate) fn header_sizes(alloc: Global, input: &str) -> Option<String> {
    let (algorithms, input) = input.split_once(" ; ")?;
    let input = log_input(alloc, input)?;
    let header = EventLog::new(input.bytes(), input.last_entry, false).header()?;
    sizes_of(alloc, &header.algorithm_digest_sizes(), algorithms)
}

/// Returns the rows that bytes have, and whether the table is empty.
pub(crate) fn table(alloc: Global, input: &str) -> Option<String> {
    let input = bytes(alloc, input).ok()?;
    let sizes = AlgorithmDigestSizes::from_rows(input.as_slice())?;
    let again = AlgorithmDigestSizes::from_rows(sizes.rows())?;
    let rows = rows_of(alloc, &sizes)?;
    if rows != rows_of(alloc, &again)? {
        return format!(in alloc; "other bytes of the rows").ok();
    }
    let is_empty = sizes.is_empty();
    format!(in alloc; "({rows}, {is_empty})").ok()
}

/// Returns the count of the rows that bytes have, and the sizes of algorithms, which come first, in
/// that table.
pub(crate) fn table_sizes(alloc: Global, input: &str) -> Option<String> {
    let (algorithms, rows) = input.split_once(" ; ")?;
    let rows = bytes(alloc, rows).ok()?;
    let sizes = AlgorithmDigestSizes::from_rows(rows.as_slice())?;
    let found = sizes_of(alloc, &sizes, algorithms)?;
    format!(in alloc; "({}, {found})", sizes.len()).ok()
}

/// Returns the digest that bytes begin with under a table of rows, which come first: its algorithm,
/// its bytes, and the bytes after it.
pub(crate) fn first_digest(alloc: Global, input: &str) -> Option<String> {
    let (rows, digits) = input.split_once(" ; ")?;
    let (rows, input) = (bytes(alloc, rows).ok()?, bytes(alloc, digits).ok()?);
    let sizes = AlgorithmDigestSizes::from_rows(rows.as_slice())?;
    let Some(((algorithm, digest), rest)) = sizes.first_digest(input.as_slice()) else {
        return format!(in alloc; "None").ok();
    };
    let digest = hex_digits(alloc, digest).ok()?;
    let rest = hex_digits(alloc, rest).ok()?;
    format!(in alloc; "({}, {digest}, {rest})", algorithm.0).ok()
}
