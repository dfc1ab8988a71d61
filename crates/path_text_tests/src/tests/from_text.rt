use std::alloc::Allocator;
use std::test::Fail;
use test_support::{same, same_bytes, same_text, takes_memory, without_request};
use uefi_path_text::{FromTextError, from_text, from_text_in, write_from_text};

/// Returns the length of the path whose text this is, or the error; or `None` if memory ran out.
fn length_in<A: Allocator>(alloc: A, text: &str) -> Option<Result<usize, FromTextError>> {
    match from_text_in(alloc, text) {
        Ok(path) => Some(Ok(path.as_path().as_bytes().len())),
        Err(FromTextError::Memory) => None,
        Err(error) => Some(Err(error)),
    }
}

#[test]
fn a_path_is_written_at_the_start_of_a_buffer(_rt: HostRuntime) -> Result<(), Fail> {
    let mut buffer = [0xee; 12];
    let path = from_text(&mut buffer, "Pci(0x2,0x0)")?;
    same_bytes(
        "the path",
        path.as_bytes(),
        b"\x01\x01\x06\x00\x00\x02\x7f\xff\x04\x00",
    )?;
    same_bytes(
        "its buffer",
        &buffer,
        b"\x01\x01\x06\x00\x00\x02\x7f\xff\x04\x00\xee\xee",
    )?;
    let mut buffer = [0xee; 12];
    same(
        "the length",
        &write_from_text(&mut buffer, "Pci(0x2,0x0)"),
        &Ok(10),
    )?;
    same_bytes(
        "the buffer",
        &buffer,
        b"\x01\x01\x06\x00\x00\x02\x7f\xff\x04\x00\xee\xee",
    )
}

#[test]
fn a_node_that_is_too_long_has_an_offset(rt: HostRuntime) -> Result<(), Fail> {
    let text = format!(in rt.alloc(); "Path(6,1,{:065532}{:065532})", 0, 0)?;
    let error = from_text_in(rt.alloc(), text.as_str()).err();
    same("the error", &error, &Some(FromTextError::TooLong(131071)))
}

#[test]
fn a_path_is_read_or_memory_was_refused(rt: HostRuntime) -> Result<(), Fail> {
    takes_memory(rt.alloc(), &Ok(10), |heap| length_in(heap, "Pci(0x2,0x0)"))?;
    without_request(rt.alloc(), &Some(Err(FromTextError::Missing(4))), |heap| {
        length_in(heap, "Pci(")
    })
}

#[test]
fn an_error_has_a_text(rt: HostRuntime) -> Result<(), Fail> {
    const TEXTS: [(FromTextError, &str); 6] = [
        (
            FromTextError::UnknownNode(3),
            "a node of an unknown name at byte 3",
        ),
        (
            FromTextError::Argument(4),
            "an unexpected character at byte 4",
        ),
        (FromTextError::Missing(5), "something is missing at byte 5"),
        (
            FromTextError::TooLong(6),
            "a node that is too long at byte 6",
        ),
        (
            FromTextError::Buffer(7),
            "the buffer is shorter than 7 bytes",
        ),
        (FromTextError::Memory, "out of memory"),
    ];
    for (error, text) in &TEXTS {
        let shown = format!(in rt.alloc(); "{error}")?;
        same_text(text, shown.as_str(), text)?;
    }
    Ok(())
}
