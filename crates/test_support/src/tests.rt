//! Which requests the allocator refuses.

use crate::{Refusing, in_turn, same, without_request};
use std::alloc::{Allocator, Global};
use std::test::Fail;

/// Makes a request. Returns whether it was granted, and whether none was refused so far.
fn request(heap: &Refusing<Global>) -> (bool, bool) {
    (Box::new(heap, 1u8).is_ok(), heap.is_waiting())
}

/// Checks that the allocator grants this many requests, and none after them.
fn grants(alloc: Global, granted: u64) -> Result<(), Fail> {
    let heap = Refusing::after(alloc, granted);
    for _ in 0..granted {
        same("a request that is granted", &request(&heap), &(true, true))?;
    }
    let after = (heap.is_waiting(), request(&heap), request(&heap));
    same(
        "that none was refused, the first one after them, and the second",
        &after,
        &(true, (false, false), (false, false)),
    )
}

#[test]
fn this_many_requests_are_granted_and_none_after_them(rt: HostRuntime) -> Result<(), Fail> {
    for granted in 0..4 {
        grants(rt.alloc(), granted)?;
    }
    Ok(())
}

/// Returns how many boxes were made, or `None` if memory ran out.
fn boxes<A: Allocator>(heap: &A, count: u64) -> Option<u64> {
    for _ in 0..count {
        Box::new(heap, 1u8).ok()?;
    }
    Some(count)
}

#[test]
fn each_request_is_refused_in_turn(rt: HostRuntime) -> Result<(), Fail> {
    for count in 0..4u64 {
        let requests = in_turn(rt.alloc(), &count, |heap| boxes(heap, count))?;
        same("requests", &requests, &count)?;
    }
    without_request(rt.alloc(), &Some(0), |heap| boxes(heap, 0))
}
