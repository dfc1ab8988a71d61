//! An allocator for tests: it grants a number of requests, and refuses every later one.
//!
//! A call that allocates returns an error at whichever request is refused. [`in_turn`] shows it: it
//! makes the call with each of its requests in turn as the first that is refused, until the call
//! needs no more requests than are granted:
//!
//! ```text
//! let requests = in_turn(rt.alloc(), &3, |heap| {
//!     let bytes = Vec::from_slice(heap, &[1u8, 2, 3]).ok()?;
//!     Some(bytes.len())
//! })?;
//! same("requests", &requests, &1)?;
//! ```
//!
//! [`without_request`] shows that a call asks for no memory at all.
//!
//! Its proof says that it is as safe as the allocator below it. Which requests it refuses no
//! contract says, since none can say what a cell holds: the tests of this crate do.

use std::alloc::{AllocError, Allocator, Global};
use std::cell::Cell;
use std::fmt::Debug;
use std::test::Fail;

/// An allocator that passes a number of requests on to another, and refuses every one from then on.
///
/// A call of [`Allocator::allocate`] is one request. A collection that grows or shrinks moves to
/// another block, which is one request as well. Giving a block back is none, and is always handed
/// on.
pub struct Refusing<B: Allocator> {
    inner: B,
    /// The requests that are still granted, or `None` once one was refused.
    granted: Cell<Option<u64>>,
}

impl<B: Allocator> Refusing<B> {
    /// Makes the allocator that grants the first `granted` requests by `inner`, and none after
    /// them.
    ///
    /// A request that `inner` itself refuses counts as one that was granted.
    pub fn after(inner: B, granted: u64) -> Refusing<B> {
        Refusing {
            inner,
            granted: Cell::new(Some(granted)),
        }
    }

    /// Returns whether no request was refused so far.
    pub fn is_waiting(&self) -> bool {
        self.granted.get().is_some()
    }
}

impl<B: Allocator> Drop for Refusing<B> {
    fn drop(self) {
        let Self {
            inner: _,
            granted: _,
        } = self;
    }
}

/// Counts a request down, and returns whether it is refused.
fn refuses(granted: &Cell<Option<u64>>) -> bool {
    let left = granted.get().and_then(|count| count.checked_sub(1));
    granted.set(left);
    left.is_none()
}

unsafe impl<B: Allocator> Allocator for Refusing<B> {
    ghost dealloc_token = { λ heap ty ptr. B.dealloc_token heap.inner ty ptr };

    fn allocate(&self, size: usize, align: usize) -> Result<*mut u8, AllocError> {
        if refuses(&self.granted) {
            return Err(AllocError);
        }
        self.inner.allocate(size, align)
    }

    unsafe fn deallocate(&self, ptr: *mut u8, size: usize, align: usize) {
        self.inner.deallocate(ptr, size, align);
    }
}

/// The most requests that [`in_turn`] grants.
const MOST_REQUESTS: u64 = 100;

/// Makes a call with no request granted, then with one, and so on, until it doesn't run out of
/// memory, and returns how many requests were granted then.
///
/// `call` gives `None` if it ran out of memory, and else what it gave, which is to be `expected`.
///
/// # Errors
///
/// A failure if the call runs out of memory though no request was refused, if it gives something
/// though one was, if it gives another value than `expected`, or if it still asks for more after
/// 100 requests.
pub fn in_turn<T, F>(alloc: Global, expected: &T, call: F) -> Result<u64, Fail>
where
    T: PartialEq + Debug + Drop,
    F: Fn(&Refusing<Global>) -> Option<T>,
    requires { F.IsAlwaysCallable call }
{
    for granted in 0..MOST_REQUESTS {
        let heap = Refusing::after(alloc, granted);
        let given = call(&heap);
        if given.is_some() != heap.is_waiting() {
            return Err(Fail::new(format_args!("found {given:?} with {granted} requests granted")));
        }
        let Some(found) = given else {
            continue;
        };
        if found != *expected {
            return Err(Fail::new(format_args!(
                "found {found:?} with {granted} requests granted, expected {expected:?}"
            )));
        }
        return Ok(granted);
    }
    Err(Fail::new("the call asks for more than 100 requests"))
}

/// Makes a call as [`in_turn`] does, and checks that it asks for memory.
///
/// # Errors
///
/// A failure where [`in_turn`] fails, or if the call made no request.
pub fn takes_memory<T, F>(alloc: Global, expected: &T, call: F) -> Result<(), Fail>
where
    T: PartialEq + Debug + Drop,
    F: Fn(&Refusing<Global>) -> Option<T>,
    requires { F.IsAlwaysCallable call }
{
    match in_turn(alloc, expected, call)? {
        0 => Err(Fail::new("the call asks for no memory")),
        _ => Ok(()),
    }
}

/// The most requests that [`without_request`] grants.
const FEW_REQUESTS: u64 = 4;

/// Makes a call with no request granted, then with one, and so on up to four, and checks that it
/// makes none: it gives the same each time, and no request is refused.
///
/// # Errors
///
/// A failure if a request was refused, or if the call gives another value than `expected`.
pub fn without_request<T, F>(alloc: Global, expected: &T, call: F) -> Result<(), Fail>
where
    T: PartialEq + Debug + Drop,
    F: Fn(&Refusing<Global>) -> T,
    requires { F.IsAlwaysCallable call }
{
    for granted in 0..=FEW_REQUESTS {
        let heap = Refusing::after(alloc, granted);
        let found = call(&heap);
        if found != *expected || !heap.is_waiting() {
            return Err(Fail::new(format_args!(
                "found {found:?} with {granted} requests granted, expected {expected:?} without one"
            )));
        }
    }
    Ok(())
}
