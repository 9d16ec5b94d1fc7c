//! A string of each kind, in each memory.
ghost use Rattle.std.specs.Prelude.{◌≤◌};

use bumpalo::Bump;
use ix_string::{PolymorphicString, StaticString, String, UninitString};
use ix_tables::RelocatableContainer;
use linked_list_allocator::LocalHeap;
use std::alloc::{Allocator, Global};
use test_support::{Findings, made};

/// A check of any string.
pub trait Check {
    /// Checks a string, which is empty.
    fn check<S: String>(&self, findings: &Findings, string: &mut S, place: &str);
}

/// Checks the string, which was made.
fn check_made<C: Check, S: String + Drop, E: Drop>(
    findings: &Findings,
    made: Result<S, E>,
    check: &C,
    place: &str,
) {
    match made {
        Ok(mut string) => check.check(findings, &mut string, place),
        Err(_) => findings.miss(place),
    }
}

fn check_in<C: Check, A: Allocator + Copy>(
    findings: &Findings,
    alloc: A,
    capacity: usize,
    check: &C,
    memory: &str,
) {
    let relocatable = UninitString::new_uninit(capacity).init(alloc);
    check_made(findings, relocatable, check, memory);
    let polymorphic = PolymorphicString::new(alloc, capacity);
    check_made(findings, polymorphic, check, memory);
}

/// Checks a string of each kind, in each memory, which is deallocated then.
pub fn check_kinds<C: Check, const CAPACITY: usize>(findings: &Findings, alloc: Global, check: &C)
    requires { CAPACITY ≤ 127 }
{
    let fixed = made(StaticString::<CAPACITY>::new());
    check_made(findings, fixed, check, "fixed");
    check_in(findings, alloc, CAPACITY, check, "the machine's memory");
    check_in(findings, &Bump::new(alloc), CAPACITY, check, "an arena");
    match LocalHeap::new(alloc, 256) {
        Ok(heap) => {
            check_in(findings, &heap, CAPACITY, check, "a heap");
            findings.expect_same(heap.used(), 0, "bytes of the heap in use");
        }
        Err(_) => findings.miss("a heap"),
    }
}

/// Removes all bytes, and inserts `text` if it fits.
pub fn refill<S: String>(string: &mut S, text: &str) {
    string.clear();
    let _ = string.push_bytes(text.as_bytes());
}

/// Returns the string with `text` in it, if it fits.
pub fn holding<S: String>(mut string: S, text: &str) -> S {
    refill(&mut string, text);
    string
}
