//! Heaps that have exactly as many free bytes as a container of known size allocates.
use crate::Findings;
use linked_list_allocator::LocalHeap;
use std::alloc::Global;

/// The number of bytes of a block. Each allocation takes whole blocks of a heap.
const BLOCK: usize = 16;

/// Calls `make` with a heap that has just `bytes` free, which are whole blocks, and with one that has a block less. `make` makes
/// something of this capacity. It returns how many bytes of the heap are in use with it, or `None` if the allocation fails.
///
/// Notes the capacity if the allocation fails with room, succeeds without, or takes less, and if bytes stay in use after it.
///
/// ```text
/// check_room(&findings, alloc, 1600, 100, |heap: &LocalHeap| {
///     match PolymorphicVec::<u128, _>::new(heap, 100) {
///         Ok(_vector) => Some(heap.used()),
///         Err(AllocError) => None,
///     }
/// });
/// ```
fn check_room<F: Fn(&LocalHeap) -> Option<usize>>(
    findings: &Findings,
    alloc: Global,
    bytes: usize,
    capacity: usize,
    make: F,
)
    requires { F.IsAlwaysCallable make }
{
    for (more, is_enough) in [(BLOCK, true), (0, bytes == 0)] {
        let Ok(heap) = LocalHeap::new(alloc, bytes.saturating_add(more).max(BLOCK)) else {
            return findings.miss("a heap");
        };
        let held = Box::new(&heap, 0u64);
        findings.expect_at(held.is_ok(), capacity, "a block");
        let all = if is_enough {
            Some(bytes.saturating_add(BLOCK))
        } else {
            None
        };
        let made = (make(&heap), heap.used());
        findings.expect_same_at(made, (all, BLOCK), capacity, "the bytes in use");
    }
}

/// Numbers of elements. Those that are divided by 16 fill whole blocks, whatever the size of one is.
const NUMBERS: &[usize] = &[0, 1, 7, 16, 64, 1000, 1008];

/// Checks that a container allocates `bytes` for each element, in so many `blocks`, or nothing if there is no element. `size_of`
/// returns both for a number of elements. `make` makes a container of so many, as for [`check_room`].
pub fn check_memory_sizes<
    F: Fn(usize) -> (usize, usize),
    G: Fn(&LocalHeap, usize) -> Option<usize>,
>(findings: &Findings, alloc: Global, bytes: usize, blocks: usize, size_of: F, make: G)
    requires can_ask { F.IsAlwaysCallable size_of }
    requires can_make { G.IsAlwaysCallable make }
{
    for n in NUMBERS {
        let all = n.saturating_mul(bytes);
        let wanted = (all, if *n == 0 { 0 } else { blocks });
        findings.expect_same_at(size_of(*n), wanted, *n, "the bytes and blocks");
        if *n % 16 == 0 {
            check_room(findings, alloc, all, *n, |heap: &LocalHeap| make(heap, *n));
        }
    }
}
