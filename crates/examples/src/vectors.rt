//! A vector of each kind.
ghost use Rattle.std.specs.Prelude.{◌≡◌, ◌∷◌, ◌*◌, [], map, Ok, IfOk, IfErr};
ghost use Rattle.std.specs.List.{range_with_len};
ghost use Rattle.ix_cells.specs.Bounded.{bounded_new, bounded_push};

use ix_cells::{
    InitError, PolymorphicVec, RelocatableContainer, RelocatableVec, StaticVec, UninitVec, Vector,
    VectorModificationError,
};
use std::alloc::{AllocError, Allocator};

/// Returns a fixed vector, which is stored inline.
pub fn fixed() -> Result<StaticVec<u64, 2>, VectorModificationError>
    ensures { result ≡ Ok (2 ∷ 1 ∷ []) }
{
    let mut vector = StaticVec::<u64, 2>::new();
    vector.push(1)?;
    vector.insert(0, 2)?;
    let _refused = vector.push(3); // Err(InsertWouldExceedCapacity)
    Ok(vector)
}

/// Returns the squares of the numbers below `n`. An allocated vector allocates once, when it is made.
pub fn allocated<A: Allocator>(alloc: A, n: u32) -> Result<PolymorphicVec<u64, A>, AllocError>
    ensures { IfOk result (λ vector. vector.items ≡ map (λ i. i * i) (range_with_len 0 n)) }
{
    let mut squares = PolymorphicVec::new(alloc, n as usize)?;
    for i in 0..n {
        squares.push_unchecked(i as u64 * i as u64);
    }
    Ok(squares)
}

/// Appends `item` to a vector of any kind if there is room, and drops it otherwise.
pub fn push_if_room<T: Drop, V: Vector<T>>(vector: &mut V, item: T)
    ensures { V.bounded vector.new ≡ bounded_push (V.bounded vector.old) item }
{
    if !vector.is_full() {
        vector.push_unchecked(item);
    }
}

/// Returns an empty vector in memory of `first`, or of `second` if the allocation from `first` fails. A relocatable vector is
/// initialised in two phases: it has a capacity first, and memory later.
pub fn relocatable<A: Allocator>(
    first: A,
    second: A,
    capacity: usize,
) -> Result<RelocatableVec<u64, A>, InitError<UninitVec<u64>>>
    ensures vector { IfOk result (λ vector. vector ≡ bounded_new capacity) }
    ensures refused { IfErr result (λ error. error ≡ capacity) }
{
    match UninitVec::new_uninit(capacity).init(first) {
        Ok(vector) => Ok(vector),
        Err(error) => error.into_uninit().init(second),
    }
}
