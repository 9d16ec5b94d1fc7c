//! Vectors and iterators.
ghost use Rattle.std.specs.Prelude.{◌≡◌, ◌+◌, ◌<◌, ◌++◌, length, IfOk, OnOk, OnErr, IsOkUnless};
ghost use Rattle.ix_vector.specs.declared.vector.modification_error.VectorModificationError.TheVariants.{InsertWouldExceedCapacity};

use ix_cells::{PolymorphicVec, StaticVec, Vector, VectorModificationError};
use std::alloc::Allocator;

/// Copies the samples into a vector that is stored inline. Returns an error if there are more than 8.
pub fn stored_inline<A: Allocator>(
    samples: &PolymorphicVec<u64, A>,
) -> Result<StaticVec<u64, 8>, VectorModificationError>
    ensures value { IfOk result (λ copy. copy ≡ samples.now.items) }
    ensures error { IsOkUnless result InsertWouldExceedCapacity }
    ensures full { OnErr result (8 < length samples.now.items) }
{
    StaticVec::try_from_iter(samples.iter().copied())
}

/// Appends all elements of `more`. Returns an error if there is no room for all of them, and appends none then.
pub fn append<V: Vector<u64>>(
    vector: &mut V,
    more: StaticVec<u64, 4>,
) -> Result<(), VectorModificationError>
    ensures appended { OnOk result ((V.bounded vector.new).items
        ≡ (V.bounded vector.old).items ++ more) }
    ensures error { IsOkUnless result InsertWouldExceedCapacity }
    ensures full { OnErr result ((V.bounded vector.old).capacity
        < length (V.bounded vector.old).items + length more) }
    ensures refused { OnErr result (V.bounded vector.new ≡ V.bounded vector.old) }
{
    vector.extend_from_iter(more)
}
