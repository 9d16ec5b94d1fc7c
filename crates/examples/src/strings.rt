//! A string of each kind.
ghost use Rattle.std.specs.Prelude.{◌≡◌, ◌↔◌, ◌≤◌, ◌+◌, ◌++◌, length, Ok, codes, IsSome, IfSome, IfOk, IfErr};
ghost use Rattle.ix_cells.specs.Bounded.{bounded_new};
ghost use Rattle.ix_string.specs.Text.{IsText};

use ix_cells::{InitError, RelocatableContainer};
use ix_string::{
    PolymorphicString, RelocatableString, StaticString, String, StringModificationError,
    UninitString,
};
use std::alloc::{AllocError, Allocator};

/// Returns a fixed string, which is stored inline. It holds bytes from 1 to 127.
pub fn fixed() -> Result<StaticString<8>, StringModificationError>
    ensures { result ≡ Ok (codes "hello") }
{
    let mut string = StaticString::<8>::from_bytes(b"ho")?;
    string.insert_bytes(1, b"ell")?;
    let _refused = string.push(0); // Err(InvalidCharacter)
    Ok(string)
}

/// Returns `folder`, a slash and `name`, or `None` if that is longer than 64 bytes or has a byte that is 0 or above 127. An
/// allocated string allocates once, when it is made.
pub fn allocated<A: Allocator>(
    alloc: A,
    folder: &[u8],
    name: &[u8],
) -> Result<Option<PolymorphicString<A>>, AllocError>
    ensures path { IfOk result (λ path.
        IfSome path (λ path. path.items ≡ folder.now ++ codes "/" ++ name.now)) }
    ensures accepted { IfOk result (λ path. IsSome path
        ↔ (IsText folder.now × IsText name.now × (length folder.now + 1 + length name.now ≤ 64))) }
{
    let mut path = PolymorphicString::new(alloc, 64)?;
    if path.push_bytes(folder).is_err()
        || path.push(b'/').is_err()
        || path.push_bytes(name).is_err()
    {
        return Ok(None);
    }
    Ok(Some(path))
}

/// Returns an empty string in memory of `first`, or of `second` if the allocation from `first` fails. A relocatable string is
/// initialised in two phases: it has a capacity first, and memory later.
pub fn relocatable<A: Allocator>(
    first: A,
    second: A,
    capacity: usize,
) -> Result<RelocatableString<A>, InitError<UninitString>>
    ensures string { IfOk result (λ string. string ≡ bounded_new capacity) }
    ensures refused { IfErr result (λ error. error ≡ capacity) }
{
    match UninitString::new_uninit(capacity).init(first) {
        Ok(string) => Ok(string),
        Err(error) => error.into_uninit().init(second),
    }
}
