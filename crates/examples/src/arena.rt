//! Two containers in one arena, and an arena with room for one queue.
ghost use Rattle.std.specs.Prelude.{◌≡◌, IfOk};
ghost use Rattle.ix_cells.specs.Bounded.{bounded_new};

use bumpalo::Bump;
use ix_maps::Queue;
use ix_string::{PolymorphicString, String};
use std::alloc::{AllocError, Global};
use std::io;

/// A connection with its containers, in the memory of one arena. The arena frees all of it when it is dropped or reset.
#[derive(Drop)]
pub struct Connection<'a> {
    pub inbox: Queue<u64, &'a Bump>,
    pub path: PolymorphicString<&'a Bump>,
}

/// Returns a connection with an empty inbox for `backlog` messages, and a path of at most 64 bytes.
pub fn connect(arena: &Bump, backlog: usize) -> Result<Connection<'_>, AllocError>
    ensures inbox { IfOk result (λ connection. connection.inbox ≡ bounded_new backlog) }
    ensures path { IfOk result (λ connection. connection.path ≡ bounded_new 64) }
{
    let inbox = Queue::new(arena, backlog)?;
    let path = PolymorphicString::new(arena, 64)?;
    Ok(Connection { inbox, path })
}

/// Prints the path of a connection as it is, with no escapes.
pub fn print_path(rt: &HostRuntime, connection: &Connection<'_>) -> io::Result<()> {
    let path = connection.path.as_str();
    println!(rt; "{path}")?;
    Ok(())
}

/// Makes a queue in an arena that has room for this queue alone, and returns how many numbers the queue has room for.
pub fn room_in_arena(alloc: Global, capacity: usize) -> Result<usize, AllocError>
    ensures { IfOk result (λ room. room ≡ capacity) }
{
    let size = Queue::<u64>::memory_size(capacity);
    // An allocation may be aligned by up to 16 bytes.
    let bytes = size.blocks.saturating_mul(16).saturating_add(size.bytes);
    let arena = Bump::try_with_capacity(alloc, bytes)?;
    let queue = Queue::<u64, _>::new(&arena, capacity)?;
    Ok(queue.remaining_capacity())
}
