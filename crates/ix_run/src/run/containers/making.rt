//! The container that a header asks for.
ghost use Rattle.std.specs.Prelude.{◌≤◌, IfSome};
ghost use Rattle.ix_tables.specs.declared.cells.table.TheConstants.{MAX_FIXED_CAPACITY};
ghost use Rattle.ix_run.specs.Headers.{capacity_of, fixed_capacity};
ghost use Rattle.ix_run.specs.inner.Input.{lines_to_come};
ghost use Rattle.ix_run.specs.inner.Progress.{ReplyResult};
ghost use Rattle.ix_run.specs.Script.{replies_from_ready, replies_from_header};
ghost use Rattle.ix_run.specs.inner.Containers.{IsEmptyContainer};
ghost use Rattle.ix_run.specs.declared.run.grammar.header.Container.{Container};

use crate::run::containers::flatmap::FlatMaps;
use crate::run::containers::queue::Queues;
use crate::run::containers::served::Served;
use crate::run::containers::serving::{serve, serve_made};
use crate::run::containers::slotmap::SlotMaps;
use crate::run::containers::slottable::SlotTables;
use crate::run::containers::string::Strings;
use crate::run::containers::vector::Vectors;
use crate::run::devices::{LineReader, ReplyWriter};
use crate::run::{Container, FixedCapacity, Header, ScriptFault, Storage};
use bumpalo::Bump;
use std::alloc::{Allocator, Global};
use std::io::{Read, Write};

/// A container that headers name.
pub(crate) trait Named {
    ghost container: { Self → Container };
}

/// A container that is stored inline, with a capacity of `N`.
pub(crate) trait MakesInline<const N: usize>: Named {
    type Inline: Served + Drop;

    /// Returns an empty container.
    fn inline(self) -> Self::Inline
        requires { N ≤ MAX_FIXED_CAPACITY }
        ensures { IsEmptyContainer Self.Inline.reply Self.Inline.after Self.Inline.shown
            (Self.Inline.model result) (Self.container self) N };
}

/// A container that is stored in memory of `A`.
pub(crate) trait MakesIn<A: Allocator>: Named {
    type Made: Served + Drop;

    /// Returns an empty container, or `None` if the allocation fails.
    fn make(self, alloc: A, capacity: usize) -> Option<Self::Made>
        ensures { IfSome result (λ made.
            IsEmptyContainer Self.Made.reply Self.Made.after Self.Made.shown
            (Self.Made.model made) (Self.container self) capacity) };
}

/// Makes a container that is stored inline, and replies to the lines that come.
fn serve_inline<const N: usize, C: MakesInline<N>, R: Read, W: Write>(
    maker: C,
    lines: &mut LineReader<'_, R>,
    replies: &mut ReplyWriter<'_, W>,
) -> Result<(), ScriptFault>
    requires capacity { N ≤ MAX_FIXED_CAPACITY }
    ensures { ReplyResult R.remaining W.contents (lines.old, replies.old)
        (λ more. replies_from_ready (C.container maker) N (lines_to_come lines.old.buffer more))
        (lines.new, replies.new) result }
{
    serve(maker.inline(), lines, replies)
}

/// Makes a container of a capacity that headers name for the fixed kinds, and replies to the lines that come.
fn serve_fixed<
    C: MakesInline<0> + MakesInline<1> + MakesInline<3> + MakesInline<8>,
    R: Read,
    W: Write,
>(
    maker: C,
    capacity: FixedCapacity,
    lines: &mut LineReader<'_, R>,
    replies: &mut ReplyWriter<'_, W>,
) -> Result<(), ScriptFault>
    ensures { ReplyResult R.remaining W.contents (lines.old, replies.old)
        (λ more. replies_from_ready (C.container maker) (fixed_capacity capacity)
        (lines_to_come lines.old.buffer more))
        (lines.new, replies.new) result }
{
    match capacity {
        FixedCapacity::Zero => serve_inline::<0, C, R, W>(maker, lines, replies),
        FixedCapacity::One => serve_inline::<1, C, R, W>(maker, lines, replies),
        FixedCapacity::Three => serve_inline::<3, C, R, W>(maker, lines, replies),
        FixedCapacity::Eight => serve_inline::<8, C, R, W>(maker, lines, replies),
    }
}

/// Makes a container in the storage, and replies to the lines that come.
fn serve_storage<
    'a,
    C: MakesInline<0>
        + MakesInline<1>
        + MakesInline<3>
        + MakesInline<8>
        + MakesIn<Global>
        + MakesIn<&'a Bump<Global>>,
    R: Read,
    W: Write,
>(
    arena: &'a Bump<Global>,
    alloc: Global,
    maker: C,
    storage: Storage,
    lines: &mut LineReader<'_, R>,
    replies: &mut ReplyWriter<'_, W>,
) -> Result<(), ScriptFault>
    ensures { ReplyResult R.remaining W.contents (lines.old, replies.old)
        (λ more. replies_from_ready (C.container maker) (capacity_of storage)
        (lines_to_come lines.old.buffer more))
        (lines.new, replies.new) result }
{
    match storage {
        Storage::Fixed(capacity) => serve_fixed(maker, capacity, lines, replies),
        Storage::Heap(capacity) => serve_made(maker.make(alloc, capacity), lines, replies),
        Storage::Arena(capacity) => serve_made(maker.make(arena, capacity), lines, replies),
    }
}

/// Makes the container that the header asks for, and replies to the lines that come.
fn serve_header_in<'a, R: Read, W: Write>(
    arena: &'a Bump<Global>,
    alloc: Global,
    header: Header,
    lines: &mut LineReader<'_, R>,
    replies: &mut ReplyWriter<'_, W>,
) -> Result<(), ScriptFault>
    ensures { ReplyResult R.remaining W.contents (lines.old, replies.old)
        (λ more. replies_from_header header (lines_to_come lines.old.buffer more))
        (lines.new, replies.new) result }
{
    let storage = header.storage;
    match header.container {
        Container::Queue => serve_storage(arena, alloc, Queues, storage, lines, replies),
        Container::Vector => serve_storage(arena, alloc, Vectors, storage, lines, replies),
        Container::SlotTable => serve_storage(arena, alloc, SlotTables, storage, lines, replies),
        Container::SlotMap(start) => serve_storage(
            arena,
            alloc,
            SlotMaps { start },
            storage,
            lines,
            replies,
        ),
        Container::FlatMap => serve_storage(arena, alloc, FlatMaps, storage, lines, replies),
        Container::String => serve_storage(arena, alloc, Strings, storage, lines, replies),
    }
}

/// Makes the container that the header asks for, and replies to the lines that come. An arena is made in any case; it
/// allocates nothing for itself.
pub(crate) fn serve_header<R: Read, W: Write>(
    alloc: Global,
    header: Header,
    lines: &mut LineReader<'_, R>,
    replies: &mut ReplyWriter<'_, W>,
) -> Result<(), ScriptFault>
    ensures { ReplyResult R.remaining W.contents (lines.old, replies.old)
        (λ more. replies_from_header header (lines_to_come lines.old.buffer more))
        (lines.new, replies.new) result }
{
    let arena = Bump::new(alloc);
    serve_header_in(&arena, alloc, header, lines, replies)
}
