//! Lines of a script for a vector.
ghost use Rattle.std.specs.Prelude.{◌≡◌};

use crate::run::containers::making::{MakesIn, MakesInline, Named};
use crate::run::containers::served::Served;
use crate::run::devices::{MAX_NUMBERS, ReplyWriter};
use crate::run::replies::append_items;
use crate::run::{Reply, Runs, ScriptFault, read_vector_command};
use ix_tables::RelocatableContainer;
use ix_vector::{RelocatableVec, StaticVec, UninitVec, Vector};
use std::alloc::Allocator;
use std::io::Write;

/// A vector, and room for the numbers of a line.
#[derive(Drop)]
pub(crate) struct VectorLines<V: Vector<u64>> {
    vector: V,
    numbers: [u64; MAX_NUMBERS],
}

impl<V: Vector<u64>> VectorLines<V> {
    pub(crate) fn new(vector: V) -> VectorLines<V>
        ensures { V.bounded result.vector ≡ V.bounded vector }
    {
        VectorLines {
            vector,
            numbers: [0; MAX_NUMBERS],
        }
    }
}

impl<V: Vector<u64>> Served for VectorLines<V> {
    ghost use Rattle.std.specs.Prelude.{ℕ};
    ghost use Rattle.ix_tables.specs.Bounded.{Bounded};
    ghost use Rattle.ix_commands.specs.VectorRun.{vector_reply, vector_after};
    ghost use Rattle.ix_run.specs.Forms.{vector_forms};
    ghost use Rattle.ix_run.specs.Script.{spelled_reply, spelled_after, list_shown};

    type Key = usize;

    ghost Model = { Bounded ℕ };

    ghost model = { λ lines. V.bounded lines.vector };

    ghost reply = { spelled_reply vector_forms vector_reply };

    ghost after = { spelled_after vector_forms vector_after };

    ghost shown = { list_shown };

    #[inline]
    fn run_line(&mut self, line: &[u8]) -> Option<Reply<usize, u64>> {
        let command = read_vector_command(line, &mut self.numbers)?;
        Some(self.vector.run_command(command))
    }

    fn show<W: Write>(&self, replies: &mut ReplyWriter<'_, W>) -> Result<(), ScriptFault> {
        append_items(replies, self.vector.as_slice().iter())
    }
}

/// The vectors that headers name.
#[derive(Drop)]
pub(crate) struct Vectors;

impl Named for Vectors {
    ghost use Rattle.ix_run.specs.declared.run.grammar.header.Container.TheVariants as container;

    ghost container = { λ maker. container.Vector };
}

impl<const N: usize> MakesInline<N> for Vectors {
    type Inline = VectorLines<StaticVec<u64, N>>;

    fn inline(self) -> VectorLines<StaticVec<u64, N>> {
        VectorLines::new(StaticVec::new())
    }
}

impl<A: Allocator + Copy> MakesIn<A> for Vectors {
    type Made = VectorLines<RelocatableVec<u64, A>>;

    fn make(self, alloc: A, capacity: usize) -> Option<VectorLines<RelocatableVec<u64, A>>> {
        Some(VectorLines::new(UninitVec::new_uninit(capacity).init(alloc).ok()?))
    }
}
