//! Lines of a script for a flat map.
use crate::run::containers::making::{MakesIn, MakesInline, Named};
use crate::run::containers::served::Served;
use crate::run::devices::ReplyWriter;
use crate::run::replies::append_items;
use crate::run::{Reply, Runs, ScriptFault, read_map_command};
use ix_flatmap::{FixedSizeFlatMap, MetaFlatMap, Pair, RelocatableFlatMap, UninitFlatMap};
use ix_slottable::Storage;
use ix_tables::RelocatableContainer;
use std::alloc::Allocator;
use std::io::Write;

impl<M: Storage<Pair<u64, u64>>> Served for MetaFlatMap<Pair<u64, u64>, M> {
    ghost use Rattle.std.specs.Prelude.{ℕ, nat_eq};
    ghost use Rattle.ix_slottable.specs.SlotTableState.{SlotTableState};
    ghost use Rattle.ix_flatmap.specs.declared.flatmap.Pair.{Pair};
    ghost use Rattle.ix_commands.specs.MapRun.{map_reply, map_after};
    ghost use Rattle.ix_run.specs.Forms.{map_forms};
    ghost use Rattle.ix_run.specs.Script.{spelled_reply, spelled_after, map_shown};

    type Key = u64;

    ghost Model = { SlotTableState (Pair ℕ ℕ) };

    ghost model = { λ map. map };

    ghost reply = { spelled_reply map_forms (map_reply nat_eq) };

    ghost after = { spelled_after map_forms (map_after nat_eq) };

    ghost shown = { map_shown };

    #[inline]
    fn run_line(&mut self, line: &[u8]) -> Option<Reply<u64, u64>> {
        let command = read_map_command(line)?;
        Some(self.run_command(command))
    }

    fn show<W: Write>(&self, replies: &mut ReplyWriter<'_, W>) -> Result<(), ScriptFault> {
        append_items(replies, self.keys())
    }
}

/// The flat maps that headers name.
#[derive(Drop)]
pub(crate) struct FlatMaps;

impl Named for FlatMaps {
    ghost use Rattle.ix_run.specs.declared.run.grammar.header.Container.TheVariants as container;

    ghost container = { λ maker. container.FlatMap };
}

impl<const N: usize> MakesInline<N> for FlatMaps {
    type Inline = FixedSizeFlatMap<u64, u64, N>;

    fn inline(self) -> FixedSizeFlatMap<u64, u64, N> {
        FixedSizeFlatMap::new()
    }
}

impl<A: Allocator + Copy> MakesIn<A> for FlatMaps {
    type Made = RelocatableFlatMap<u64, u64, A>;

    fn make(self, alloc: A, capacity: usize) -> Option<RelocatableFlatMap<u64, u64, A>> {
        UninitFlatMap::new_uninit(capacity).init(alloc).ok()
    }
}
