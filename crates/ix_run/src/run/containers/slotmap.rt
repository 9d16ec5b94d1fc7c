//! Lines of a script for a slot map.
ghost use Rattle.std.specs.Prelude.{◌≡◌};
ghost use Rattle.ix_run.specs.Headers.{first_generation};
ghost use Rattle.ix_run.specs.ReplyTexts.{key_entry_text};

use crate::run::containers::making::{MakesIn, MakesInline, Named};
use crate::run::containers::served::Served;
use crate::run::devices::{ReplyBuffer, ReplyWriter};
use crate::run::replies::{ListedItem, ReplyKey, append_items};
use crate::run::{Reply, Runs, ScriptFault, read_slot_map_command};
use ix_slotmap::{
    FixedSizeSlotMap, MetaSlotMap, RelocatableSlotMap, SlotMapKey, SlotMapStorage, UninitSlotMap,
};
use ix_tables::{MaybeMoved, RelocatableContainer};
use std::alloc::Allocator;
use std::io::Write;

/// A key with its value.
impl<'a> ListedItem for (SlotMapKey, &'a u64) {
    ghost text = { λ entry. key_entry_text (entry.0, entry.1.now) };

    fn put_into(self, replies: &mut ReplyBuffer) {
        let (key, value) = self;
        key.put_into(replies);
        replies.put(b"=");
        replies.put_number(*value);
    }
}

impl<M: SlotMapStorage<MaybeMoved<u64>>> Served for MetaSlotMap<u64, MaybeMoved<u64>, M> {
    ghost use Rattle.std.specs.Prelude.{ℕ};
    ghost use Rattle.ix_slotmap.specs.Generations.{SlotMapState};
    ghost use Rattle.ix_run.specs.Script.{slot_map_line_reply, slot_map_line_after, slot_map_shown};

    type Key = SlotMapKey;

    ghost Model = { SlotMapState ℕ };

    ghost model = { λ map. map };

    ghost reply = { slot_map_line_reply };

    ghost after = { slot_map_line_after };

    ghost shown = { slot_map_shown };

    #[inline]
    fn run_line(&mut self, line: &[u8]) -> Option<Reply<SlotMapKey, u64>> {
        let command = read_slot_map_command(line)?;
        Some(self.run_command(command))
    }

    fn show<W: Write>(&self, replies: &mut ReplyWriter<'_, W>) -> Result<(), ScriptFault> {
        append_items(replies, self.iter())
    }
}

/// The slot maps that headers name, with the generation of their slots at first, if the header says it.
#[derive(Drop)]
pub(crate) struct SlotMaps {
    pub(crate) start: Option<u32>,
}

impl SlotMaps {
    /// Returns the generation of the slots at first: 0 if the header does not say it.
    fn generation(&self) -> u32
        ensures { result ≡ first_generation self.now.start }
    {
        self.start.unwrap_or(0)
    }
}

impl Named for SlotMaps {
    ghost use Rattle.ix_run.specs.declared.run.grammar.header.Container.TheVariants as container;

    ghost container = { λ maker. container.SlotMap maker.start };
}

impl<const N: usize> MakesInline<N> for SlotMaps {
    type Inline = FixedSizeSlotMap<u64, N>;

    fn inline(self) -> FixedSizeSlotMap<u64, N> {
        FixedSizeSlotMap::starting_at(self.generation())
    }
}

impl<A: Allocator + Copy> MakesIn<A> for SlotMaps {
    type Made = RelocatableSlotMap<u64, A>;

    fn make(self, alloc: A, capacity: usize) -> Option<RelocatableSlotMap<u64, A>> {
        UninitSlotMap::starting_at(capacity, self.generation())
            .init(alloc)
            .ok()
    }
}
