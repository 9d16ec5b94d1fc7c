//! Lines of a script for a slot table.
ghost use Rattle.ix_run.specs.ReplyTexts.{entry_text};

use crate::run::containers::making::{MakesIn, MakesInline, Named};
use crate::run::containers::served::Served;
use crate::run::devices::{ReplyBuffer, ReplyWriter};
use crate::run::replies::{ListedItem, append_items};
use crate::run::{Reply, Runs, ScriptFault, read_slot_table_command};
use ix_slottable::{
    FixedSizeSlotTable, MetaSlotTable, RelocatableSlotTable, SlotTableKey, Storage, UninitSlotTable,
};
use ix_tables::RelocatableContainer;
use std::alloc::Allocator;
use std::io::Write;

/// A key with its value.
impl<'a> ListedItem for (SlotTableKey, &'a u64) {
    ghost text = { λ entry. entry_text (entry.0, entry.1.now) };

    fn put_into(self, replies: &mut ReplyBuffer) {
        let (key, value) = self;
        replies.put_number(key.value() as u64);
        replies.put(b"=");
        replies.put_number(*value);
    }
}

impl<M: Storage<u64>> Served for MetaSlotTable<u64, M> {
    ghost use Rattle.std.specs.Prelude.{ℕ};
    ghost use Rattle.ix_slottable.specs.SlotTableState.{SlotTableState};
    ghost use Rattle.ix_commands.specs.SlotTableRun.{slot_table_reply, slot_table_after};
    ghost use Rattle.ix_run.specs.Forms.{slot_table_forms};
    ghost use Rattle.ix_run.specs.Script.{spelled_reply, spelled_after, slot_table_shown};

    type Key = usize;

    ghost Model = { SlotTableState ℕ };

    ghost model = { λ map. map };

    ghost reply = { spelled_reply slot_table_forms slot_table_reply };

    ghost after = { spelled_after slot_table_forms slot_table_after };

    ghost shown = { slot_table_shown };

    #[inline]
    fn run_line(&mut self, line: &[u8]) -> Option<Reply<usize, u64>> {
        let command = read_slot_table_command(line)?;
        Some(self.run_command(command))
    }

    fn show<W: Write>(&self, replies: &mut ReplyWriter<'_, W>) -> Result<(), ScriptFault> {
        append_items(replies, self.iter())
    }
}

/// The slot tables that headers name.
#[derive(Drop)]
pub(crate) struct SlotTables;

impl Named for SlotTables {
    ghost use Rattle.ix_run.specs.declared.run.grammar.header.Container.TheVariants as container;

    ghost container = { λ maker. container.SlotTable };
}

impl<const N: usize> MakesInline<N> for SlotTables {
    type Inline = FixedSizeSlotTable<u64, N>;

    fn inline(self) -> FixedSizeSlotTable<u64, N> {
        FixedSizeSlotTable::new()
    }
}

impl<A: Allocator + Copy> MakesIn<A> for SlotTables {
    type Made = RelocatableSlotTable<u64, A>;

    fn make(self, alloc: A, capacity: usize) -> Option<RelocatableSlotTable<u64, A>> {
        UninitSlotTable::new_uninit(capacity).init(alloc).ok()
    }
}
