//! An example of each method of a table, an array, a counted table or array, a row of slots, and of containers that are initialised
//! in two phases.
use ix_cells::{
    Array, ContainerFamily, Counted, FilledHeapTable, FilledInlineTable, HeapArray, HeapTable,
    InitError, InlineArray, InlineTable, MaybeMoved, MemorySize, PolymorphicVec, RawSlots,
    RelocatableContainer, Table, Touches, Uninit, UninitVec, VecFamily, Vector,
};
use ix_maps::{QueueFamily, UninitQueue};
use ix_string::{String, StringFamily};
use std::alloc::Global;
use std::test::Fail;

// Shows: Table, InlineTable, InlineTable::len
// Shows: InlineTable::new, Table::put, Table::get, Table::take, Table::end
#[test]
fn an_item_is_put_into_a_place_and_taken_out(rt: HostRuntime) {
    let mut table = InlineTable::<char, 2>::new();
    assert!(rt; table.len() == 2);
    table.put(1, 'a');
    assert!(rt; *table.get(1) == 'a');
    assert!(rt; table.take(1) == 'a');
    table.end();
}

// Shows: HeapTable, HeapTable::new, Table::len, Table::get_mut
#[test]
fn a_table_in_memory_of_an_allocator(rt: HostRuntime) -> Result<(), Fail> {
    let mut table = HeapTable::<u64>::new(rt.alloc(), 3)?;
    assert!(rt; table.len() == 3);
    table.put(0, 7);
    *table.get_mut(0) = 8;
    assert!(rt; table.take(0) == 8);
    table.end();
    Ok(())
}

// Shows: MaybeMoved, MaybeMoved::new, MaybeMoved::get, MaybeMoved::get_mut
// Shows: MaybeMoved::take, MaybeMoved::copy_moved, MaybeMoved::into_item
#[test]
fn an_item_that_is_moved_out_leaves_its_bytes(rt: HostRuntime) {
    let mut place = MaybeMoved::new(7u64);
    assert!(rt; *place.get() == 7);
    *place.get_mut() = 8;
    assert!(rt; place.take() == 8);
    let _bytes = place.copy_moved();
    assert!(rt; MaybeMoved::new(9u64).into_item() == 9);
}

// Shows: FilledInlineTable, FilledInlineTable::new, FilledInlineTable::len
#[test]
fn an_inline_table_of_copy_items(rt: HostRuntime) {
    let mut ages = FilledInlineTable::<u16, 3>::new(0);
    assert!(rt; ages.len() == 3);
    ages.put(2, 40);
    assert!(rt; *ages.get(2) == 40);
    assert!(rt; ages.take(2) == 40);
}

// Shows: FilledHeapTable, FilledHeapTable::new, FilledHeapTable::memory_size
#[test]
fn a_table_of_copy_items_in_one_block(rt: HostRuntime) -> Result<(), Fail> {
    let mut ages = FilledHeapTable::<u16>::new(rt.alloc(), 3, 0)?;
    ages.put(2, 40);
    assert!(rt; ages.take(2) == 40);
    let size = FilledHeapTable::<u16>::memory_size(3);
    assert!(rt;
        size == MemorySize {
            bytes: 6,
            blocks: 1
        }
    );
    Ok(())
}

// Shows: Array, InlineArray
// Shows: InlineArray::new, InlineArray::len, Array::get, Array::get_mut
#[test]
fn an_array_has_an_item_in_each_place(rt: HostRuntime) {
    let mut ages = InlineArray::<u16, 3>::new(1);
    assert!(rt; ages.len() == 3);
    *ages.get_mut(0) = 7;
    assert!(rt; (*ages.get(0), *ages.get(2)) == (7, 1));
}

// Shows: HeapArray, HeapArray::new, HeapArray::memory_size, Array::len
#[test]
fn an_array_in_memory_of_an_allocator(rt: HostRuntime) -> Result<(), Fail> {
    let mut ages = HeapArray::<u16>::new(rt.alloc(), 3, 1)?;
    assert!(rt; ages.len() == 3);
    *ages.get_mut(0) = 7;
    assert!(rt; (*ages.get(0), *ages.get(2)) == (7, 1));
    let size = HeapArray::<u16>::memory_size(3);
    assert!(rt;
        size == MemorySize {
            bytes: 6,
            blocks: 1
        }
    );
    Ok(())
}

// Shows: fmt::Debug for InlineArray, fmt::Debug for HeapArray
#[test]
fn an_array_prints_its_items(rt: HostRuntime) -> Result<(), Fail> {
    let inline = InlineArray::<u16, 2>::new(1);
    let allocated = HeapArray::<char>::new(rt.alloc(), 3, 'a')?;
    let text = format!(in rt.alloc(); "{inline:?} {allocated:?}")?;
    assert!(rt; text.as_str() == "[1, 1] ['a', 'a', 'a']");
    Ok(())
}

// Shows: MemorySize, HeapTable::memory_size
#[test]
fn how_much_memory_a_table_takes(rt: HostRuntime) {
    let size = HeapTable::<u64>::memory_size(100);
    assert!(rt;
        size == MemorySize {
            bytes: 900,
            blocks: 2
        }
    );
}

// Shows: MemorySize::of_items, MemorySize::saturating_add
#[test]
fn how_much_memory_two_blocks_take(rt: HostRuntime) {
    let size = MemorySize::of_items::<u64>(3);
    assert!(rt;
        size == MemorySize {
            bytes: 24,
            blocks: 1
        }
    );
    let both = size.saturating_add(MemorySize::of_items::<u8>(5));
    assert!(rt;
        both == MemorySize {
            bytes: 29,
            blocks: 2
        }
    );
}

// Shows: RawSlots, RawSlots::new, RawSlots::len, RawSlots::put, RawSlots::get, RawSlots::get_mut
// Shows: RawSlots::take, RawSlots::end
#[test]
fn a_row_of_places(rt: HostRuntime) -> Result<(), Fail> {
    let mut slots = RawSlots::<u64>::new(rt.alloc(), 3)?;
    assert!(rt; slots.len() == 3);
    slots.put(0, 7);
    *slots.get_mut(0) = 8;
    assert!(rt; *slots.get(0) == 8);
    assert!(rt; slots.take(0) == 8);
    slots.end();
    Ok(())
}

// Shows: RawSlots::memory_size
#[test]
fn how_much_memory_a_row_of_places_takes(rt: HostRuntime) {
    let size = RawSlots::<u64>::memory_size(100);
    assert!(rt;
        size == MemorySize {
            bytes: 900,
            blocks: 2
        }
    );
}

// Shows: Touches, Counted
// Shows: Touches::new, Counted::new, Counted::len, Counted::put, Counted::get, Counted::get_mut
// Shows: Counted::take, Counted::end
#[test]
fn a_table_whose_calls_are_counted(rt: HostRuntime) {
    let mut touches = Touches::new();
    let mut table = Counted::new(InlineTable::<u64, 2>::new());
    assert!(rt; table.len() == 2);
    table.put(1, 7, &mut touches);
    *table.get_mut(1, &mut touches) = 8;
    assert!(rt; *table.get(1, &mut touches) == 8);
    assert!(rt; table.take(1, &mut touches) == 8);
    table.end();
}

// Shows: Counted::item, Counted::item_mut
#[test]
fn an_array_whose_calls_are_counted(rt: HostRuntime) {
    let mut touches = Touches::new();
    let mut array = Counted::new(InlineArray::<u64, 2>::new(7));
    *array.item_mut(1, &mut touches) = 8;
    assert!(rt; *array.item(0, &mut touches) == 7);
    assert!(rt; *array.item(1, &mut touches) == 8);
}

// Shows: RelocatableContainer, RelocatableContainer::new_uninit, RelocatableContainer::init
#[test]
fn a_container_of_any_kind_that_is_made_in_two_steps(rt: HostRuntime) -> Result<(), Fail> {
    fn of_two<U: RelocatableContainer<Global>>(alloc: Global) -> Result<U::Ready, InitError<U>> {
        U::new_uninit(2).init(alloc)
    }
    let mut vector = of_two::<UninitVec<u64>>(rt.alloc())?;
    assert!(rt; vector.push(1) == Ok(()));
    let mut queue = of_two::<UninitQueue<u64>>(rt.alloc())?;
    assert!(rt; queue.push(1));
    Ok(())
}

// Shows: InitError, InitError::new, InitError::into_uninit
#[test]
fn what_was_not_initialised_is_tried_again(rt: HostRuntime) -> Result<(), Fail> {
    let error = InitError::new(UninitVec::<u64>::new_uninit(2));
    let vector = error.into_uninit().init(rt.alloc())?;
    assert!(rt; vector.capacity() == 2);
    Ok(())
}

// Shows: Uninit, Uninit::new_uninit, Uninit::init
#[test]
fn a_capacity_without_memory(rt: HostRuntime) -> Result<(), Fail> {
    let uninit = Uninit::<VecFamily<u64>>::new_uninit(2);
    let vector = uninit.init(rt.alloc())?;
    assert!(rt; vector.capacity() == 2);
    Ok(())
}

// Shows: ContainerFamily, ContainerFamily::with_capacity, ContainerFamily<A> for VecFamily
// Shows: ContainerFamily<A> for StringFamily, ContainerFamily<A> for QueueFamily
#[test]
fn a_container_of_a_family(rt: HostRuntime) -> Result<(), Fail> {
    let vector = VecFamily::<u64>::with_capacity(rt.alloc(), 2)?;
    assert!(rt; vector.capacity() == 2);
    let string = StringFamily::with_capacity(rt.alloc(), 3)?;
    assert!(rt; string.capacity() == 3);
    let queue = QueueFamily::<u64>::with_capacity(rt.alloc(), 4)?;
    assert!(rt; queue.capacity() == 4);
    Ok(())
}
