//! An example of each method of a byte-wise atomic cell, of encodings, and of the words that bytes make.
use ix_atomic::{
    AtomicCopy, FixedSizeByteAtomic, MaybeTorn, RelocatableByteAtomic, UninitByteAtomic, pack_word,
    unpack_word,
};
use ix_string::StaticString;
use std::test::Fail;

// Shows: AtomicCopy, AtomicCopy::encode, AtomicCopy::decode
#[test]
fn the_bytes_of_a_number(rt: HostRuntime) {
    let mut bytes = [0; 2];
    258u16.encode(&mut bytes);
    assert!(rt; bytes == [2, 1]);
    assert!(rt; u16::decode(&bytes) == Some(258));
    assert!(rt; bool::decode(&[2]) == None);
}

// Shows: FixedSizeByteAtomic
// Shows: FixedSizeByteAtomic::new, FixedSizeByteAtomic::write, FixedSizeByteAtomic::read
#[test]
fn a_cell_that_is_stored_inline(rt: HostRuntime) {
    let cell = FixedSizeByteAtomic::<u64, 8>::new(1);
    cell.write(2);
    assert!(rt; cell.read().assume_consistent() == Some(2));
}

// Shows: RelocatableByteAtomic, RelocatableByteAtomic::new_uninit, RelocatableByteAtomic::write
// Shows: RelocatableByteAtomic::read
#[test]
fn a_cell_in_memory_of_an_allocator(rt: HostRuntime) -> Result<(), Fail> {
    let uninit = RelocatableByteAtomic::<u64, 8>::new_uninit();
    let cell = uninit.init(rt.alloc(), 1)?;
    cell.write(2);
    assert!(rt; cell.read().assume_consistent() == Some(2));
    Ok(())
}

// Shows: UninitByteAtomic, UninitByteAtomic::new_uninit, UninitByteAtomic::init
#[test]
fn a_cell_that_is_made_in_two_steps(rt: HostRuntime) -> Result<(), Fail> {
    let uninit = UninitByteAtomic::<bool, 1>::new_uninit();
    let cell = match uninit.init(rt.alloc(), true) {
        Ok(cell) => cell,
        Err(error) => error.into_uninit().init(rt.alloc(), true)?, // once more
    };
    assert!(rt; cell.read().assume_consistent() == Some(true));
    Ok(())
}

// Shows: MaybeTorn, MaybeTorn::new, MaybeTorn::assume_consistent
#[test]
fn bytes_that_were_read_may_be_no_value(rt: HostRuntime) {
    assert!(rt; MaybeTorn::<bool, 1>::new([1]).assume_consistent() == Some(true));
    assert!(rt; MaybeTorn::<bool, 1>::new([2]).assume_consistent() == None);
}

// Shows: ix_atomic::byte_atomic::pack_word, ix_atomic::byte_atomic::unpack_word
#[test]
fn one_number_of_up_to_eight_bytes(rt: HostRuntime) {
    assert!(rt; pack_word(&[4, 6]) == 1540); // 4 + 256 * 6
    let mut bytes = [0; 2];
    unpack_word(1540, &mut bytes);
    assert!(rt; bytes == [4, 6]);
}

// Shows: AtomicCopy for i32, AtomicCopy for usize, AtomicCopy for u128
#[test]
fn the_bytes_of_numbers_of_other_sizes(rt: HostRuntime) {
    let mut bytes = [0; 4];
    (-2i32).encode(&mut bytes);
    assert!(rt; bytes == [254, 255, 255, 255]);
    assert!(rt; usize::decode(&[7, 0, 0, 0, 0, 0, 0, 0]) == Some(7));
    assert!(rt; u128::decode(&[255; 16]) == Some(u128::MAX));
}

// Shows: AtomicCopy for (A, B), AtomicCopy for [T; N], AtomicCopy for StaticString
#[test]
fn a_cell_of_several_values(rt: HostRuntime) {
    let cell = FixedSizeByteAtomic::<(u8, [u32; 2]), 9>::new((1, [2, 3]));
    assert!(rt; cell.read().assume_consistent() == Some((1, [2, 3])));
    let name = FixedSizeByteAtomic::<StaticString<8>, 8>::new(StaticString::new());
    assert!(rt; name.read().assume_consistent() == Some(StaticString::new()));
}
