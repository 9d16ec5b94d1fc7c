//! Words of eight bytes: bytes that are packed and unpacked again.
use ix_atomic::{pack_word, unpack_word};
use std::test::Fail;
use test_support::Findings;

#[test]
fn packed_bytes() -> Result<(), Fail> {
    let findings = Findings::new();
    findings.expect_same(pack_word(&[]), 0, "nothing");
    findings.expect_same(pack_word(&[4, 6]), 1540, "4, 6");
    findings.expect_same(pack_word(&[97, 98, 0, 2]), 33579617, "97, 98, 0, 2");
    findings.expect_same(pack_word(&[255; 8]), u64::MAX, "eight times 255");
    let packed = pack_word(&[1, 2, 3, 4, 5, 6, 7, 8]);
    findings.expect_same(packed, 0x0807_0605_0403_0201, "1 to 8");
    findings.verdict()
}

#[test]
fn unpacked_words() -> Result<(), Fail> {
    let findings = Findings::new();
    let mut two = [9; 2];
    unpack_word(1540, &mut two);
    findings.expect_same(two, [4, 6], "1540 to two bytes");
    let mut four = [9; 4];
    unpack_word(33579617, &mut four);
    findings.expect_same(four, [97, 98, 0, 2], "33,579,617 to four bytes");
    let mut one = [9; 1];
    unpack_word(1540, &mut one);
    findings.expect_same(one, [4], "1540 to one byte");
    let mut all = [9; 8];
    unpack_word(0x0807_0605_0403_0201, &mut all);
    findings.expect_same(all, [1, 2, 3, 4, 5, 6, 7, 8], "a whole word");
    let mut none: [u8; 0] = [];
    unpack_word(u64::MAX, &mut none);
    findings.expect_same(none.len(), 0, "to nothing");
    findings.verdict()
}
