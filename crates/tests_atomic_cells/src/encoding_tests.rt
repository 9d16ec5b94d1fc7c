//! The encoding of each type, both ways, and bytes that encode no value.
ghost use Rattle.std.specs.Prelude.{◌≡◌, ◌<◌};

use crate::foo::Foo;
use ix_atomic::{AtomicCopy, MaybeTorn};
use ix_string::StaticString;
use std::fmt::Debug;
use std::test::Fail;
use test_support::Findings;

/// Checks that `value` is encoded as `bytes`, and decoded from them.
pub fn check<T: AtomicCopy + PartialEq + Debug, const SIZE: usize>(
    findings: &Findings,
    value: T,
    bytes: [u8; SIZE],
    place: &str,
)
    requires { SIZE ≡ T.SIZE }
{
    findings.expect_same(T::SIZE, SIZE, place);
    let mut out = [9; SIZE];
    value.encode(&mut out);
    findings.expect_same(out.as_slice(), bytes.as_slice(), place);
    findings.expect_same(T::decode(&bytes), Some(value), place);
    let torn = MaybeTorn::<T, SIZE>::new(bytes);
    findings.expect_same(torn.assume_consistent(), Some(value), place);
}

/// Checks that no value is decoded from `bytes`.
pub fn check_none<T: AtomicCopy + PartialEq + Debug, const SIZE: usize>(
    findings: &Findings,
    bytes: [u8; SIZE],
    place: &str,
)
    requires { SIZE ≡ T.SIZE }
{
    findings.expect_same(T::decode(&bytes), None, place);
    let torn = MaybeTorn::<T, SIZE>::new(bytes);
    findings.expect_same(torn.assume_consistent(), None, place);
}

#[test]
fn integers() -> Result<(), Fail> {
    let findings = Findings::new();
    check(&findings, 0u8, [0], "u8");
    check(&findings, 255u8, [255], "u8");
    check(&findings, 0x1234u16, [0x34, 0x12], "u16");
    check(&findings, 0x1234_5678u32, [0x78, 0x56, 0x34, 0x12], "u32");
    check(&findings, 6u64, [6, 0, 0, 0, 0, 0, 0, 0], "u64");
    check(&findings, u64::MAX, [255; 8], "u64");
    let rising = 0x0102_0304_0506_0708u64;
    check(&findings, rising, [8, 7, 6, 5, 4, 3, 2, 1], "u64");
    check(&findings, 5i64, [5, 0, 0, 0, 0, 0, 0, 0], "i64");
    check(&findings, -1i64, [255; 8], "i64");
    let bytes = [0, 255, 255, 255, 255, 255, 255, 255];
    check(&findings, -256i64, bytes, "i64");
    check(&findings, i64::MIN, [0, 0, 0, 0, 0, 0, 0, 128], "i64");
    let bytes = [255, 255, 255, 255, 255, 255, 255, 127];
    check(&findings, i64::MAX, bytes, "i64");
    findings.verdict()
}

/// The least and the greatest number of each type, and numbers between.
#[test]
fn signed_integers() -> Result<(), Fail> {
    let findings = Findings::new();
    check(&findings, 0i8, [0], "i8");
    check(&findings, 127i8, [127], "i8");
    check(&findings, -1i8, [255], "i8");
    check(&findings, -128i8, [128], "i8");
    check(&findings, 258i16, [2, 1], "i16");
    check(&findings, -2i16, [254, 255], "i16");
    check(&findings, -32_768i16, [0, 128], "i16");
    check(&findings, 32_767i16, [255, 127], "i16");
    check(&findings, 0x0102_0304i32, [4, 3, 2, 1], "i32");
    check(&findings, -256i32, [0, 255, 255, 255], "i32");
    check(&findings, i32::MIN, [0, 0, 0, 128], "i32");
    check(&findings, i32::MAX, [255, 255, 255, 127], "i32");
    check(&findings, 258isize, [2, 1, 0, 0, 0, 0, 0, 0], "isize");
    check(&findings, -1isize, [255; 8], "isize");
    check(&findings, isize::MIN, [0, 0, 0, 0, 0, 0, 0, 128], "isize");
    let bytes = [255, 255, 255, 255, 255, 255, 255, 127];
    check(&findings, isize::MAX, bytes, "isize");
    findings.verdict()
}

#[test]
fn integers_of_sixteen_bytes() -> Result<(), Fail> {
    let findings = Findings::new();
    let rising = 0x0102_0304_0506_0708_090a_0b0c_0d0e_0f10u128;
    let bytes = [16, 15, 14, 13, 12, 11, 10, 9, 8, 7, 6, 5, 4, 3, 2, 1];
    check(&findings, rising, bytes, "u128");
    check(&findings, rising as i128, bytes, "i128");
    let one = [1, 0, 0, 0, 0, 0, 0, 0, 0, 0, 0, 0, 0, 0, 0, 0];
    check(&findings, 1u128, one, "u128");
    check(&findings, 1i128, one, "i128");
    check(&findings, u128::MAX, [255; 16], "u128");
    check(&findings, -1i128, [255; 16], "i128");
    let least = [0, 0, 0, 0, 0, 0, 0, 0, 0, 0, 0, 0, 0, 0, 0, 128];
    check(&findings, i128::MIN, least, "i128");
    check(&findings, 1u128 << 127, least, "u128");
    let mut greatest = [255; 16];
    greatest[15] = 127;
    check(&findings, i128::MAX, greatest, "i128");
    check(&findings, usize::MAX, [255; 8], "usize");
    check(&findings, 258usize, [2, 1, 0, 0, 0, 0, 0, 0], "usize");
    findings.verdict()
}

#[test]
fn other_values() -> Result<(), Fail> {
    let findings = Findings::new();
    check(&findings, (), [], "()");
    check(&findings, false, [0], "bool");
    check(&findings, true, [1], "bool");
    check_none::<bool, 1>(&findings, [2], "bool");
    check_none::<bool, 1>(&findings, [255], "bool");
    let foo = Foo { bar: 4, baz: 6 };
    check(&findings, foo, [4, 6, 0, 0, 0, 0, 0, 0, 0], "Foo");
    let foo = Foo {
        bar: 255,
        baz: 1 << 63,
    };
    check(&findings, foo, [255, 0, 0, 0, 0, 0, 0, 0, 128], "Foo");
    check(&findings, [0u8; 0], [], "no bytes");
    check(&findings, [7u8, 0, 255], [7, 0, 255], "bytes");
    findings.verdict()
}

/// Checks that the string of `text` is encoded as `bytes`.
fn check_string<const SIZE: usize>(findings: &Findings, text: &str, bytes: [u8; SIZE])
    requires { SIZE < 256 }
{
    match StaticString::<SIZE>::try_from(text) {
        Ok(string) => check(findings, string, bytes, text),
        Err(_) => findings.miss(text),
    }
}

#[test]
fn strings() -> Result<(), Fail> {
    let findings = Findings::new();
    check_string(&findings, "ab", [97, 98, 0]);
    check_string(&findings, "abc", [97, 98, 99]);
    // The bytes of two strings may be those of a third.
    check_string(&findings, "cb", [99, 98, 0]);
    check_string(&findings, "", [0, 0, 0]);
    check_string(&findings, "", []);
    check_string(&findings, "\u{1}\u{7f}", [1, 127, 0, 0]);
    for bytes in [
        b"a\0b",
        b"\0b\0",
        b"\0\0\x01",
        b"a\xc8\0",
        b"\x80\0\0",
        b"ab\xff",
        b"a\0\xc8",
    ] {
        check_none::<StaticString<3>, 3>(&findings, *bytes, "no text");
    }
    findings.verdict()
}
