//! Code over any string, which prints, compares and hashes through the trait's bounds alone: equality, order and hash
//! agree, whatever the capacities.
ghost use Rattle.std.specs.Prelude.{◌≡◌, ◌↔◌, IsTrue, IfOk, string_bytes};
ghost use Rattle.std.specs.Hash.DefaultHasher as sip;
ghost use Rattle.std.specs.declared.cmp.Ordering.TheVariants.{Less};
ghost use Rattle.ix_string.specs.Escape.{escaped_text};
ghost use Rattle.ix_string.specs.Text.{text_cmp};

use crate::kinds::{holding, refill};
use ix_string::{PolymorphicString, StaticString, String, UninitString};
use ix_tables::RelocatableContainer;
use std::alloc::{AllocError, Global};
use std::cmp::Ordering;
use std::hash::{DefaultHasher, Hash, Hasher};
use std::test::Fail;
use test_support::{Findings, fed_by, made};

/// Returns the text that `{}` prints.
fn displayed<S: String>(alloc: Global, string: &S) -> Result<std::string::String, AllocError>
    ensures { IfOk result (λ text. string_bytes text ≡ escaped_text (S.bounded string.now).items) }
{
    format!(in alloc; "{string}")
}

fn order_of<S: String>(left: &S, right: &S) -> Ordering
    ensures { result ≡ text_cmp (S.bounded left.now).items (S.bounded right.now).items }
{
    left.cmp(right)
}

fn is_less<S: String>(left: &S, right: &S) -> bool
    ensures { IsTrue result
        ↔ (text_cmp (S.bounded left.now).items (S.bounded right.now).items ≡ Less) }
{
    left < right
}

fn is_same<S: String>(left: &S, right: &S) -> bool
    ensures { IsTrue result ↔ ((S.bounded left.now).items ≡ (S.bounded right.now).items) }
{
    left == right
}

fn hash_of<S: String>(string: &S) -> u64
    ensures { result ≡ sip.finish (sip.write sip.initial (S.bounded string.now).items) }
{
    let mut state = DefaultHasher::new();
    string.hash(&mut state);
    state.finish()
}

/// Strings from the least to the greatest, and the bytes that one write of each feeds to the recorder.
const RISING: &[(&str, u64)] = &[
    ("", 0xff),
    ("\u{1}", 0x01ff),
    ("a", 0x61ff),
    ("a\tb", 0x610962ff),
    ("ab", 0x6162ff),
    ("b", 0x62ff),
    ("b\u{7f}", 0x627fff),
];

fn check_pair<S: String>(findings: &Findings, left: &S, right: &S, order: Ordering, kind: &str) {
    let bytes = right.as_bytes();
    let orders = (
        order_of(left, right),
        left.partial_cmp(right),
        left.cmp_bytes(bytes),
    );
    findings.expect_same(orders, (order, Some(order), order), kind);
    findings.expect_same(is_less(left, right), order == Ordering::Less, kind);
    let same = order == Ordering::Equal;
    let hashes = (
        fed_by(left) == fed_by(right),
        hash_of(left) == hash_of(right),
    );
    findings.expect_same(hashes, (same, same), kind);
    let equal = (is_same(left, right), left.eq_bytes(bytes));
    findings.expect_same(equal, (same, same), kind);
}

/// Compares each string with each, in two strings, and the bytes that each feeds to a hasher.
fn check_texts<S: String>(findings: &Findings, left: &mut S, right: &mut S, kind: &str) {
    for (i, (text, fed)) in RISING.iter().enumerate() {
        refill(left, text);
        findings.expect_same_at(fed_by(&*left), *fed, i, kind);
        for (j, (other, _)) in RISING.iter().enumerate() {
            refill(right, other);
            check_pair(findings, &*left, &*right, i.cmp(&j), kind);
        }
    }
}

/// The hashes are those of Rust's own `DefaultHasher` that is fed the bytes in one write.
fn check_made<S: String + Drop, E: Drop>(
    findings: &Findings,
    alloc: Global,
    left: Result<S, E>,
    right: Result<S, E>,
    kind: &str,
) {
    let (Ok(mut left), Ok(mut right)) = (left, right) else {
        return findings.miss(kind);
    };
    check_texts(findings, &mut left, &mut right, kind);
    let (tabbed, plain) = (holding(left, "a\tb"), holding(right, "ab"));
    let text = displayed(alloc, &tabbed);
    findings.expect(text.is_ok_and(|text| text.as_str() == "a\\tb"), kind);
    let hashes = (hash_of(&tabbed), hash_of(&plain));
    let wanted = (6_261_151_546_290_972_062, 6_148_830_537_548_944_441);
    findings.expect_same(hashes, wanted, kind);
}

/// The strings in memory of an allocator have different capacities.
#[test]
fn any_string(rt: HostRuntime) -> Result<(), Fail> {
    let findings = Findings::new();
    let alloc = rt.alloc();
    let four = made(StaticString::<4>::new());
    check_made(&findings, alloc, four, made(StaticString::new()), "fixed");
    let four = UninitString::new_uninit(4).init(alloc);
    let nine = UninitString::new_uninit(9).init(alloc);
    check_made(&findings, alloc, four, nine, "relocatable");
    let nine = PolymorphicString::new(alloc, 9);
    let four = PolymorphicString::new(alloc, 4);
    check_made(&findings, alloc, nine, four, "polymorphic");
    findings.verdict()
}

#[test]
fn removed_bytes_leave_no_trace() -> Result<(), Fail> {
    let findings = Findings::new();
    let plain = holding(StaticString::<4>::new(), "ab");
    let mut changed = holding(StaticString::<4>::new(), "abcd");
    changed.truncate(2);
    check_pair(&findings, &plain, &changed, Ordering::Equal, "cut");
    let mut changed = holding(StaticString::<4>::new(), "xyab");
    findings.expect(changed.strip_prefix(b"xy"), "the front is stripped");
    check_pair(&findings, &plain, &changed, Ordering::Equal, "stripped");
    findings.verdict()
}
