//! Code over any rules, which prints, compares and hashes through the bound alone: equality, order and hash are those of
//! the normal forms.
ghost use Rattle.std.specs.Prelude.{◌≡◌, ◌<◌, ◌↔◌, IsTrue, IfOk, string_bytes};
ghost use Rattle.std.specs.Hash.DefaultHasher as sip;
ghost use Rattle.std.specs.declared.cmp.Ordering.TheVariants.{Less};
ghost use Rattle.ix_string.specs.Escape.{escaped_text};
ghost use Rattle.ix_semantic_string.specs.Rules.{means_the_same, compare_meanings};

use crate::own_rules::NonEmptyRules;
use ix_semantic_string::{GroupNameRules, Rules, Semantic, TrailingSlashRules};
use std::alloc::{AllocError, Global};
use std::cmp::Ordering;
use std::hash::{DefaultHasher, Hash, Hasher};
use std::test::Fail;
use test_support::{Findings, fed_by};

/// Returns the text that `{}` prints.
fn displayed<R: Rules<CAPACITY>, const CAPACITY: usize>(
    alloc: Global,
    string: &Semantic<R, CAPACITY>,
) -> Result<std::string::String, AllocError>
    ensures { IfOk result (λ text. string_bytes text ≡ escaped_text string.now) }
{
    format!(in alloc; "{string}")
}

fn order_of<R: Rules<CAPACITY>, const CAPACITY: usize>(
    left: &Semantic<R, CAPACITY>,
    right: &Semantic<R, CAPACITY>,
) -> Ordering
    ensures { result ≡ compare_meanings R.rules left.now right.now }
{
    left.cmp(right)
}

fn is_less<R: Rules<CAPACITY>, const CAPACITY: usize>(
    left: &Semantic<R, CAPACITY>,
    right: &Semantic<R, CAPACITY>,
) -> bool
    ensures { IsTrue result ↔ (compare_meanings R.rules left.now right.now ≡ Less) }
{
    left < right
}

fn is_same<R: Rules<CAPACITY>, const CAPACITY: usize>(
    left: &Semantic<R, CAPACITY>,
    right: &Semantic<R, CAPACITY>,
) -> bool
    ensures { result ≡ means_the_same R.rules left.now right.now }
{
    left == right
}

fn hash_of<R: Rules<CAPACITY>, const CAPACITY: usize>(string: &Semantic<R, CAPACITY>) -> u64
    ensures { result ≡ sip.finish (sip.write sip.initial (R.rules.normal_form string.now)) }
{
    let mut state = DefaultHasher::new();
    string.hash(&mut state);
    state.finish()
}

/// A string, its place in the order of the normal forms, and the last eight bytes that one write of its normal form feeds to a
/// hasher.
type PlacedText = (&'static str, usize, u64);

const PATHS: &[PlacedText] = &[
    ("", 0, 0xff),
    ("/", 1, 0x2fff),
    ("////", 1, 0x2fff),
    ("/a", 2, 0x2f61ff),
    ("/a//", 2, 0x2f61ff),
    ("/a/b", 3, 0x2f61_2f62ff),
    ("/a0", 4, 0x2f61_30ff),
    ("/b/", 5, 0x2f62ff),
    ("/b", 5, 0x2f62ff),
    ("/tmp/", 6, 0x2f74_6d70ff),
    ("/tmp", 6, 0x2f74_6d70ff),
    ("a", 7, 0x61ff),
    ("a/", 7, 0x61ff),
];

/// Names of different bytes, of lengths at which they are compared in different ways.
const NAMES: &[PlacedText] = &[
    ("a", 0, 0x61ff),
    ("abcdefg", 1, 0x6162_6364_6566_67ff),
    ("abcdefgh", 2, 0x6263_6465_6667_68ff),
    ("abcdefghi", 3, 0x6364_6566_6768_69ff),
    ("abcdefghijklmnop", 4, 0x6a6b_6c6d_6e6f_70ff),
    ("abcdefghijklmnopqrstuvwxyz-0123", 5, 0x797a_2d30_3132_33ff),
    ("abcdefghijklmnopqrstuvwxyz-0124", 6, 0x797a_2d30_3132_34ff),
    ("abcdefghijklmnoq", 7, 0x6a6b_6c6d_6e6f_71ff),
    ("b", 8, 0x62ff),
    ("bbcdefghijklmnopqrstuvwxyz-0124", 9, 0x797a_2d30_3132_34ff),
];

fn check_pair<R: Rules<CAPACITY>, const CAPACITY: usize>(
    findings: &Findings,
    left: &Semantic<R, CAPACITY>,
    right: &Semantic<R, CAPACITY>,
    order: Ordering,
    row: usize,
) {
    let same = order == Ordering::Equal;
    let orders = (order_of(left, right), left.partial_cmp(right));
    findings.expect_same_at(orders, (order, Some(order)), row, "the order");
    let less = (is_less(left, right), is_less(right, left));
    let wanted = (order == Ordering::Less, order == Ordering::Greater);
    findings.expect_same_at(less, wanted, row, "less and greater");
    let equal = (is_same(left, right), left.eq_bytes(right.as_bytes()));
    findings.expect_same_at(equal, (same, same), row, "equal");
    findings.expect_same_at(hash_of(left) == hash_of(right), same, row, "hashes");
}

/// Compares the string of the row with each.
fn check_text<R: Rules<CAPACITY>, const CAPACITY: usize>(
    findings: &Findings,
    left: &Semantic<R, CAPACITY>,
    place: usize,
    texts: &[PlacedText],
)
    requires { CAPACITY < 256 }
{
    for (row, (text, other, _)) in texts.iter().enumerate() {
        match Semantic::<R, CAPACITY>::new(text.as_bytes()) {
            Ok(right) => check_pair(findings, left, &right, place.cmp(other), row),
            Err(_) => findings.miss(text),
        }
    }
}

fn check_texts<R: Rules<CAPACITY>, const CAPACITY: usize>(findings: &Findings, texts: &[PlacedText])
    requires { CAPACITY < 256 }
{
    for (row, (text, place, fed)) in texts.iter().enumerate() {
        match Semantic::<R, CAPACITY>::new(text.as_bytes()) {
            Ok(left) => {
                findings.expect_same_at(fed_by(&left), *fed, row, "the hasher's input");
                check_text(findings, &left, *place, texts);
            }
            Err(_) => findings.miss(text),
        }
    }
}

/// A path that means "ab" is printed as it is, and its hash is that of Rust's own `DefaultHasher` that is fed "ab" in one
/// write.
fn check_printed_path(findings: &Findings, alloc: Global) {
    match Semantic::<TrailingSlashRules, 255>::try_from("ab//") {
        Ok(path) => {
            let text = displayed(alloc, &path);
            findings.expect(text.is_ok_and(|text| text.as_str() == "ab//"), "the text");
            findings.expect_same(hash_of(&path), 6_148_830_537_548_944_441, "the hash");
        }
        Err(_) => findings.miss("a path"),
    }
}

#[test]
fn by_the_normal_form(rt: HostRuntime) -> Result<(), Fail> {
    let findings = Findings::new();
    check_texts::<TrailingSlashRules, 255>(&findings, PATHS);
    check_texts::<GroupNameRules, 31>(&findings, NAMES);
    check_texts::<NonEmptyRules, 31>(&findings, NAMES);
    check_printed_path(&findings, rt.alloc());
    findings.verdict()
}
