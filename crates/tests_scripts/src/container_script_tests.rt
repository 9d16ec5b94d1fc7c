//! Scripts of each container: every command, at each kind of storage.
use crate::script_tests::{check_both, check_examples};
use std::alloc::{AllocError, Global};
use std::test::Fail;
use test_support::Findings;

/// Scripts and their outputs, with `=>` between them.
const WORKED: &[&str] = &[
    "text fixed 3\nappend 97 98\npush 200\npush 99\npush 100\nrfind\nshow\nhello=>ready\nok\nerror InvalidCharacter\nok\nerror InsertWouldExceedCapacity\nsome 3\n\"abc\"\n?\n",
    "flat arena 1001\nflat arena 1\ninsert 1 2\ninsert 1 3\ninsert 2 4\nget 1\nkey 0\nkey 1=>?\nready\nok\nerror KeyAlreadyExists\nerror IsFull\nsome 2\nsome 1\nnone\n",
    "vec fixed 3\nextend 1 2\ninsert 9 7\nresize 4 0\nresize 3 5\nshow\ntruncate 9\nremove 0=>ready\nok\nerror OutOfBounds\nerror InsertWouldExceedCapacity\nok\n1 2 5\nok\nsome 1\n",
    "text arena 5\ninsert 1 97\nappend\nappend 97 9 98\nshow\ndrop 97\nlen=>ready\nerror IndexPastEnd\nok\nok\n\"a\\tb\"\nok\n2\n",
    "vec heap 1001\nvec heap 1000\ncapacity\nvec heap 1000\nvec fixed 2=>?\nready\n1000\n?\n?\n",
    "slot fixed 3 at\nslot fixed 3 at 4294967296\nslot fixed 3  at 1\nqueue fixed 3 at 1\nslot fixed 3 at 0\nnext\nslot fixed 3 at 1=>?\n?\n?\n?\nready\nsome 0:0\n?\n",
    "slot heap 1001\nslot heap 1000\ncapacity\nretired=>?\nready\n1000\n0\n",
    "slot arena 1001 at 5\nslot arena 1000 at 5\ncapacity\nnext=>?\nready\n1000\nsome 0:5\n",
    "table fixed 8=>ready\n",
    "\nvec arena 0=>?\nready\n",
    "vec fixed 01\nvec fixed\nvec  fixed 1\nvec fixed 1 \nvec heap 1 1\nVec heap 1\nvec heap 1\n=>?\n?\n?\n?\n?\n?\nready\n",
];

#[test]
fn containers(rt: HostRuntime) -> Result<(), Fail> {
    let findings = Findings::new();
    check_examples(&findings, rt.alloc(), WORKED);
    findings.verdict()
}

/// The same as above, with `*` in place of the storage.
const STORED: &[&str] = &[
    "table * 3\ninsert 10\ninsert 20\nremove 0\nnext\ninsert 30\ninsert_at 2 40\ninsert 50\nshow=>ready\nsome 0\nsome 1\nsome 10\nsome 0\nsome 0\ntrue\nnone\n0=30 1=20 2=40\n",
    "queue * 0\npush 1\nover 2\nshow\nfull\nempty=>ready\nfalse\nsome 2\n-\ntrue\ntrue\n",
    "queue * 1\npush 123\npush 5\nover 456\npop\npop=>ready\ntrue\nfalse\nsome 123\nsome 456\nnone\n",
    "slot * 3\ninsert 10\nremove 0:0\ninsert 20\nget 0:0\nget 0:1\ninsert_at 0 30\nget 0:1\nremove 0:2\nnext\nshow=>ready\nsome 0:0\nsome 10\nsome 0:1\nnone\nsome 20\nsome 0:2\nnone\nsome 30\nsome 0:3\n-\n",
    "queue * 3\npush 1\npush 2\nlen\npeek\nset 9\nat 0\nat 1\nat 2\nfull\nover 3\nfull\npush 4\nover 4\nshow\ncapacity\nempty\nat 18446744073709551615\nclear\nempty\nlen\npeek\nset 5\npop\nshow\nqueue fixed 3\ntruncate 1\nPop\npush 7\npop\n=>ready\ntrue\ntrue\n2\nsome 1\ntrue\nsome 9\nsome 2\nnone\nfalse\nnone\ntrue\nfalse\nsome 9\n2 3 4\n3\nfalse\nnone\nok\ntrue\n0\nnone\nfalse\nnone\n-\n?\n?\n?\ntrue\nsome 7\n",
    "vec * 3\npush 1\ninsert 0 5\ninsert 9 7\ninsert 2 8\ninsert 0 1\ninsert 9 1\npush 1\nfull\nlen\nshow\nat 1\nat 3\nset 1 4\nset 3 4\nshow\nremove 0\nremove 2\nextend 6 7\nextend 6\nextend\nshow\nresize 1 9\nshow\nresize 3 9\nshow\nresize 4 0\ntruncate 5\ntruncate 2\npop\nshow\ncapacity\nempty\nclear\nempty\npop\nremove 0\nshow\npeek\nextend  1\n=>ready\nok\nok\nerror OutOfBounds\nok\nerror InsertWouldExceedCapacity\nerror InsertWouldExceedCapacity\nerror InsertWouldExceedCapacity\ntrue\n3\n5 1 8\nsome 1\nnone\ntrue\nfalse\n5 4 8\nsome 5\nnone\nerror InsertWouldExceedCapacity\nok\nok\n4 8 6\nok\n4\nok\n4 9 9\nerror InsertWouldExceedCapacity\nok\nok\nsome 9\n4\n3\nfalse\nok\ntrue\nnone\nnone\n-\n?\n?\n",
    "table * 3\nnext\ninsert 10\ninsert 20\nget 1\nget 2\nget 3\ncontains 0\ncontains 2\nset 1 21\nset 2 1\ninsert_at 2 40\ninsert_at 3 1\nfull\nnext\ninsert 50\nshow\nremove 1\nremove 1\nremove 9\nnext\nfrom 1\nfrom 0\nfrom 3\nlen\ncapacity\nempty\ninsert 7\ninsert_at 0 11\nshow\nremove 0\nremove 1\nremove 2\nempty\nshow\ninsert 1\nclear\n=>ready\nsome 0\nsome 0\nsome 1\nsome 20\nnone\nnone\ntrue\nfalse\ntrue\nfalse\ntrue\nfalse\ntrue\nnone\nnone\n0=10 1=21 2=40\nsome 21\nnone\nnone\nsome 1\nsome 2 40\nsome 0 10\nnone\n2\n3\nfalse\nsome 1\ntrue\n0=11 1=7 2=40\nsome 11\nsome 7\nsome 40\ntrue\n-\nsome 2\n?\n",
    "flat * 3\ninsert 5 50\ninsert 7 70\ninsert 5 51\nget 5\nget 6\nset 7 71\nset 6 1\ncontains 7\ncontains 6\nkey 0\nkey 1\nkey 2\ninsert 6 60\ninsert 8 80\ninsert 5 1\nfull\nlen\nshow\nremove 7\nremove 7\nshow\ninsert 9 90\nshow\nkey 1\nempty\ncapacity\nremove 5\nremove 9\nremove 6\nempty\nshow\n=>ready\nok\nok\nerror KeyAlreadyExists\nsome 50\nnone\ntrue\nfalse\ntrue\nfalse\nsome 5\nsome 7\nnone\nok\nerror IsFull\nerror KeyAlreadyExists\ntrue\n3\n5 7 6\nsome 71\nnone\n5 6\nok\n5 9 6\nsome 9\nfalse\n?\nsome 50\nsome 90\nsome 60\ntrue\n-\n",
    "text * 8\npush 97\nappend 98 99\nappend\ninsert 1 120\ninsert 9 97\ninsert_bytes 4\ninsert_bytes 5\ninsert_bytes 0 1 2 3 4 5\ninsert_bytes 0 0\npush 128\nshow\nfind 98 99\nfind 122\nfind\nrfind\nrfind 97\nat 1\nat 4\nremove 1\nremove 3\nlen\nstrip_prefix 98\nstrip_prefix 97\nstrip_suffix 98\nstrip_suffix 99\nstrip_prefix\nshow\n=>ready\nok\nok\nok\nok\nerror IndexPastEnd\nok\nerror IndexPastEnd\nerror InsertWouldExceedCapacity\nerror InvalidCharacter\nerror InvalidCharacter\n\"axbc\"\nsome 2\nnone\nsome 0\nsome 4\nsome 0\nsome 120\nnone\nsome 120\nnone\n3\nfalse\ntrue\nfalse\ntrue\ntrue\n\"b\"\n",
    "text * 8\nappend 98 98 98 99\ndrop 98\nshow\nappend 97 98 99 100 97 98 99\nfull\npush 97\nfind 97 98\nrfind 97 98\nremove_range 1 2\nshow\nremove_range 5 2\nremove_range 6 0\ntruncate 9\ntruncate 2\npop\nshow\ncapacity\nempty\nclear\nempty\npop\nshow\nappend 10 13 1 127 34\nshow\npush 256\nappend 97 256\nlen\n=>ready\nok\nok\n\"c\"\nok\ntrue\nerror InsertWouldExceedCapacity\nsome 1\nsome 5\ntrue\n\"ccdabc\"\nfalse\ntrue\nok\nok\nsome 99\n\"c\"\n8\nfalse\nok\ntrue\nnone\n\"\"\nok\n\"\\n\\r\\x01\u{7f}\"\"\n?\n?\n5\n",
    "vec * 0\npush 1\nextend\nshow\nfull\nempty\nresize 0 1\nresize 1 1\n=>ready\nerror InsertWouldExceedCapacity\nok\n-\ntrue\ntrue\nok\nerror InsertWouldExceedCapacity\n",
    "table * 0\ninsert 1\nnext\ninsert_at 0 1\nget 0\nfull\nempty\nshow\nfrom 0\n=>ready\nnone\nnone\nfalse\nnone\ntrue\ntrue\n-\nnone\n",
    "flat * 0\ninsert 1 1\nget 1\nfull\nempty\nshow\nkey 0\n=>ready\nerror IsFull\nnone\ntrue\ntrue\n-\nnone\n",
    "text * 0\npush 97\nappend\nfind\nshow\nfull\nempty\n=>ready\nerror InsertWouldExceedCapacity\nok\nsome 0\n\"\"\ntrue\ntrue\n",
    "queue * 8\npush 18446744073709551615\npush 0\nshow\nat 0\n=>ready\ntrue\ntrue\n18446744073709551615 0\nsome 18446744073709551615\n",
    "flat * 8\ninsert 18446744073709551615 0\nkey 0\nget 18446744073709551615\nshow\n=>ready\nok\nsome 18446744073709551615\nsome 0\n18446744073709551615\n",
    "table * 1\ninsert_at 18446744073709551615 1\nget 18446744073709551615\nfrom 18446744073709551615\nremove 18446744073709551615\n=>ready\nfalse\nnone\nnone\nnone\n",
    "slot * 3\nnext\ninsert 10\ninsert 20\nget 1:0\nget 1:1\nget 2:0\nget 3:0\ncontains 0:0\ncontains 0:1\ncontains 2:0\nset 1:0 21\nset 1:1 5\nset 2:0 1\ninsert_at 2 40\ninsert_at 2 41\ninsert_at 3 1\nget 2:0\nget 2:1\nfull\nnext\ninsert 50\nshow\nremove 1:1\nremove 1:0\nremove 1:0\nremove 9:0\nnext\nfrom 1\nfrom 0\nfrom 3\nlen\ncapacity\nretired\nempty\nfull\ninsert 7\ninsert_at 0 11\nshow\nremove 0:1\nremove 1:1\nremove 2:1\nempty\nshow\ninsert 1\nclear\n=>ready\nsome 0:0\nsome 0:0\nsome 1:0\nsome 20\nnone\nnone\nnone\ntrue\nfalse\nfalse\ntrue\nfalse\nfalse\nsome 2:0\nsome 2:1\nnone\nnone\nsome 41\ntrue\nnone\nnone\n0:0=10 1:0=21 2:1=41\nnone\nsome 21\nnone\nnone\nsome 1:1\nsome 2:1 41\nsome 0:0 10\nnone\n2\n3\n0\nfalse\nfalse\nsome 1:1\nsome 0:1\n0:1=11 1:1=7 2:1=41\nsome 11\nsome 7\nsome 41\ntrue\n-\nsome 2:2\n?\n",
    "slot * 1 at 4294967294\ninsert 5\ninsert_at 0 6\ninsert_at 0 7\nget 0:4294967295\nremove 0:4294967294\nshow\nremove 0:4294967295\nretired\nlen\nempty\nfull\nnext\ninsert 8\ninsert_at 0 8\nget 0:4294967295\ncontains 0:4294967295\nset 0:4294967295 1\nfrom 0\nshow\ncapacity\n=>ready\nsome 0:4294967294\nsome 0:4294967295\nnone\nsome 6\nnone\n0:4294967295=6\nsome 6\n1\n0\ntrue\ntrue\nnone\nnone\nnone\nnone\nfalse\nfalse\nnone\n-\n1\n",
    "slot * 0 at 7\ninsert 1\nnext\ninsert_at 0 1\nget 0:0\nfull\nempty\nretired\nshow\nfrom 0\n=>ready\nnone\nnone\nnone\nnone\ntrue\ntrue\n0\n-\nnone\n",
    "slot * 1\ninsert_at 18446744073709551615 1\nget 18446744073709551615:4294967295\nget 18446744073709551616:0\nfrom 18446744073709551615\nremove 18446744073709551615:0\ninsert 18446744073709551615\nfrom 0\nshow\n=>ready\nnone\nnone\n?\nnone\nnone\nsome 0:0\nsome 0:0 18446744073709551615\n0:0=18446744073709551615\n",
    "slot * 3\nget 0\nget 0:\nget :0\nget 0:00\nget 0:4294967296\nget 0: 0\ninsert_at 0:0 1\nget\nget \nget 0:0 1\nget 00:0\nget 0:0:0\nget 0::0\nget :\nget 0:0 \nget  0:0\nget +0:0\nset 0:0\nset 0:0 01\nset 0 0 1\nremove 0 0\ninsert 0:0\nfrom 0:0\nnext 0:0\ngets 0:0\nGet 0:0\n get 0:0\nslot fixed 3\nretired 0\nlen\n=>ready\n?\n?\n?\n?\n?\n?\n?\n?\n?\n?\n?\n?\n?\n?\n?\n?\n?\n?\n?\n?\n?\n?\n?\n?\n?\n?\n?\n?\n?\n0\n",
];

/// The same as above, of capacities that no fixed container has.
const ALLOCATED: &[&str] = &[
    "slot * 2 at 4294967295\ninsert 7\nremove 0:4294967295\ninsert 8\ninsert 9\nretired\nfull\nshow=>ready\nsome 0:4294967295\nsome 7\nsome 1:4294967295\nnone\n1\ntrue\n1:4294967295=8\n",
    "queue * 1001\nqueue * 1000\ncapacity=>?\nready\n1000\n",
    "vec * 1001\nvec * 1000\ncapacity=>?\nready\n1000\n",
    "table * 1001\ntable * 1000\ncapacity=>?\nready\n1000\n",
    "flat * 1001\nflat * 1000\ninsert 7 8\nkey 0=>?\nready\nok\nsome 7\n",
    "text * 1001\ntext * 1000\ncapacity=>?\nready\n1000\n",
];

/// Runs the scripts with the word in place of each `*`.
fn check_storage(findings: &Findings, alloc: Global, scripts: &[&str], storage: &str) {
    for script in scripts {
        match script.replace(alloc, "*", storage) {
            Ok(script) => check_examples(findings, alloc, &[script.as_str()]),
            Err(AllocError) => findings.miss("there is memory"),
        }
    }
}

#[test]
fn every_command_at_each_storage(rt: HostRuntime) -> Result<(), Fail> {
    let findings = Findings::new();
    check_storage(&findings, rt.alloc(), STORED, "fixed");
    for storage in ["heap", "arena"] {
        check_storage(&findings, rt.alloc(), STORED, storage);
        check_storage(&findings, rt.alloc(), ALLOCATED, storage);
    }
    findings.verdict()
}

/// Appends `extend` with 96 words `1` and `last` to the input.
fn append_extend(input: &mut Vec<u8>, last: &[u8]) -> Result<(), AllocError> {
    input.extend_from_slice(b"extend")?;
    for _ in 0..96 {
        input.extend_from_slice(b" 1")?;
    }
    input.extend_from_slice(last)
}

/// Returns a script of a line of 200 bytes and one of 201 bytes.
fn longest_lines(alloc: Global) -> Result<Vec<u8>, AllocError> {
    let mut input = Vec::from_slice(alloc, b"vec heap 97\n")?;
    append_extend(&mut input, b" 1\n")?;
    append_extend(&mut input, b" 11\n")?;
    input.extend_from_slice(b"len")?;
    Ok(input)
}

/// A line of 200 bytes is read, and one of 201 bytes is not.
#[test]
fn longest_line(rt: HostRuntime) -> Result<(), Fail> {
    let findings = Findings::new();
    let output = Vec::from_slice(rt.alloc(), b"ready\nok\n?\n97\n");
    check_both(&findings, rt.alloc(), longest_lines(rt.alloc()), output, 0);
    findings.verdict()
}
