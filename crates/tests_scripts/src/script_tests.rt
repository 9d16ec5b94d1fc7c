//! Whole scripts: worked examples, bad input, and devices that fail.
ghost use Rattle.std.specs.Prelude.{◌≤◌};

use ix_run::{ScriptFault, exit_status, fault_line, script};
use std::alloc::{AllocError, Global};
use std::cmp::min;
use std::test::Fail;
use test_support::Findings;
use test_support::devices::{
    Asker, Exchange, Faults, Listener, PoorReader, PoorWriter, first_lines, line_ends,
};

/// A script whose last line has no line feed.
const INPUT: &[u8] = b"queue fixed 1\npush 123\npush 5\nover 456\npop\npop";

/// The same script with that line feed.
const ENDED_INPUT: &[u8] = b"queue fixed 1\npush 123\npush 5\nover 456\npop\npop\n";

/// The replies to both.
const OUTPUT: &[u8] = b"ready\ntrue\nfalse\nsome 123\nsome 456\nnone\n";

/// A script and its output.
pub type Example = (&'static [u8], &'static [u8]);

/// Scripts and their outputs, with `=>` between them.
const WORKED: &[&str] = &[
    "push 1\nqueue fixed 2\nqueue fixed 3\npush 01\npush 18446744073709551615\npush 18446744073709551616\nshow=>?\n?\nready\n?\ntrue\n?\n18446744073709551615\n",
    "=>",
    "queue fixed 0\npush 1\nover 2\npop\nshow\n=>ready\nfalse\nsome 2\nnone\n-\n",
    "queue fixed 3\npush 10\npush 20\npush 0\nover 40\nshow\n=>ready\ntrue\ntrue\ntrue\nsome 10\n20 0 40\n",
    "queue fixed 1\npush 18446744073709551615\nover 0\npop=>ready\ntrue\nsome 18446744073709551615\nsome 0\n",
    "queue fixed 8\nover 7\nshow\npop\nshow\n=>ready\nnone\n7\nsome 7\n-\n",
    "queue fixed 1=>ready\n",
];

const BAD_INPUT: &[Example] = &[
    (b"\n", b"?\n"),
    (b"\n\n", b"?\n?\n"),
    (b"pop", b"?\n"),
    (b"\x00", b"?\n"),
    (b"queue fixed 1\r\n", b"?\n"),
    (b"queue fixed 1\r", b"?\n"),
    (
        b"queue fixed 1\nqueue fixed 1\n\n\npop\n",
        b"ready\n?\n?\n?\nnone\n",
    ),
    (
        b"queue fixed 1\npush\x001\npush 1\x00\n\x00\npush 1\r\nshow\n",
        b"ready\n?\n?\n?\n?\n-\n",
    ),
    (
        b"queue fixed 1\n\xff\n\x80push 1\npush 1\xc3\xa9\npush \xb1\nshow\xff\nshow",
        b"ready\n?\n?\n?\n?\n?\n-\n",
    ),
];

/// Runs a script over memory, expects `Ok`, and compares its output.
pub fn check_output(findings: &Findings, alloc: Global, input: &[u8], output: &[u8], case: usize) {
    let mut reader = input;
    let mut writer = Vec::new(alloc);
    let outcome = script(alloc, &mut reader, &mut writer);
    findings.expect_same_at(outcome, Ok(()), case, "the outcome");
    findings.expect_at(reader.is_empty(), case, "all is read");
    findings.expect_same_at(writer.as_slice(), output, case, "the output");
}

/// Runs the examples, each a script and its output, with `=>` between them.
pub fn check_examples(findings: &Findings, alloc: Global, examples: &[&str]) {
    for (case, example) in examples.iter().enumerate() {
        match example.split_once("=>") {
            Some((input, output)) => {
                check_output(findings, alloc, input.as_bytes(), output.as_bytes(), case);
            }
            None => findings.miss(example),
        }
    }
}

#[test]
fn examples(rt: HostRuntime) -> Result<(), Fail> {
    let findings = Findings::new();
    check_examples(&findings, rt.alloc(), WORKED);
    check_output(&findings, rt.alloc(), INPUT, OUTPUT, 0);
    for (i, (input, output)) in BAD_INPUT.iter().enumerate() {
        check_output(&findings, rt.alloc(), input, output, i);
    }
    findings.verdict()
}

/// Returns `before`, `count` times `byte`, and `after`.
fn with_run(
    alloc: Global,
    before: &[u8],
    byte: u8,
    count: usize,
    after: &[u8],
) -> Result<Vec<u8>, AllocError> {
    let mut bytes = Vec::from_slice(alloc, before)?;
    for _ in 0..count {
        bytes.push(byte)?;
    }
    bytes.extend_from_slice(after)?;
    Ok(bytes)
}

/// Does the same as `check_output`. There was memory for the script and its output.
pub fn check_both(
    findings: &Findings,
    alloc: Global,
    input: Result<Vec<u8>, AllocError>,
    output: Result<Vec<u8>, AllocError>,
    case: usize,
) {
    match (input, output) {
        (Ok(input), Ok(output)) => {
            check_output(findings, alloc, input.as_slice(), output.as_slice(), case);
        }
        _ => findings.miss("there is memory"),
    }
}

/// The input before a run of one byte, that byte, the input after it, and the output.
const LONG_LINES: &[(&[u8], u8, &[u8], &[u8])] = &[
    (
        b"queue fixed 1\n",
        b' ',
        b"push 5\nshow\n",
        b"ready\n?\n-\n",
    ),
    (
        b"queue fixed 1\npush 5\npush ",
        b'0',
        b"\npop",
        b"ready\ntrue\n?\nsome 5\n",
    ),
    (b"queue fixed 3\npop\n", b'x', b"", b"ready\nnone\n?\n"),
];

const LONG_COUNTS: &[usize] = &[
    194, 195, 196, 199, 200, 201, 400, 8177, 8178, 8179, 16_370, 1_000_000,
];

#[test]
fn long_lines(rt: HostRuntime) -> Result<(), Fail> {
    let findings = Findings::new();
    for count in LONG_COUNTS {
        for (before, byte, after, output) in LONG_LINES {
            let input = with_run(rt.alloc(), before, *byte, *count, after);
            let output = Vec::from_slice(rt.alloc(), output);
            check_both(&findings, rt.alloc(), input, output, *count);
        }
    }
    findings.verdict()
}

/// Returns `before`, and `count` times `lines`.
fn repeated(
    alloc: Global,
    before: &[u8],
    lines: &[u8],
    count: usize,
) -> Result<Vec<u8>, AllocError> {
    let mut bytes = Vec::from_slice(alloc, before)?;
    for _ in 0..count {
        bytes.extend_from_slice(lines)?;
    }
    Ok(bytes)
}

/// So many lines that their replies fill the buffers of a script many times.
#[test]
fn many_lines(rt: HostRuntime) -> Result<(), Fail> {
    let findings = Findings::new();
    let alloc = rt.alloc();
    let input = repeated(alloc, b"queue fixed 1\n", b"over 7\npop\n\nshow\n", 10_000);
    let output = repeated(alloc, b"ready\n", b"none\nsome 7\n?\n-\n", 10_000);
    check_both(&findings, alloc, input, output, 0);
    let input = repeated(alloc, b"", b"\n", 80_000);
    let output = repeated(alloc, b"", b"?\n", 80_000);
    check_both(&findings, alloc, input, output, 0);
    findings.verdict()
}

/// How many interruptions in a row come before each read, and before each write.
const INTERRUPTIONS: &[(usize, usize)] = &[(0, 0), (1, 0), (0, 1), (1, 1)];

/// Runs a script whose reader reads `piece` bytes a call, with so many interruptions before each read and each write, and
/// compares its output.
fn check_piece(
    findings: &Findings,
    alloc: Global,
    input: &[u8],
    (piece, reads, writes): (usize, usize, usize),
    output: &[u8],
) {
    let mut reader = PoorReader::new(input, piece);
    reader.interruptions = reads;
    let mut writer = PoorWriter::new(alloc, 1 + piece % 29);
    writer.interruptions = writes;
    let case = (input.len(), piece, reads, writes);
    let outcome = script(alloc, &mut reader, &mut writer);
    let found = (case, outcome, reader.rest.len());
    findings.expect_same(found, (case, Ok(()), 0), "in pieces");
    let text = writer.bytes.as_slice();
    findings.expect_same((case, text), (case, output), "in pieces");
}

/// Does the same as [`check_piece`], with each of [`INTERRUPTIONS`].
fn check_pieces(findings: &Findings, alloc: Global, input: &[u8], piece: usize, output: &[u8]) {
    for (reads, writes) in INTERRUPTIONS {
        check_piece(findings, alloc, input, (piece, *reads, *writes), output);
    }
}

#[test]
fn pieces_and_interruptions(rt: HostRuntime) -> Result<(), Fail> {
    let findings = Findings::new();
    for piece in 1..70 {
        check_pieces(&findings, rt.alloc(), INPUT, piece, OUTPUT);
        check_pieces(&findings, rt.alloc(), ENDED_INPUT, piece, OUTPUT);
    }
    findings.verdict()
}

/// Runs a script of 70,002 bytes that are read one by one.
fn check_many_reads(findings: &Findings, alloc: Global) -> Result<(), AllocError> {
    let input = repeated(alloc, b"queue fixed 1\n", b"pop\n", 17_497)?;
    let output = repeated(alloc, b"ready\n", b"none\n", 17_497)?;
    findings.expect_same(input.len(), 70_002, "the number of reads");
    check_piece(
        findings,
        alloc,
        input.as_slice(),
        (1, 0, 0),
        output.as_slice(),
    );
    Ok(())
}

/// A reader that reads one byte in each of 70,002 calls.
#[test]
fn many_reads(rt: HostRuntime) -> Result<(), Fail> {
    let findings = Findings::new();
    if check_many_reads(&findings, rt.alloc()).is_err() {
        findings.miss("there is memory");
    }
    findings.verdict()
}

/// 1,000 interruptions in a row before each read, and before each write.
#[test]
fn interruptions_in_a_row(rt: HostRuntime) -> Result<(), Fail> {
    let findings = Findings::new();
    for (reads, writes) in &[(1000, 0), (0, 1000)] {
        let case = (46, *reads, *writes);
        check_piece(&findings, rt.alloc(), INPUT, case, OUTPUT);
    }
    findings.verdict()
}

const PIECES: &[usize] = &[1, 4, 50, 100, 200, 208, 209, 400];

fn check_long_line(findings: &Findings, alloc: Global, count: usize) {
    match with_run(alloc, b"queue fixed 1\n", b'x', count, b"push 5\nshow\npop") {
        Ok(input) => {
            for piece in PIECES {
                let output = b"ready\n?\n-\nnone\n";
                check_pieces(findings, alloc, input.as_slice(), *piece, output);
            }
        }
        Err(AllocError) => findings.miss("there is memory"),
    }
}

/// Some pieces begin with the text of a command that is the end of a longer line.
#[test]
fn long_lines_in_pieces(rt: HostRuntime) -> Result<(), Fail> {
    let findings = Findings::new();
    for count in &[86, 186, 194, 195, 386] {
        check_long_line(&findings, rt.alloc(), *count);
    }
    findings.verdict()
}

/// Scripts whose readers fail, and their output if they do not.
const READ: &[Example] = &[
    (INPUT, OUTPUT),
    (ENDED_INPUT, OUTPUT),
    (b"queue fixed 1\npush 1\npu", b"ready\ntrue\n?\n"),
];

/// The reader fails at its call number `calls`, and the replies to the whole lines before are written; or the input ends
/// before that call.
fn check_read_fault(
    findings: &Findings,
    alloc: Global,
    (input, all_output): &Example,
    (piece, calls): (usize, usize),
) {
    let case = (piece, calls);
    let mut reader = PoorReader::new(input, piece);
    reader.faults = Faults::after(calls);
    reader.interruptions = calls % 2;
    let mut writer = PoorWriter::new(alloc, 5);
    let outcome = script(alloc, &mut reader, &mut writer);
    let given = input.len().saturating_sub(reader.rest.len());
    let all = piece.wrapping_mul(calls);
    let (wanted, output) = if all >= input.len().wrapping_add(piece) {
        (Ok(()), *all_output)
    } else {
        let output = first_lines(all_output, line_ends(&input[..given]));
        (Err(ScriptFault::Read), output)
    };
    let found = (case, given, outcome);
    findings.expect_same(found, (case, min(all, input.len()), wanted), "a read fault");
    let text = writer.bytes.as_slice();
    findings.expect_same((case, text), (case, output), "a read fault");
}

#[test]
fn read_faults(rt: HostRuntime) -> Result<(), Fail> {
    let findings = Findings::new();
    for piece in &[1, 3, 7, 14, 46, 47, 100] {
        for calls in 0..50 {
            for example in READ {
                check_read_fault(&findings, rt.alloc(), example, (*piece, calls));
            }
        }
    }
    findings.verdict()
}

/// The writer fails, and exactly `written` is written.
fn check_write_fault(
    findings: &Findings,
    alloc: Global,
    mut reader: PoorReader<'_>,
    mut writer: PoorWriter,
    written: &[u8],
) {
    let case = (reader.piece, written.len());
    let outcome = script(alloc, &mut reader, &mut writer);
    findings.expect_same(
        (case, outcome),
        (case, Err(ScriptFault::Write)),
        "a write fault",
    );
    let text = writer.bytes.as_slice();
    findings.expect_same((case, text), (case, written), "a write fault");
}

/// A writer with room for `count` bytes, and one that fails after as many calls.
fn check_count(findings: &Findings, alloc: Global, piece: usize, count: usize)
    requires { count ≤ 40 }
{
    let written = &OUTPUT[..count];
    let mut full = PoorWriter::new(alloc, 7);
    full.room = count;
    full.interruptions = count % 2;
    let reader = PoorReader::new(INPUT, piece);
    check_write_fault(findings, alloc, reader, full, written);
    let mut broken = PoorWriter::new(alloc, 1);
    broken.faults = Faults::after(count);
    broken.interruptions = 1 - count % 2;
    let reader = PoorReader::new(INPUT, piece);
    check_write_fault(findings, alloc, reader, broken, written);
}

#[test]
fn write_faults(rt: HostRuntime) -> Result<(), Fail> {
    let findings = Findings::new();
    for piece in &[1, 9, 100] {
        for count in 0..OUTPUT.len() {
            check_count(&findings, rt.alloc(), *piece, count);
        }
    }
    findings.verdict()
}

/// A writer that writes nothing, and one whose flush fails.
fn check_idle_and_leaky(findings: &Findings, alloc: Global, piece: usize) {
    let reader = PoorReader::new(INPUT, piece);
    let idle = PoorWriter::new(alloc, 0);
    check_write_fault(findings, alloc, reader, idle, b"");
    let mut leaky = PoorWriter::new(alloc, 7);
    leaky.flush_fails = true;
    let reader = PoorReader::new(INPUT, piece);
    check_write_fault(findings, alloc, reader, leaky, OUTPUT);
}

#[test]
fn writers_that_never_work(rt: HostRuntime) -> Result<(), Fail> {
    let findings = Findings::new();
    for piece in &[1, 9, 100] {
        check_idle_and_leaky(&findings, rt.alloc(), *piece);
    }
    // If all lines are read at once, all replies are written after that read.
    for calls in 0..14 {
        let mut broken = PoorWriter::new(rt.alloc(), 3);
        broken.faults = Faults::after(calls);
        let reader = PoorReader::new(ENDED_INPUT, 100);
        check_write_fault(&findings, rt.alloc(), reader, broken, &OUTPUT[..3 * calls]);
    }
    findings.verdict()
}

/// A writer with just enough room and just enough calls does not fail.
fn check_enough_room(findings: &Findings, alloc: Global, piece: usize) {
    let mut reader = PoorReader::new(INPUT, piece);
    let mut writer = PoorWriter::new(alloc, 1);
    writer.room = OUTPUT.len();
    writer.faults = Faults::after(OUTPUT.len());
    let outcome = script(alloc, &mut reader, &mut writer);
    findings.expect_same((piece, outcome), (piece, Ok(())), "enough room");
    let text = writer.bytes.as_slice();
    findings.expect_same((piece, text), (piece, OUTPUT), "enough room");
}

#[test]
fn enough_room(rt: HostRuntime) -> Result<(), Fail> {
    let findings = Findings::new();
    for piece in &[1, 9, 100] {
        check_enough_room(&findings, rt.alloc(), *piece);
    }
    findings.verdict()
}

/// A script, and the number of its replies.
const EXCHANGES: &[(&[u8], usize)] = &[
    (b"", 0),
    (b"pop", 1),
    (INPUT, 6),
    (ENDED_INPUT, 6),
    (b"\n\nqueue fixed 3\n\nshow\npush 1\nover 2\nshow\n?\n", 9),
];

fn check_exchange(findings: &Findings, alloc: Global, input: &[u8], replies: usize) {
    let exchange = Exchange::new();
    let mut asker = Asker {
        rest: input,
        exchange: &exchange,
    };
    let mut listener = Listener {
        exchange: &exchange,
    };
    let outcome = script(alloc, &mut asker, &mut listener);
    findings.expect_same((replies, outcome), (replies, Ok(())), "an exchange");
    let found = (
        exchange.replies.get(),
        exchange.flushes.get(),
        exchange.was_late.get(),
    );
    findings.expect_same(found, (replies, 1, false), "an exchange");
}

#[test]
fn replies_before_questions(rt: HostRuntime) -> Result<(), Fail> {
    let findings = Findings::new();
    for (input, replies) in EXCHANGES {
        check_exchange(&findings, rt.alloc(), input, *replies);
    }
    findings.verdict()
}

const FAULTS: &[(Result<(), ScriptFault>, u8, &str)] = &[
    (Ok(()), 0, ""),
    (Err(ScriptFault::Read), 1, "boxes: read fault"),
    (Err(ScriptFault::Write), 1, "boxes: write fault"),
    (Err(ScriptFault::OutOfMemory), 2, "boxes: out of memory"),
];

#[test]
fn statuses_and_fault_lines() -> Result<(), Fail> {
    let findings = Findings::new();
    for (row, (outcome, status, line)) in FAULTS.iter().enumerate() {
        findings.expect_same_at(exit_status(outcome), *status, row, "a status");
        if let Err(fault) = outcome {
            findings.expect_same_at(fault_line(fault), *line, row, "a line");
        }
    }
    findings.verdict()
}
