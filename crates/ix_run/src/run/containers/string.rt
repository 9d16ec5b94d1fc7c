//! Lines of a script for a string.
ghost use Rattle.std.specs.Prelude.{◌≡◌, ◌≤◌, ◌+◌, ◌++◌, codes, length};
ghost use Rattle.ix_string.specs.Escape.{escaped_byte, escaped_text};
ghost use Rattle.ix_run.specs.inner.Writing.{WriteResult, WriterAppendsPart};

use crate::run::containers::making::{MakesIn, MakesInline, Named};
use crate::run::containers::served::Served;
use crate::run::devices::{MAX_NUMBERS, ReplyBuffer, ReplyPart, ReplyWriter};
use crate::run::{Reply, Runs, ScriptFault, read_string_command};
use bumpalo::Bump;
use ix_string::{
    PolymorphicString, RelocatableString, StaticString, String, UninitString, escape_byte,
};
use ix_tables::RelocatableContainer;
use std::alloc::Global;
use std::io::Write;

/// A string, and room for the bytes of a line.
#[derive(Drop)]
pub(crate) struct StringLines<S: String> {
    string: S,
    bytes: [u8; MAX_NUMBERS],
}

impl<S: String> StringLines<S> {
    pub(crate) fn new(string: S) -> StringLines<S>
        ensures { S.bounded result.string ≡ S.bounded string }
    {
        StringLines {
            string,
            bytes: [0; MAX_NUMBERS],
        }
    }
}

/// Returns the reply with its value as a `u64`.
#[inline]
fn with_u64_value(reply: Reply<usize, u8>) -> Reply<usize, u64>
    ensures { result ≡ reply }
{
    match reply {
        Reply::Done => Reply::Done,
        Reply::Bool(is_so) => Reply::Bool(is_so),
        Reply::Number(number) => Reply::Number(number),
        Reply::None => Reply::None,
        Reply::Key(key) => Reply::Key(key),
        Reply::Value(value) => Reply::Value(value as u64),
        Reply::Entry(key, value) => Reply::Entry(key, value as u64),
        Reply::Error(error) => Reply::Error(error),
    }
}

/// A byte that is printed escaped.
#[derive(Drop)]
struct ShownByte(u8);

impl ReplyPart for ShownByte {
    ghost text = { λ shown. escaped_byte shown.0 };

    fn put_into(self, replies: &mut ReplyBuffer) {
        let escaped = escape_byte(self.0);
        match escaped.as_str().as_bytes() {
            // A text of this length is put without a function call.
            [byte] => replies.put(&[*byte]),
            [first, second] => replies.put(&[*first, *second]),
            bytes => replies.put(bytes),
        }
    }
}

/// Appends bytes that are printed escaped.
fn append_escaped_bytes<W: Write>(
    replies: &mut ReplyWriter<'_, W>,
    bytes: &[u8],
) -> Result<(), ScriptFault>
    ensures { WriteResult W.contents replies.old (escaped_text bytes.now)
        replies.new result }
{
    for byte in bytes {
        replies.append_part(ShownByte(*byte))?;
    }
    Ok(())
}

/// Appends bytes that are printed escaped, and a double quote.
#[tactic(auto, using(crate::proofs::Writing::WriteResult_append, crate::proofs::Writing::WriterAppendsPart_append))]
fn append_escaped_then_quote<W: Write>(
    replies: &mut ReplyWriter<'_, W>,
    bytes: &[u8],
) -> Result<(), ScriptFault>
    ensures { WriteResult W.contents replies.old (escaped_text bytes.now ++ codes "\"")
        replies.new result }
{
    append_escaped_bytes(replies, bytes)?;
    replies.append(b"\"")
}

/// Appends bytes that are printed escaped, between double quotes.
#[tactic(auto, using(crate::proofs::Writing::WriteResult_append, crate::proofs::Writing::WriterAppendsPart_append))]
fn append_quoted<W: Write>(
    replies: &mut ReplyWriter<'_, W>,
    bytes: &[u8],
) -> Result<(), ScriptFault>
    ensures { WriteResult W.contents replies.old
        (codes "\"" ++ (escaped_text bytes.now ++ codes "\"")) replies.new result }
{
    replies.append(b"\"")?;
    append_escaped_then_quote(replies, bytes)
}

impl<S: String> Served for StringLines<S> {
    ghost use Rattle.std.specs.Prelude.{ℕ};
    ghost use Rattle.ix_tables.specs.Bounded.{Bounded};
    ghost use Rattle.ix_commands.specs.StringRun.{string_reply, string_after};
    ghost use Rattle.ix_run.specs.Forms.{string_forms};
    ghost use Rattle.ix_run.specs.Script.{spelled_reply, spelled_after, string_shown};

    type Key = usize;

    ghost Model = { Bounded ℕ };

    ghost model = { λ lines. S.bounded lines.string };

    ghost reply = { spelled_reply string_forms string_reply };

    ghost after = { spelled_after string_forms string_after };

    ghost shown = { string_shown };

    #[inline]
    fn run_line(&mut self, line: &[u8]) -> Option<Reply<usize, u64>> {
        let command = read_string_command(line, &mut self.bytes)?;
        Some(with_u64_value(self.string.run_command(command)))
    }

    fn show<W: Write>(&self, replies: &mut ReplyWriter<'_, W>) -> Result<(), ScriptFault> {
        append_quoted(replies, self.string.as_bytes())
    }
}

/// The strings that headers name.
#[derive(Drop)]
pub(crate) struct Strings;

impl Named for Strings {
    ghost use Rattle.ix_run.specs.declared.run.grammar.header.Container.TheVariants as container;

    ghost container = { λ maker. container.String };
}

impl<const N: usize> MakesInline<N> for Strings {
    type Inline = StringLines<StaticString<N>>;

    fn inline(self) -> StringLines<StaticString<N>> {
        StringLines::new(StaticString::new())
    }
}

impl MakesIn<Global> for Strings {
    type Made = StringLines<PolymorphicString>;

    fn make(self, alloc: Global, capacity: usize) -> Option<StringLines<PolymorphicString>> {
        Some(StringLines::new(PolymorphicString::new(alloc, capacity).ok()?))
    }
}

impl<'a> MakesIn<&'a Bump<Global>> for Strings {
    type Made = StringLines<RelocatableString<&'a Bump<Global>>>;

    fn make(
        self,
        arena: &'a Bump<Global>,
        capacity: usize,
    ) -> Option<StringLines<RelocatableString<&'a Bump<Global>>>> {
        Some(StringLines::new(UninitString::new_uninit(capacity).init(arena).ok()?))
    }
}
