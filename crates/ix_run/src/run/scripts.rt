//! Scripts: input bytes to reply bytes.
ghost use Rattle.std.specs.Prelude.{◌≡◌, [], Err, OnOk, OnErr};
ghost use Rattle.ix_run.specs.Outcome.{WritesReplies, WritesPartOfReplies, WritesRepliesBeforeReady};
ghost use Rattle.ix_run.specs.inner.Progress.{ReplyResult};
ghost use Rattle.ix_run.specs.Script.{replies_to};
ghost use Rattle.ix_run.specs.declared.run.devices.fault.ScriptFault.TheVariants.{OutOfMemory};

use crate::run::ScriptFault;
use crate::run::containers::{next_header, serve_header};
use crate::run::devices::{LineReader, ReplyWriter};
use std::alloc::Global;
use std::io::{Read, Write};

/// Runs a script. The replies to the lines before the header are question marks.
fn run_script<R: Read, W: Write>(
    alloc: Global,
    lines: &mut LineReader<'_, R>,
    replies: &mut ReplyWriter<'_, W>,
) -> Result<(), ScriptFault>
    requires rest { lines.old.buffer.rest ≡ [] }
    ensures replies { ReplyResult R.remaining W.contents (lines.old, replies.old) replies_to
        (lines.new, replies.new) result }
    ensures written { OnOk result (replies.new.pending ≡ []) }
    ensures same_reader { lines.new.reader.ghost_name ≡ lines.old.reader.ghost_name }
    ensures same_writer { replies.new.writer.ghost_name ≡ replies.old.writer.ghost_name }
{
    let Some(header) = next_header(lines, replies)? else {
        return replies.flush();
    };
    serve_header(alloc, header, lines, replies)?;
    replies.flush()
}

/// Runs a script: reads commands, one a line, and writes one line of reply to each.
///
/// The first command is a header, which makes a container; the reply is `ready`. It is `C fixed S`, `C heap N` or `C arena N`. C is
/// `queue`, `vec`, `table`, `slot`, `flat` or `text`. S is 0, 1, 3 or 8, and N is a number up to 1,000. The three forms make a
/// container of the fixed kind, an allocated one, and a relocatable one in an arena. A header of `slot` may end by ` at G`, the
/// generation of the slots at first, up to 4,294,967,295.
///
/// After the header, the commands are those of the container, as docs/SCRIPTS.md lists them, and `show`. The reply to any other
/// line, and to one of more than 200 bytes, is `?`, and the line changes nothing. A line ends with a line feed, which the last one
/// may lack.
///
/// O(length of the input and of the replies) beside the calls of the container. Allocates the container of an allocated or a
/// relocatable kind from `alloc`, and nothing else. The input is read in pieces of at most 32,768 bytes, and the replies wait in a
/// buffer of that size. All of them are written before the next read. Without an error the writer is flushed once, at the end.
/// Interrupted reads and writes are tried again.
///
/// Returns an error in these cases:
///
/// - [`ScriptFault::Read`] if a read fails or the input has no end after 18,446,744,073,709,551,615 reads;
/// - [`ScriptFault::Write`] if a write or the flush fails or a write accepts no byte;
/// - [`ScriptFault::OutOfMemory`] if the allocation of the container fails.
///
/// The replies to a first part of the input, or a first part of these, are written then. If the allocation fails, they are all
/// those before `ready`.
pub fn script<R: Read, W: Write>(
    alloc: Global,
    reader: &mut R,
    writer: &mut W,
) -> Result<(), ScriptFault>
    ensures ok { OnOk result
        (WritesReplies (R.remaining reader.old) (W.contents writer.old)
        (R.remaining reader.new) (W.contents writer.new)) }
    ensures err { OnErr result
        (WritesPartOfReplies (R.remaining reader.old) (W.contents writer.old)
        (R.remaining reader.new) (W.contents writer.new)) }
    ensures out_of_memory { result ≡ Err OutOfMemory
        → WritesRepliesBeforeReady (R.remaining reader.old) (W.contents writer.old)
        (R.remaining reader.new) (W.contents writer.new) }
{
    let mut lines = LineReader::new(reader);
    let mut replies = ReplyWriter::new(writer);
    run_script(alloc, &mut lines, &mut replies)
}
