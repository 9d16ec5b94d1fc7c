//! Readers and writers that behave like poor devices: a few bytes a call, interruptions, and errors.
use std::alloc::Global;
use std::cell::Cell;
use std::cmp::min;
use std::io::{Error, ErrorKind, Read, Write};

/// The calls of a device that fail: after `calls` calls so many `faults`, each of that `kind`. The calls after them work again.
#[derive(Drop)]
pub struct Faults {
    pub calls: usize,
    pub faults: usize,
    pub kind: ErrorKind,
}

impl Faults {
    /// Returns the `Faults` of a device that never fails.
    pub fn none() -> Faults {
        Faults::after(usize::MAX)
    }

    /// Returns the `Faults` of a device that works for `calls` calls, and then never again.
    pub fn after(calls: usize) -> Faults {
        Faults {
            calls,
            faults: usize::MAX,
            kind: ErrorKind::Other,
        }
    }

    /// Returns the `Faults` of a device that fails only at the call after `calls` calls.
    pub fn once_after(calls: usize, kind: ErrorKind) -> Faults {
        Faults {
            calls,
            faults: 1,
            kind,
        }
    }

    /// Counts a call, which fails if it has to.
    fn count_call(&mut self) -> std::io::Result<()> {
        if self.calls > 0 {
            self.calls -= 1;
        } else if self.faults > 0 {
            self.faults -= 1;
            return Err(Error::from(self.kind));
        }
        Ok(())
    }
}

/// Reads at most `piece` bytes a call.
#[derive(Drop)]
pub struct PoorReader<'a> {
    pub rest: &'a [u8],
    pub piece: usize,
    pub faults: Faults,
    /// The number of calls in a row that are interrupted before each other call. They do not count as calls.
    pub interruptions: usize,
    /// The number of calls that were interrupted since the last call that was not.
    pub interrupted: usize,
}

impl<'a> PoorReader<'a> {
    /// Returns a reader of `bytes` that neither fails nor is interrupted.
    pub fn new(bytes: &'a [u8], piece: usize) -> PoorReader<'a> {
        PoorReader {
            rest: bytes,
            piece,
            faults: Faults::none(),
            interruptions: 0,
            interrupted: 0,
        }
    }
}

impl Read for PoorReader<'_> {
    fn read(&mut self, buf: &mut [u8]) -> std::io::Result<usize> {
        if self.interrupted < self.interruptions {
            self.interrupted += 1;
            return Err(Error::from(ErrorKind::Interrupted));
        }
        self.interrupted = 0;
        self.faults.count_call()?;
        let count = min(min(self.piece, buf.len()), self.rest.len());
        let (first, others) = self.rest.split_at(count);
        buf[..count].copy_from_slice(first);
        self.rest = others;
        Ok(count)
    }
}

/// Writes at most `piece` bytes a call and `room` bytes in all.
#[derive(Drop)]
pub struct PoorWriter {
    pub bytes: Vec<u8>,
    pub piece: usize,
    pub room: usize,
    pub faults: Faults,
    /// As for [`PoorReader`].
    pub interruptions: usize,
    pub interrupted: usize,
    pub flush_fails: bool,
}

impl PoorWriter {
    /// Returns a writer that has room for all bytes, and neither fails nor is interrupted.
    pub fn new(alloc: Global, piece: usize) -> PoorWriter {
        PoorWriter {
            bytes: Vec::new(alloc),
            piece,
            room: usize::MAX,
            faults: Faults::none(),
            interruptions: 0,
            interrupted: 0,
            flush_fails: false,
        }
    }
}

impl Write for PoorWriter {
    fn write(&mut self, buf: &[u8]) -> std::io::Result<usize> {
        if self.interrupted < self.interruptions {
            self.interrupted += 1;
            return Err(Error::from(ErrorKind::Interrupted));
        }
        self.interrupted = 0;
        self.faults.count_call()?;
        let count = min(min(self.piece, buf.len()), self.room);
        self.bytes.extend_from_slice(&buf[..count])?;
        self.room -= count;
        Ok(count)
    }

    fn flush(&mut self) -> std::io::Result<()> {
        if self.flush_fails {
            return Err(Error::from(ErrorKind::Other));
        }
        Ok(())
    }
}

/// The lines that a person typed at a terminal, and the replies to them.
#[derive(Drop)]
pub struct Exchange {
    pub given: Cell<usize>,
    pub replies: Cell<usize>,
    pub flushes: Cell<usize>,
    /// Whether a line was asked for before all replies were written, or after the flush at the end.
    pub was_late: Cell<bool>,
}

impl Exchange {
    pub fn new() -> Exchange {
        Exchange {
            given: Cell::new(0),
            replies: Cell::new(0),
            flushes: Cell::new(0),
            was_late: Cell::new(false),
        }
    }
}

/// Reads at most one line a call, and notes at each call whether all replies were written.
#[derive(Drop)]
pub struct Asker<'a> {
    pub rest: &'a [u8],
    pub exchange: &'a Exchange,
}

impl Read for Asker<'_> {
    fn read(&mut self, buf: &mut [u8]) -> std::io::Result<usize> {
        let exchange = self.exchange;
        if exchange.replies.get() != exchange.given.get() || exchange.flushes.get() != 0 {
            exchange.was_late.set(true);
        }
        let line = first_lines(self.rest, 1);
        let count = min(min(line.len(), buf.len()), self.rest.len());
        let (first, others) = self.rest.split_at(count);
        buf[..count].copy_from_slice(first);
        self.rest = others;
        let given = exchange.given.get().wrapping_add(line_ends(first));
        exchange.given.set(given);
        Ok(count)
    }
}

/// Writes three bytes a call, and counts line feeds.
#[derive(Drop)]
pub struct Listener<'a> {
    pub exchange: &'a Exchange,
}

impl Write for Listener<'_> {
    fn write(&mut self, buf: &[u8]) -> std::io::Result<usize> {
        let count = min(buf.len(), 3);
        let replies = &self.exchange.replies;
        replies.set(replies.get().wrapping_add(line_ends(&buf[..count])));
        Ok(count)
    }

    fn flush(&mut self) -> std::io::Result<()> {
        let flushes = &self.exchange.flushes;
        flushes.set(flushes.get().wrapping_add(1));
        Ok(())
    }
}

/// Returns the number of line feeds in `bytes`.
pub fn line_ends(bytes: &[u8]) -> usize {
    let mut count = 0usize;
    for byte in bytes {
        if *byte == b'\n' {
            count = count.wrapping_add(1);
        }
    }
    count
}

/// Returns the first `count` lines of `text`, each with its line feed.
pub fn first_lines(text: &[u8], count: usize) -> &[u8] {
    let mut lines = 0usize;
    for (i, byte) in text.iter().enumerate() {
        if lines == count {
            return &text[..i];
        }
        if *byte == b'\n' {
            lines = lines.wrapping_add(1);
        }
    }
    text
}
