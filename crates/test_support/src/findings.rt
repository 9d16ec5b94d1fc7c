//! The unexpected results of a test.
use std::cell::Cell;
use std::fmt::{Debug, InlineText};
use std::test::Fail;

/// The maximum number of bytes of a text. A longer one is cut.
const ROOM: usize = 400;

/// Notes the first thing that a test did not expect. The test goes on, and fails with that text at its end.
///
/// Findings are not `Drop`, so a test can't forget to return their [`Findings::verdict`]. They are in a cell, so no contract can
/// mention them.
///
/// ```text
/// let findings = Findings::new();
/// findings.expect_same(queue.pop(), Some(1), "the first item");
/// findings.verdict()    // Err with "the first item: found None, wanted Some(1)" if the queue is empty
/// ```
pub struct Findings {
    first: Cell<Option<InlineText<{ ROOM }>>>,
}

impl Findings {
    /// Returns findings without a note.
    pub fn new() -> Findings {
        Findings {
            first: Cell::new(None),
        }
    }

    /// Notes a text, unless one is noted already.
    fn note(&self, text: InlineText<{ ROOM }>) {
        if self.first.get().is_none() {
            self.first.set(Some(text));
        }
    }

    /// Notes `place`, which a test reaches only if something is unexpected.
    pub fn miss(&self, place: &str) {
        self.note(InlineText::of(format_args!("{place}: not as expected")));
    }

    /// Notes `place` unless `holds`.
    #[inline]
    pub fn expect(&self, holds: bool, place: &str) {
        if !holds {
            self.miss(place);
        }
    }

    /// Notes `row`, the index of a row in a table, and `place`, unless `holds`.
    #[inline]
    pub fn expect_at(&self, holds: bool, row: usize, place: &str) {
        if !holds {
            self.note(InlineText::of(format_args!("row {row}, {place}: not as expected")));
        }
    }

    /// Notes `place` and both values, unless `found == wanted`.
    pub fn expect_same<T: PartialEq + Debug + Drop>(&self, found: T, wanted: T, place: &str) {
        if found != wanted {
            let text = InlineText::of(format_args!("{place}: found {found:?}, wanted {wanted:?}"));
            self.note(text);
        }
    }

    /// Notes `row`, the index of a row in a table, `place` and both values, unless `found == wanted`.
    pub fn expect_same_at<T: PartialEq + Debug + Drop>(
        &self,
        found: T,
        wanted: T,
        row: usize,
        place: &str,
    ) {
        if found != wanted {
            let text = InlineText::of(format_args!(
                "row {row}, {place}: found {found:?}, wanted {wanted:?}"
            ));
            self.note(text);
        }
    }

    /// Returns the text that was noted first, or `None` if all was as expected.
    pub fn first(&self) -> Option<InlineText<{ ROOM }>> {
        self.first.get()
    }

    /// Returns the result of the test: a failure with the text that was noted first, if there is one.
    pub fn verdict(self) -> Result<(), Fail> {
        let Findings { first } = self;
        match first.into_inner() {
            Some(text) => Err(Fail::new(text.as_str())),
            None => Ok(()),
        }
    }
}
