//! The values that a reader of a cell finds while others write it.
use ix_atomic::Interfered;

/// The number of writers that a reader can tell apart.
const WRITERS: usize = 4;

/// The values and versions that a reader has found so far.
#[derive(Drop)]
pub struct Readings {
    /// Of each writer, the order of the latest value.
    latest: [u64; WRITERS],
    /// The greatest version.
    last: u64,
    are_expected: bool,
}

impl Readings {
    pub fn new() -> Self {
        Readings {
            latest: [0; WRITERS],
            last: 0,
            are_expected: true,
        }
    }

    /// Returns whether everything that was noted was expected.
    pub fn are_expected(&self) -> bool {
        self.are_expected
    }

    /// Notes the order of a value of a writer, which is `None` if the value is not whole: it is not less than the latest one's.
    pub fn note_value(&mut self, writer: usize, order: Option<u64>) {
        match (self.latest.get_mut(writer), order) {
            (Some(latest), Some(order)) => {
                self.are_expected &= *latest <= order;
                *latest = order;
            }
            _ => self.are_expected = false,
        }
    }

    /// Notes a version that was loaded, which is not less than any before it.
    pub fn note_version(&mut self, version: u64) {
        self.are_expected &= self.last <= version;
        self.last = version;
    }

    /// Notes a read that failed: its first version is odd or less than its last one, and not less than any before it.
    pub fn note_interfered(&mut self, interfered: Interfered) {
        let Interfered { first, last } = interfered;
        self.are_expected &= first % 2 == 1 || first < last;
        self.note_version(first);
        self.note_version(last);
    }
}
