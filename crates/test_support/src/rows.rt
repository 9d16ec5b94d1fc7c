//! Tables of commands and the replies to them, for whatever runs commands.
use crate::Findings;
use ix_commands::Runs;
use std::alloc::AllocError;
use std::fmt::Debug;

/// Runs the command of each row in turn, and notes the first row whose reply is another one, and `place`.
///
/// ```text
/// let mut queue = FixedSizeQueue::<u64, 1>::new();
/// let rows = [(Push(7), Bool(true)), (Push(8), Bool(false)), (Pop, Value(7))];
/// check_rows(&findings, &mut queue, &rows, "fixed");
/// ```
pub fn check_rows<C: Copy, Y: Copy + PartialEq + Debug, R: Runs<C, Reply = Y>>(
    findings: &Findings,
    container: &mut R,
    rows: &[(C, Y)],
    place: &str,
) {
    for (number, (command, reply)) in rows.iter().enumerate() {
        let found = container.run_command(*command);
        findings.expect_same_at(found, *reply, number, place);
    }
}

/// Returns a container whose making can't fail as one whose making did not.
pub fn made<C>(container: C) -> Result<C, AllocError> {
    Ok(container)
}

/// Runs the rows of each table in turn, as [`check_rows`] does, on one container. Notes `place` if it could not be made.
pub fn check_tables<C: Copy, Y: Copy + PartialEq + Debug, R: Runs<C, Reply = Y> + Drop, E: Drop>(
    findings: &Findings,
    made: Result<R, E>,
    tables: &[&[(C, Y)]],
    place: &str,
) {
    match made {
        Ok(mut container) => {
            for rows in tables {
                check_rows(findings, &mut container, rows, place);
            }
        }
        Err(_) => findings.miss(place),
    }
}
