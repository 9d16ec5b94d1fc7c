//! Drawn sizes, which find a limit that code has and no test expects.
use crate::Findings;

/// The greatest size that is drawn.
const GREATEST: u64 = 100_000;

/// A size above those that are drawn.
const ABOVE: usize = 600_000;

/// A size that is above most limits, for calls that do little for each element.
pub const LARGE: usize = 2_000_001;

/// Calls `make` with sizes from 0 to 100,000, one drawn for each number of binary digits, and with 600,000. Notes the first size at
/// which it returns `false`, and `name`.
///
/// It is for calls that allocate, where there is memory for all sizes. A call that returns `AllocError` there reports a failure
/// that did not happen.
///
/// ```text
/// check_drawn_sizes(&findings, "a queue", |n| Queue::<u64, _>::new(alloc, n).is_ok());
/// ```
pub fn check_drawn_sizes<F: Fn(usize) -> bool>(findings: &Findings, name: &str, make: F)
    requires { F.IsAlwaysCallable make }
{
    let mut state = 20_261_126u64;
    for shift in 0..17u32 {
        state = state
            .wrapping_mul(6_364_136_223_846_793_005)
            .wrapping_add(1_442_695_040_888_963_407);
        let size = ((state >> 33) % (GREATEST + 1)) >> shift;
        findings.expect_at(make(size as usize), size as usize, name);
    }
    findings.expect_at(make(ABOVE), ABOVE, name);
}

/// Does the same as [`check_drawn_sizes`], and notes each size of `past_all` at which `make` returns `true`. No memory is enough
/// for these sizes.
pub fn check_capacities<F: Fn(usize) -> bool>(
    findings: &Findings,
    name: &str,
    past_all: &[usize],
    make: F,
)
    requires { F.IsAlwaysCallable make }
{
    for size in past_all {
        findings.expect_at(!make(*size), *size, name);
    }
    check_drawn_sizes(findings, name, make);
}
