//! Kernels on semantic strings.

use ix_names::GroupName;

pub fn new_names(rounds: u64) -> u64 {
    let mut word = *b"abcdefghijklmnop";
    let mut sum: u64 = 0;
    for i in 0..rounds {
        word[(i & 15) as usize] = 97 + (i & 15) as u8;
        sum = sum.wrapping_add(match GroupName::new(&word) {
            Ok(name) => name.len() as u64,
            Err(_) => 1,
        });
    }
    sum
}

pub fn compare_names(rounds: u64) -> u64 {
    let names = (
        GroupName::new(b"abcdefghijklmnop"),
        GroupName::new(b"abcdefghijklmnop"),
        GroupName::new(b"abcdefghijklmnoq"),
    );
    match names {
        (Ok(name), Ok(same), Ok(other)) => count_equal(&name, &[same, other], rounds),
        _ => 0,
    }
}

/// Compares the name with each of the others in turn, and returns how often it was equal.
fn count_equal(name: &GroupName, others: &[GroupName; 2], rounds: u64) -> u64 {
    let mut sum: u64 = 0;
    for i in 0..rounds {
        sum = sum.wrapping_add(u64::from(*name == others[(i & 1) as usize]));
    }
    sum
}
