//! Kernels on strings.
ghost use Rattle.bench_kernels.specs.Fnv.{fnv_bytes};

use crate::generator::step;
use ix_string::{PolymorphicString, StaticString, String};
use std::alloc::{AllocError, Global};
use std::cmp::Ordering;
use std::hash::{Hash, Hasher};

type Text = StaticString<123>;

/// `abc` again and again, 100 bytes, with `xyz!` at 90.
fn sample() -> [u8; 100] {
    let mut bytes = [0u8; 100];
    for i in 0..100usize {
        bytes[i] = b'a' + (i % 3) as u8;
    }
    bytes[90] = b'x';
    bytes[91] = b'y';
    bytes[92] = b'z';
    bytes[93] = b'!';
    bytes
}

/// Returns the sample as a string.
fn sample_text() -> Text {
    match Text::from_bytes(&sample()) {
        Ok(text) => text,
        Err(_) => Text::new(),
    }
}

/// The sample with `a` as its last byte.
fn text_to_compare() -> Text {
    let mut text = sample_text();
    set_last(&mut text, b'a');
    text
}

/// Writes the last byte.
#[inline]
fn set_last(text: &mut Text, byte: u8) {
    text.pop();
    let _ = text.push(byte);
}

pub fn push_words(rounds: u64) -> u64 {
    let mut text = Text::new();
    let mut word = *b"abcdefgh";
    let mut sum: u64 = 0;
    for i in 0..rounds {
        word[(i & 7) as usize] = 97 + (i & 15) as u8;
        let _ = text.push_bytes(&word);
        sum = sum.wrapping_add(text.len() as u64);
        if text.len() == 120 {
            text.clear();
        }
    }
    sum
}

pub fn find_a_word(rounds: u64) -> u64 {
    let text = sample_text();
    let mut word = *b"xyz!";
    let mut sum: u64 = 0;
    for i in 0..rounds {
        word[3] = b'!' + (i & 1) as u8;
        sum = sum.wrapping_add(text.find(&word).unwrap_or(200) as u64);
    }
    sum
}

pub fn equality(rounds: u64) -> u64 {
    let text = text_to_compare();
    let mut other = text_to_compare();
    let mut sum: u64 = 0;
    for i in 0..rounds {
        set_last(&mut other, 97 + (i & 1) as u8);
        if text == other {
            sum = sum.wrapping_add(1);
        }
    }
    sum
}

pub fn order(rounds: u64) -> u64 {
    let text = text_to_compare();
    let mut other = text_to_compare();
    let mut sum: u64 = 0;
    for i in 0..rounds {
        set_last(&mut other, 97 + (i & 1) as u8);
        sum = sum.wrapping_add(match text.cmp(&other) {
            Ordering::Less => 0,
            Ordering::Equal => 1,
            Ordering::Greater => 2,
        });
    }
    sum
}

/// The hash function FNV-1a, of 64 bits.
#[derive(Drop)]
struct Fnv {
    state: u64,
}

impl Hasher for Fnv {
    ghost write = { λ fnv bytes. record { state = fnv_bytes fnv.state bytes } };

    ghost finish = { λ fnv. fnv.state };

    #[inline]
    fn finish(&self) -> u64 {
        self.state
    }

    #[inline]
    fn write(&mut self, bytes: &[u8]) {
        let mut state = self.state;
        for byte in bytes {
            state = (state ^ *byte as u64).wrapping_mul(0x100_0000_01b3);
        }
        self.state = state;
    }
}

pub fn hash(rounds: u64) -> u64 {
    let mut text = text_to_compare();
    let mut sum: u64 = 0;
    for i in 0..rounds {
        set_last(&mut text, 97 + (i & 1) as u8);
        let mut hasher = Fnv {
            state: 0xcbf2_9ce4_8422_2325,
        };
        text.hash(&mut hasher);
        sum = sum.wrapping_add(hasher.finish());
    }
    sum
}

pub fn insert_and_remove(rounds: u64) -> u64 {
    let mut text = text_to_compare();
    let mut x: u64 = 1;
    let mut sum: u64 = 0;
    for i in 0..rounds {
        x = step(x);
        let place = ((x >> 58) & 63) as usize;
        if place <= text.len() {
            let _ = text.insert_bytes(place, b"wxyz");
        }
        let _ = text.remove_range(place, 4);
        sum = sum.wrapping_add(byte_or_0(&text, (i & 63) as usize));
    }
    sum
}

#[inline]
fn byte_or_0(text: &Text, index: usize) -> u64 {
    match text.as_bytes().get(index) {
        Some(byte) => *byte as u64,
        None => 0,
    }
}

pub fn allocated_push_and_pop(alloc: Global, rounds: u64, capacity: usize) -> u64 {
    let Ok(mut text) = letters(alloc, capacity, capacity / 2) else {
        return 0;
    };
    let mut sum: u64 = 0;
    for i in 0..rounds {
        append(&mut text, 97 + (i & 15) as u8);
        sum = sum.wrapping_add(text.pop().unwrap_or(1) as u64);
    }
    sum
}

pub fn allocated_find_absent(alloc: Global, rounds: u64, capacity: usize) -> u64 {
    let Ok(text) = letters(alloc, capacity, capacity) else {
        return 0;
    };
    let mut word = *b"xyz!";
    let mut sum: u64 = 0;
    for i in 0..rounds {
        word[3] = b'!' + (i & 1) as u8;
        sum = sum.wrapping_add(text.find(&word).unwrap_or(200) as u64);
    }
    sum
}

/// Returns a string of `capacity` that holds `count` times the letter `a`.
fn letters(alloc: Global, capacity: usize, count: usize) -> Result<PolymorphicString, AllocError> {
    let mut text = PolymorphicString::new(alloc, capacity)?;
    for _ in 0..count {
        append(&mut text, b'a');
    }
    Ok(text)
}

/// Pushes a byte, by a call that the optimizer does not see through.
#[inline(never)]
fn append(text: &mut PolymorphicString, byte: u8) {
    let _ = text.push(byte);
}
