//! The changes of a semantic string.
//!
//! `truncate` checks the rules first. `insert_bytes`, `remove`, `strip_prefix` and `strip_suffix` change the string, and undo the
//! change if the rules do not accept it. `remove_range` and `remove_if` change a copy.
ghost use Rattle.std.specs.Prelude.{◌≡◌, ◌-◌, ◌≤◌, [], ◌∷◌, ◌++◌, List, ℕ, length, take, drop, remove, true, false, Some, Ok, OnOk, OnErr, slice_get};
ghost use Rattle.std.specs.List.{insert_slice};
ghost use Rattle.ix_string.specs.Retain.{IsCallableAtText, Retains};
ghost use Rattle.ix_string.specs.Text.{MatchesAt, EndsWith};
ghost use Rattle.ix_semantic_string.specs.Rules.{IsAccepted};
ghost use Rattle.ix_semantic_string.specs.SemanticSteps.{SemanticResult, text_without_range};

use crate::semantic_string::semantic::judge;
use crate::semantic_string::{Rules, Semantic, SemanticStringError};
use ix_string::{StaticString, String};

impl<R: Rules<CAPACITY>, const CAPACITY: usize> Semantic<R, CAPACITY> {
    /// Inserts `byte` at index `idx`, which is at most the length, shifting all later bytes to the right. O(`len - idx`) plus the
    /// time of the rules.
    ///
    /// Returns the errors of [`Semantic::insert_bytes`].
    #[inline]
    pub fn insert(&mut self, idx: usize, byte: u8) -> Result<(), SemanticStringError>
        requires { idx ≤ length self.old }
        ensures value { SemanticResult CAPACITY R.rules
            (insert_slice self.old idx (byte ∷ [])) tt result }
        ensures string { OnOk result (self.new ≡ insert_slice self.old idx (byte ∷ [])) }
        ensures refused { OnErr result (self.new ≡ self.old) }
    {
        self.insert_bytes(idx, &[byte])
    }

    /// Inserts `bytes` at index `idx`, which is at most the length, shifting all later bytes to the right.
    /// O(`len - idx + bytes.len()`) plus the time of the rules.
    ///
    /// Returns [`SemanticStringError::ExceedsMaximumLength`] if the bytes do not fit. Otherwise, returns
    /// [`SemanticStringError::InvalidContent`] if one of them is 0 or above 127, or if the rules do not accept the whole string.
    pub fn insert_bytes(&mut self, idx: usize, bytes: &[u8]) -> Result<(), SemanticStringError>
        requires { idx ≤ length self.old }
        ensures value { SemanticResult CAPACITY R.rules
            (insert_slice self.old idx bytes.now) tt result }
        ensures string { OnOk result (self.new ≡ insert_slice self.old idx bytes.now) }
        ensures refused { OnErr result (self.new ≡ self.old) }
    {
        self.text.insert_bytes(idx, bytes)?;
        if let Err(error) = judge::<R, CAPACITY>(self.text.as_bytes()) {
            let _ = self.text.remove_range(idx, bytes.len());
            return Err(error);
        }
        Ok(())
    }

    /// Inserts `bytes` at index `idx`, shifting all later bytes to the right, without checking that the whole string is accepted.
    /// O(`len - idx + bytes.len()`).
    pub fn insert_bytes_unchecked(&mut self, idx: usize, bytes: &[u8])
        requires index { idx ≤ length self.old }
        requires accepted { IsAccepted CAPACITY R.rules (insert_slice self.old idx bytes.now) }
        ensures { self.new ≡ insert_slice self.old idx bytes.now }
    {
        self.text.insert_bytes_unchecked(idx, bytes);
    }

    /// Removes the last byte and returns it, or `Ok(None)` if the string is empty. O(1) plus the time of the rules.
    ///
    /// Returns [`SemanticStringError::InvalidContent`] if the rules do not accept the other bytes.
    pub fn pop(&mut self) -> Result<Option<u8>, SemanticStringError>
        ensures value { SemanticResult CAPACITY R.rules (take (length self.old - 1) self.old)
            (slice_get self.old (length self.old - 1)) result }
        ensures string { OnOk result (self.new ≡ take (length self.old - 1) self.old) }
        ensures refused { OnErr result (self.new ≡ self.old) }
    {
        let len = self.text.len();
        if len == 0 {
            return Ok(None);
        }
        self.remove(len - 1)
    }

    /// Appends `byte`. O(1) plus the time of the rules.
    ///
    /// Returns the errors of [`Semantic::insert_bytes`].
    #[inline]
    pub fn push(&mut self, byte: u8) -> Result<(), SemanticStringError>
        ensures value { SemanticResult CAPACITY R.rules (self.old ++ byte ∷ []) tt result }
        ensures string { OnOk result (self.new ≡ self.old ++ byte ∷ []) }
        ensures refused { OnErr result (self.new ≡ self.old) }
    {
        self.push_bytes(&[byte])
    }

    /// Appends `bytes`. O(`bytes.len()`) plus the time of the rules.
    ///
    /// Returns the errors of [`Semantic::insert_bytes`].
    #[inline]
    pub fn push_bytes(&mut self, bytes: &[u8]) -> Result<(), SemanticStringError>
        ensures value { SemanticResult CAPACITY R.rules (self.old ++ bytes.now) tt result }
        ensures string { OnOk result (self.new ≡ self.old ++ bytes.now) }
        ensures refused { OnErr result (self.new ≡ self.old) }
    {
        self.insert_bytes(self.len(), bytes)
    }

    /// Removes the byte at index `idx`, shifting all later bytes to the left, and returns it, or `Ok(None)` if `idx` is out of
    /// bounds. O(`len - idx`) plus the time of the rules.
    ///
    /// Returns [`SemanticStringError::InvalidContent`] if the rules do not accept the other bytes.
    pub fn remove(&mut self, idx: usize) -> Result<Option<u8>, SemanticStringError>
        ensures value { SemanticResult CAPACITY R.rules (remove self.old idx)
            (slice_get self.old idx) result }
        ensures string { OnOk result (self.new ≡ remove self.old idx) }
        ensures refused { OnErr result (self.new ≡ self.old) }
    {
        let removed = self.text.remove(idx);
        let Some(byte) = removed else {
            return Ok(None);
        };
        if let Err(error) = judge::<R, CAPACITY>(self.text.as_bytes()) {
            self.text.insert_bytes_unchecked(idx, &[byte]);
            return Err(error);
        }
        Ok(removed)
    }

    /// Removes the `n` bytes from index `idx` on, shifting all later bytes to the left. Changes nothing if there are fewer than `n`
    /// bytes from `idx` on, or if `idx` is greater than the length. It then still checks the rules, and returns `Ok`. O(`CAPACITY`)
    /// plus the time of the rules.
    ///
    /// Returns [`SemanticStringError::InvalidContent`] if the rules do not accept the other bytes.
    pub fn remove_range(&mut self, idx: usize, n: usize) -> Result<(), SemanticStringError>
        ensures value { SemanticResult CAPACITY R.rules
            (text_without_range self.old idx n) tt result }
        ensures string { OnOk result (self.new ≡ text_without_range self.old idx n) }
        ensures refused { OnErr result (self.new ≡ self.old) }
    {
        let mut candidate = self.text;
        let _ = candidate.remove_range(idx, n);
        self.become_if_accepted(candidate)
    }

    /// Removes each byte for which `f` returns `true`, keeping the order of the others. `f` is called once for each byte, from the
    /// last to the first. O(`CAPACITY`) plus the time of the rules.
    ///
    /// Returns [`SemanticStringError::InvalidContent`] if the rules do not accept the kept bytes.
    pub fn remove_if<F: FnMut(u8) -> bool>(&mut self, f: F) -> Result<(), SemanticStringError>
        requires { IsCallableAtText F.step F.pre self.old f }
        ensures string { (kept : List ℕ) × Retains F.step f self.old kept
            × SemanticResult CAPACITY R.rules kept tt result × OnOk result (self.new ≡ kept) }
        ensures refused { OnErr result (self.new ≡ self.old) }
    {
        let mut candidate = self.text;
        candidate.remove_if(f);
        self.become_if_accepted(candidate)
    }

    /// Removes the bytes for which `f` returns `true`, as [`Semantic::remove_if`] does. The `retain` of std keeps those bytes
    /// instead. O(`CAPACITY`) plus the time of the rules.
    ///
    /// Returns the error of [`Semantic::remove_if`].
    #[inline]
    pub fn retain<F: FnMut(u8) -> bool>(&mut self, f: F) -> Result<(), SemanticStringError>
        requires { IsCallableAtText F.step F.pre self.old f }
        ensures string { (kept : List ℕ) × Retains F.step f self.old kept
            × SemanticResult CAPACITY R.rules kept tt result × OnOk result (self.new ≡ kept) }
        ensures refused { OnErr result (self.new ≡ self.old) }
    {
        self.remove_if(f)
    }

    /// Removes `bytes` from the start of the string and returns `Ok(true)`. Returns `Ok(false)` if the string does not start with
    /// them. O(`len`) plus the time of the rules.
    ///
    /// Returns [`SemanticStringError::InvalidContent`] if the rules do not accept the other bytes.
    pub fn strip_prefix(&mut self, bytes: &[u8]) -> Result<bool, SemanticStringError>
        ensures absent { ¬ MatchesAt self.old bytes.now 0 → result ≡ Ok false }
        ensures present { MatchesAt self.old bytes.now 0
            → SemanticResult CAPACITY R.rules (drop (length bytes.now) self.old) true result }
        ensures string { result ≡ Ok true → self.new ≡ drop (length bytes.now) self.old }
        ensures refused { ¬ (result ≡ Ok true) → self.new ≡ self.old }
    {
        if !self.text.strip_prefix(bytes) {
            return Ok(false);
        }
        if let Err(error) = judge::<R, CAPACITY>(self.text.as_bytes()) {
            self.text.insert_bytes_unchecked(0, bytes);
            return Err(error);
        }
        Ok(true)
    }

    /// Removes `bytes` from the end of the string and returns `Ok(true)`. Returns `Ok(false)` if the string does not end with them.
    /// O(`bytes.len()`) plus the time of the rules.
    ///
    /// Returns [`SemanticStringError::InvalidContent`] if the rules do not accept the other bytes.
    pub fn strip_suffix(&mut self, bytes: &[u8]) -> Result<bool, SemanticStringError>
        ensures absent { ¬ EndsWith self.old bytes.now → result ≡ Ok false }
        ensures present { EndsWith self.old bytes.now
            → SemanticResult CAPACITY R.rules
            (take (length self.old - length bytes.now) self.old) true result }
        ensures string { result ≡ Ok true
            → self.new ≡ take (length self.old - length bytes.now) self.old }
        ensures refused { ¬ (result ≡ Ok true) → self.new ≡ self.old }
    {
        if !self.text.strip_suffix(bytes) {
            return Ok(false);
        }
        if let Err(error) = judge::<R, CAPACITY>(self.text.as_bytes()) {
            self.text.insert_bytes_unchecked(self.text.len(), bytes);
            return Err(error);
        }
        Ok(true)
    }

    /// Shortens the string, keeping the first `n` bytes. Does nothing if `n` is greater than or equal to the length. O(`len - n`)
    /// plus the time of the rules.
    ///
    /// Returns [`SemanticStringError::InvalidContent`] if the rules do not accept the first `n` bytes.
    pub fn truncate(&mut self, n: usize) -> Result<(), SemanticStringError>
        ensures value { SemanticResult CAPACITY R.rules (take n self.old) tt result }
        ensures string { OnOk result (self.new ≡ take n self.old) }
        ensures refused { OnErr result (self.new ≡ self.old) }
    {
        if n >= self.len() {
            return Ok(());
        }
        judge::<R, CAPACITY>(&self.text.as_bytes()[..n])?;
        self.text.truncate(n);
        Ok(())
    }

    /// Replaces the string by `candidate` if the rules accept it.
    fn become_if_accepted(
        &mut self,
        candidate: StaticString<CAPACITY>,
    ) -> Result<(), SemanticStringError>
        ensures value { SemanticResult CAPACITY R.rules candidate.entry tt result }
        ensures string { OnOk result (self.new ≡ candidate.entry) }
        ensures refused { OnErr result (self.new ≡ self.old) }
    {
        judge::<R, CAPACITY>(candidate.as_bytes())?;
        self.text = candidate;
        Ok(())
    }
}
