//! The trait of values that are stored byte by byte.
ghost use Rattle.std.specs.Prelude.{◌≡◌, ◌↔◌, ℕ, List, length, Some};

/// A value with an encoding of [`AtomicCopy::SIZE`] bytes.
///
/// Each byte of the encoding can be read and written by itself. Each value has one encoding, and no two values have the same. The
/// bytes of an encoding do not depend on the machine.
///
/// A struct is stored as its fields are, by [`AtomicFields`](crate::AtomicFields).
///
/// This is `AtomicCopy` of iceoryx2-bb-elementary-traits, with an encoding in the place of the bytes in memory.
pub trait AtomicCopy: Copy {
    /// The number of bytes of an encoding.
    const SIZE: usize;

    ghost SIZE: { ℕ };

    /// Holds of the values of the type: contracts see an integer as any number, and a string as any list.
    ghost is_value: { Self → Type 0 };

    /// The bytes of a value.
    ghost encoding: { Self → List ℕ };

    /// Writes the encoding of the value to `out`, which has `SIZE` bytes. O(`SIZE`).
    fn encode(&self, out: &mut [u8])
        requires { length out.old ≡ SIZE }
        ensures out { out.new ≡ encoding self.now }
        ensures in_range { is_value self.now };

    /// Returns the value with the encoding `bytes`, which has `SIZE` bytes, or `None` if no value has it. O(`SIZE`).
    #[must_use]
    fn decode(bytes: &[u8]) -> Option<Self>
        requires { length bytes.now ≡ SIZE }
        ensures { (v : Self) → (result ≡ Some v) ↔ (is_value v × (bytes.now ≡ encoding v)) };

    /// An encoding has `SIZE` bytes.
    ghost encoding_len: { (v : Self) → is_value v → length (encoding v) ≡ SIZE };

    /// No two values have the same encoding.
    ghost one_value: { (v w : Self) → is_value v → is_value w → encoding v ≡ encoding w → v ≡ w };
}
