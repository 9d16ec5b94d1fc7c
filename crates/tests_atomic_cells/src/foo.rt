//! A type with an encoding of its own.
use ix_atomic::AtomicCopy;

/// Two numbers, encoded one after the other.
#[derive(Clone, Copy, PartialEq, Eq, Debug)]
pub struct Foo {
    pub bar: u8,
    pub baz: u64,
}

/// The byte of `bar`, then the eight of `baz`.
impl AtomicCopy for Foo {
    ghost use Rattle.std.specs.Prelude.{◌<◌, ◌^◌, ◌∷◌, drop, refl, slice_index};
    ghost use Rattle.std.specs.Int.{w64, to_le_bytes, from_le_bytes};
    ghost use Rattle.std.proofs.Common.{sym, ◌∙◌, ap};
    ghost use Rattle.std.proofs.lemmas.Nat.{from_le_bytes-to_le_bytes_8};

    const SIZE: usize = 9;

    ghost SIZE = { 9 };

    ghost is_value = { λ foo. (foo.bar < 2 ^ 8) × (foo.baz < 2 ^ 64) };

    ghost encoding = { λ foo. foo.bar ∷ to_le_bytes w64 foo.baz };

    fn encode(&self, out: &mut [u8]) {
        let (bar, baz) = out.split_at_mut(1);
        self.bar.encode(bar);
        self.baz.encode(baz);
    }

    fn decode(bytes: &[u8]) -> Option<Foo> {
        let (bar, baz) = bytes.split_at(1);
        match (u8::decode(bar), u64::decode(baz)) {
            (Some(bar), Some(baz)) => Some(Foo { bar, baz }),
            _ => None,
        }
    }

    ghost encoding_len = { λ _ _. refl };

    ghost one_value = { λ v w v_is w_is same i. record {
      bar = ap (λ bytes. slice_index bytes 0) same i;
      baz = (sym (from_le_bytes-to_le_bytes_8 v.baz v_is.1)
          ∙ ap (λ bytes. from_le_bytes w64 (drop 1 bytes)) same
          ∙ from_le_bytes-to_le_bytes_8 w.baz w_is.1) i;
    } };
}
