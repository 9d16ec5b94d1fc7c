//! A type of your own, in cells that threads share and in JSON.
ghost use Rattle.std.specs.Prelude.{◌≡◌, Some};

use ix_atomic::AtomicCopy;
use ix_names::{JsonFault, JsonForm, JsonItem};
use serde_json::Value;
use std::alloc::Global;

/// A temperature in thousandths of a kelvin.
///
/// `FixedSizeByteAtomic::<Temperature, 8>::new(temperature)` is a cell of it.
/// `SequencedByteAtomic::<Temperature, 8>::new(alloc, temperature)?` is a cell with a writer's seat and a reader's.
#[derive(Clone, Copy, PartialEq, Eq, Debug)]
pub struct Temperature {
    pub millikelvin: u64,
}

/// The eight bytes of the number, the least one first.
impl AtomicCopy for Temperature {
    ghost use Rattle.std.specs.Prelude.{◌<◌, ◌^◌, refl};
    ghost use Rattle.std.specs.Int.{w64, to_le_bytes, from_le_bytes};
    ghost use Rattle.std.proofs.Common.{sym, ◌∙◌, ap};
    ghost use Rattle.std.proofs.lemmas.Nat.{from_le_bytes-to_le_bytes_8};

    const SIZE: usize = 8;

    ghost SIZE = { 8 };

    ghost is_value = { λ temperature. temperature.millikelvin < 2 ^ 64 };

    ghost encoding = { λ temperature. to_le_bytes w64 temperature.millikelvin };

    fn encode(&self, out: &mut [u8]) {
        self.millikelvin.encode(out);
    }

    fn decode(bytes: &[u8]) -> Option<Temperature> {
        match u64::decode(bytes) {
            Some(millikelvin) => Some(Temperature { millikelvin }),
            None => None,
        }
    }

    ghost encoding_len = { λ _ _. refl };

    ghost one_value = { λ s t s_is t_is same i. record {
      millikelvin = (sym (from_le_bytes-to_le_bytes_8 s.millikelvin s_is)
          ∙ ap (from_le_bytes w64) same
          ∙ from_le_bytes-to_le_bytes_8 t.millikelvin t_is) i;
    } };
}

/// A number.
impl JsonForm for Temperature {
    ghost use Rattle.std.specs.Result.{result_map_both};
    ghost use Rattle.ix_names.specs.JsonTree.{u64_tree, u64_read};

    ghost tree = { λ temperature. u64_tree temperature.millikelvin };

    ghost read = { λ tree. result_map_both (λ n. record { millikelvin = n }) (λ fault. fault)
        (u64_read tree) };

    ghost is_infallible = { λ _. Unit {0} };

    fn to_value(&self, alloc: Global) -> Result<Value, JsonFault> {
        self.millikelvin.to_value(alloc)
    }

    fn from_value(value: &Value) -> Result<Self, JsonFault> {
        match u64::from_value(value) {
            Ok(millikelvin) => Ok(Temperature { millikelvin }),
            Err(fault) => Err(fault),
        }
    }
}

/// It is always read back, and never null, so that vectors of temperatures have a form too.
impl JsonItem for Temperature {
    ghost always_read_back = { λ _. tt };

    ghost never_null = { λ _ same. Prim.cc };
}

/// Encodes a temperature and decodes it again, as a cell does.
pub fn through_bytes(temperature: &Temperature) -> Option<Temperature>
    ensures { result ≡ Some temperature.now }
{
    let mut bytes = [0; 8];
    temperature.encode(&mut bytes);
    Temperature::decode(&bytes)
}
