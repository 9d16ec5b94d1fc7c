//! A message as JSON and back.
ghost use Rattle.std.specs.Prelude.{◌≡◌, IfOk, IfErr};
ghost use Rattle.serde_json.specs.View.{view};
ghost use Rattle.ix_names.specs.JsonTree.{option_read, list_read, i64_read};
ghost use Rattle.ix_json.specs.declared.json.json_fault.JsonFault.TheVariants.{OutOfMemory};

use ix_cells::StaticVec;
use ix_names::{JsonFault, JsonForm, RelocatableOption};
use serde_json::Value;
use std::alloc::Global;

/// At most 8 samples of a sensor, or `None` if the sensor is off.
pub type Samples = RelocatableOption<StaticVec<i64, 8>>;

/// Converts to JSON: an array of numbers, or null. The same samples are read from it. Returns an error only if an allocation fails.
pub fn to_json(samples: &Samples, alloc: Global) -> Result<Value, JsonFault>
    ensures value { IfOk result (λ value.
        option_read (list_read 8 i64_read) (view value) ≡ Ok samples.now) }
    ensures fault { IfErr result (λ fault. fault ≡ OutOfMemory) }
{
    samples.to_value(alloc)
}

/// Converts from JSON.
pub fn from_json(value: &Value) -> Result<Samples, JsonFault>
    ensures { result ≡ option_read (list_read 8 i64_read) (view value.now) }
{
    Samples::from_value(value)
}

/// Sends the samples as JSON, and returns the samples that are received. Returns an error only if an allocation fails.
pub fn send(samples: &Samples, alloc: Global) -> Result<Samples, JsonFault>
    ensures received { IfOk result (λ received. received ≡ samples.now) }
    ensures fault { IfErr result (λ fault. fault ≡ OutOfMemory) }
{
    let value = to_json(samples, alloc)?;
    from_json(&value)
}
