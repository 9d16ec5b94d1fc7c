//! Keeps the newest three samples.
#![tactic(auto)]

ghost use Rattle.std.specs.Prelude.{◌≡◌, ◌↔◌, length, IsSome};

use ix_queue::FixedSizeQueue;

/// Adds a sample, and returns the oldest one if there were three.
fn add(samples: &mut FixedSizeQueue<u64, 3>, sample: u64) -> Option<u64>
    ensures { IsSome result ↔ (length samples.old.items ≡ 3) }
{
    samples.push_with_overflow(sample)
}

fn main(rt: HostRuntime) -> Result<(), anyhow::Error> {
    let mut samples = FixedSizeQueue::new();
    for sample in [5, 6, 7, 8] {
        if let Some(oldest) = add(&mut samples, sample) {
            println!(rt; "{oldest} made room for {sample}")?;
        }
    }
    println!(rt; "{samples:?}")?;
    Ok(())
}
