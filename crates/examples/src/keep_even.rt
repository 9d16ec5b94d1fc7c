//! A loop that removes elements from a vector of any kind.
ghost use Rattle.std.specs.Prelude.{◌≡◌, ◌%◌, All};

use ix_vector::Vector;

/// Removes the odd numbers.
pub fn keep_even<V: Vector<u64>>(vector: &mut V)
    ensures even { All (λ number. number % 2 ≡ 0) (V.bounded vector.new).items }
{
    let mut i = 0;
    while i < vector.len() {
        if vector.as_slice()[i] % 2 == 0 {
            i += 1;
        } else {
            vector.remove(i);
        }
    }
}
