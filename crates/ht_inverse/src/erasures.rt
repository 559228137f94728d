//! Which data subcarriers are erased.
ghost use Rattle.std.specs.Prelude.{◌≡◌, ◌≢◌, ◌<◌, ◌==◌, ℕ, slice_index_or, replicate, false};
ghost use Rattle.ht_bits.specs.Bits.{bit};
ghost use Rattle.ht_rate.specs.declared.kinds.Carrier.TheVariants.{Data};
ghost use Rattle.ht_inverse.specs.Shares.{AreLost};

use ht_rate::{Carrier, Rate};

// Whether a bit of the number is 1.
fn is_marked(erased: u128, index: u8) -> bool
    requires { index < 128 }
    ensures { result ≡ bit erased index }
{
    erased >> index & 1 == 1
}

// No data subcarrier.
fn none() -> [bool; 108]
    ensures { result ≡ replicate 108 false }
{
    [false; 108]
}

// Marks a data subcarrier.
fn mark(lost: &mut [bool; 108], carrier: Carrier, erased: bool)
    ensures here { (m : ℕ) → m < 108 → carrier ≡ Data m → slice_index_or lost.new m false ≡ erased }
    ensures others { (m : ℕ) → carrier ≢ Data m → slice_index_or lost.new m false ≡ slice_index_or lost.old m false }
{
    if let Carrier::Data(m) = carrier {
        if usize::from(m) < lost.len() {
            lost[usize::from(m)] = erased;
        }
    }
}

/// Which data subcarriers are erased, by their numbers.
pub(crate) fn lost_carriers(rate: &Rate, erased: u128) -> [bool; 108]
    ensures { AreLost rate.now erased result }
{
    let mut lost = none();
    for index in 0..rate.carriers() {
        mark(&mut lost, rate.carrier(index), is_marked(erased, index));
    }
    lost
}
