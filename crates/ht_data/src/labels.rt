//! From coded bits to labels.
ghost use Rattle.std.specs.Prelude.{◌≡◌, ◌+◌, ◌-◌, ◌*◌, ◌^◌, ◌<◌, ◌≤◌, ◌==◌, ℕ, false, length, slice_index_or};
ghost use Rattle.std.specs.Int.{bit_at, from_bool};
ghost use Rattle.ht_data.specs.Labels.{written};

/// The label of the coded bits at these places, at most six, the first one the most significant (IEEE Std 802.11-2012,
/// clauses 18.3.5.8 and 20.3.11.9).
pub fn label(places: &[u32], coded: &[bool]) -> u8
    requires few { length places.now ≤ 6 }
    requires inside { (e : ℕ) → e < length places.now → slice_index_or places.now e 0 < length coded.now }
    ensures value { result ≡ written (λ e. slice_index_or coded.now (slice_index_or places.now e 0) false) (length places.now) }
    ensures below { result < 2 ^ length places.now }
    ensures bits { (e : ℕ) → e < length places.now
        → (bit_at result (length places.now - 1 - e) == 1) ≡ slice_index_or coded.now (slice_index_or places.now e 0) false }
{
    let mut label = 0;
    for place in places {
        label = with_bit(label, coded[*place as usize]);
    }
    label
}

// A label with one bit more, the least significant.
fn with_bit(label: u8, bit: bool) -> u8
    requires { label < 64 }
    ensures { result ≡ 2 * label + from_bool bit }
{
    2 * label + u8::from(bit)
}
