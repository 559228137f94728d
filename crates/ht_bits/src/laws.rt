//! What holds of octets and their bits. No function here does anything: its contract is a law.
ghost use Rattle.std.specs.Prelude.{◌≡◌, ℕ, ◌+◌, ◌*◌, ◌%◌, ◌<◌, List, Bool, false, length, slice_index, slice_index_or, All};
ghost use Rattle.ht_bits.specs.Bits.{bit, bits_of, octets_of};

/// Bit `8 * m + i` is the bit of value `2^i` of octet `m`, and eight bits stand for each octet.
pub fn bit_of_octet()
    ensures place { (octets : List ℕ) (m i : ℕ) → m < length octets → i < 8
        → slice_index_or (bits_of octets) (8 * m + i) false ≡ bit (slice_index octets m) i }
    ensures length { (octets : List ℕ) → length (bits_of octets) ≡ 8 * length octets }
{}

/// Octets are what their bits give.
pub fn octets_of_bits()
    ensures { (octets : List ℕ) → All (λ octet. octet < 256) octets → octets_of (bits_of octets) ≡ octets }
{}

/// Bits, a multiple of eight, are those of the octets that they give.
pub fn bits_of_octets()
    ensures { (bits : List Bool) → length bits % 8 ≡ 0 → bits_of (octets_of bits) ≡ bits }
{}
