//! What follows from the definitions alone. None of these functions does anything: its contract is a law.
ghost use Rattle.std.specs.Prelude.{◌≡◌, ◌↔◌, ◌++◌, ◌<◌, ◌≤◌, ℕ, List, Bool, false, All, IsTrue, length, replicate, take};
ghost use Rattle.ht_bits.specs.Bits.{bits_of};
ghost use Rattle.ht_conv.specs.Code.{sent_bits};
ghost use Rattle.ht_rate.specs.declared.rates.Rate.{Rate};
ghost use Rattle.ht_rate.specs.Rates.{encoders_of, pattern_of, steps_of, symbols_of};
ghost use Rattle.ht_scramble.specs.Sequence.{IsSeed, scrambled};
ghost use Rattle.ht_viterbi.specs.Inputs.{IsDecoded, distance, is_terminated};
ghost use Rattle.ht_inverse.specs.declared.outcome.Outcome.TheVariants.{Octets, SeedZero};
ghost use Rattle.ht_inverse.specs.Decoding.{decoded_frame, outcome_of};
ghost use Rattle.ht_inverse.specs.Received.{received_of};
ghost use Rattle.ht_inverse.specs.Sent.{AreCodedOf, HoldCoded};

/// Where the labels of a frame without erased subcarriers hold what an encoder sent, its codeword is decoded to what went
/// in, at distance 0, whatever the encoder sent behind the tail.
pub fn undisturbed()
    ensures { (r : Rate) (octets j : ℕ) (labels : List ℕ) (coded : ℕ → List Bool) (input rest : List Bool)
        → j < encoders_of r → HoldCoded r (symbols_of r octets) labels coded
        → coded j ≡ sent_bits (pattern_of r) (input ++ rest) → IsTrue (is_terminated (steps_of r octets) input)
        → IsDecoded (steps_of r octets) (pattern_of r) (received_of r octets 0 labels j) input
        × (distance (pattern_of r) (received_of r octets 0 labels j) input ≡ 0) }
{}

/// The bits of SERVICE and of octets, scrambled with any seed, come to these octets.
pub fn returned()
    ensures { (seed : ℕ) (octets : List ℕ) → IsSeed seed → All (λ octet. octet < 256) octets
        → outcome_of (scrambled seed (replicate 16 false ++ bits_of octets)) ≡ Octets octets }
{}

/// There is no seed exactly where the first seven bits are 0.
pub fn seed_zero()
    ensures { (bits : List Bool) → 7 ≤ length bits → (outcome_of bits ≡ SeedZero) ↔ (take 7 bits ≡ replicate 7 false) }
{}

/// Where the labels hold what the encoders of a frame sent, the frame's octets come back, and no place differs: at every
/// rate, by any seed, and whatever follows the tails.
pub fn come_back()
    ensures { (r : Rate) (seed : ℕ) (octets : List ℕ) (labels : List ℕ) (coded : ℕ → List Bool)
        → IsSeed seed → All (λ octet. octet < 256) octets
        → AreCodedOf r (length octets) (scrambled seed (replicate 16 false ++ bits_of octets)) coded
        → HoldCoded r (symbols_of r (length octets)) labels coded
        → decoded_frame r (length octets) 0 labels ≡ record { outcome = Octets octets; code = 0 } }
{}
