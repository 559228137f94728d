//! What holds of the code for every input.
ghost use Rattle.std.specs.Prelude.{◌≡◌, ◌<◌, ◌≤◌, ◌*◌, ◌/◌, ◌++◌, [], ℕ, List, Bool, false, length, reverse, slice_index_or};
ghost use Rattle.ht_rate.specs.declared.kinds.Pattern.{Pattern};
ghost use Rattle.ht_rate.specs.declared.rates.Rate.{Rate};
ghost use Rattle.ht_rate.specs.Rates.{pattern_of, steps_of, symbols_of, coded_bits_of, encoders_of};
ghost use Rattle.ht_conv.specs.Code.{sent_bits};
ghost use Rattle.ht_conv.specs.Continued.{sent_from};
ghost use Rattle.ht_conv.specs.Puncturing.{sent_count};

/// Two inputs of one length that send the same bits are equal. Each step sends a bit whose sum has the present
/// input, so what is sent determines the input, step by step.
pub fn same_sent_same_input()
    ensures { (p : Pattern) (u v : List Bool) → length u ≡ length v → sent_bits p u ≡ sent_bits p v → u ≡ v }
{}

/// The number of bits that an input sends is the number that the pattern keeps of its steps.
pub fn length_of_sent()
    ensures { (p : Pattern) (u : List Bool) → length (sent_bits p u) ≡ sent_count p (length u) }
{}

/// What is sent can be taken step by step from the first step, with nothing before it.
pub fn sent_step_by_step()
    ensures { (p : Pattern) (u : List Bool) → sent_bits p u ≡ sent_from p 0 [] u }
{}

/// Of the input before a step only the last six bits count; where there are fewer, zeros stand for the others.
pub fn six_bits_count()
    ensures { (p : Pattern) (t : ℕ) (h k u : List Bool)
        → ((d : ℕ) → d < 6 → slice_index_or h d false ≡ slice_index_or k d false)
        → sent_from p t h u ≡ sent_from p t k u }
{}

/// What the first part of an input sends comes first, whatever follows it.
pub fn first_part_first()
    ensures { (p : Pattern) (u v : List Bool)
        → sent_bits p (u ++ v) ≡ sent_bits p u ++ sent_from p (length u) (reverse u) v }
{}

/// The bits that a codeword sends fit into its encoder's share of the coded bits of the frame's symbols. The rest of the
/// share is what the pad bits send.
pub fn sent_fits()
    ensures { (r : Rate) (octets : ℕ)
        → sent_count (pattern_of r) (steps_of r octets) ≤ symbols_of r octets * (coded_bits_of r / encoders_of r) }
{}
