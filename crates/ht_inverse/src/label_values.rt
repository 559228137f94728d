//! What is known of the bits of labels: hard decisions, or a value for each bit.
ghost use Rattle.std.specs.Prelude.{◌≡◌, ◌+◌, ◌-◌, ◌*◌, ◌<◌, ℕ, slice_index_or};
ghost use Rattle.ht_inverse.specs.declared.label_bit.LabelBit.{LabelBit};
ghost use Rattle.ht_inverse.specs.Shares.{HasDecision, HasValue, decision_in, mark_in, value_in};

use crate::label_bit::LabelBit;
use ht_viterbi::ReceivedBit;

/// What is known of the bits of a frame's labels.
pub(crate) trait LabelValues {
    /// What is known of a bit.
    type Value: Copy;

    /// There is something known of this bit of a label, by the number of the label in the frame.
    ghost has: { Self → ℕ → LabelBit → Type 0 };

    /// What is known of it.
    ghost known: { Self → ℕ → LabelBit → Self.Value };

    /// What is known of a bit of a label.
    fn known(&self, label: usize, place: LabelBit) -> Self::Value
        requires { has self.now label place }
        ensures { result ≡ known self.now label place };
}

/// The labels themselves, of which bits may be lost.
#[derive(Drop)]
pub(crate) struct Decisions<'a> {
    pub(crate) labels: &'a [u8],
}

impl<'a> LabelValues for Decisions<'a> {
    type Value = ReceivedBit;

    ghost has = { λ s label place. HasDecision s.labels.now label place };

    ghost known = { λ s label place. decision_in place (slice_index_or s.labels.now label 0) };

    #[inline(always)]
    fn known(&self, label: usize, place: LabelBit) -> ReceivedBit {
        let label = self.labels[label];
        if place.lost {
            ReceivedBit::Erased
        } else if label >> place.shift & 1 == 1 {
            ReceivedBit::One
        } else {
            ReceivedBit::Zero
        }
    }
}

/// The labels themselves, of which no bit is lost. Of a bit that is 0 there is an octet 0, and of one that is 1 any other.
#[derive(Drop)]
pub(crate) struct Marks<'a> {
    pub(crate) labels: &'a [u8],
}

impl<'a> LabelValues for Marks<'a> {
    type Value = u8;

    ghost has = { λ s label place. HasDecision s.labels.now label place };

    ghost known = { λ s label place. mark_in place (slice_index_or s.labels.now label 0) };

    #[inline(always)]
    fn known(&self, label: usize, place: LabelBit) -> u8 {
        self.labels[label] & place.mask
    }
}

/// A value for each bit of the labels, the first bit of a label first.
#[derive(Drop)]
pub(crate) struct Values<'a, V> {
    pub(crate) values: &'a [V],
    /// What is known of a bit that is lost.
    pub(crate) lost: V,
    /// The number of bits of a label.
    pub(crate) label_bits: u8,
}

impl<'a, V: Copy> LabelValues for Values<'a, V> {
    type Value = V;

    ghost has = { λ s label place. HasValue s.values.now s.label_bits label place };

    ghost known = { λ s label place. value_in s.lost s.label_bits s.values.now label place };

    #[inline(always)]
    fn known(&self, label: usize, place: LabelBit) -> V {
        if place.lost {
            self.lost
        } else {
            self.values[label * usize::from(self.label_bits)
                + usize::from(self.label_bits - 1 - place.shift)]
        }
    }
}
