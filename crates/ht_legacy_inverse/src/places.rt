//! Where the labels of a symbol have its coded bits (IEEE Std 802.11-2012, clauses 18.3.5.7 and 18.3.5.8).
ghost use Rattle.std.specs.Prelude.{◌≡◌, ◌<◌};
ghost use Rattle.ht_clause18.specs.Rates.{coded_bits_of};
ghost use Rattle.ht_legacy_inverse.specs.Places.{AreLabelPlaces, label_place_of};

use crate::label_place::LabelPlace;
use ht_clause18::{LegacyRate, legacy_place};

// The most coded bits of a symbol.
const MOST: usize = 288;

// Where the labels have coded bit `k` of a symbol.
#[tactic(auto, unfolding(crate::specs::Places::label_place_of))]
fn label_place(rate: LegacyRate, k: u16) -> LabelPlace
    requires { k < coded_bits_of rate }
    ensures { result ≡ label_place_of rate k }
{
    let place = legacy_place(rate, k);
    let bits = u16::from(rate.label_bits());
    LabelPlace {
        carrier: (place / bits) as u8,
        mask: 1 << (bits - 1 - place % bits),
    }
}

/// For each coded bit of a symbol the place where the labels have it. A frame needs this table once.
pub(crate) fn label_places(rate: LegacyRate) -> [LabelPlace; 288]
    ensures { AreLabelPlaces rate result }
{
    let mut places = [LabelPlace {
        carrier: 0,
        mask: 0,
    }; MOST];
    for k in 0..rate.coded_bits() {
        places[usize::from(k)] = label_place(rate, k);
    }
    places
}
