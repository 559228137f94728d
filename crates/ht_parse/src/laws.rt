//! What holds of the parsers at every rate.
ghost use Rattle.std.specs.Prelude.{◌≡◌, ◌+◌, ◌-◌, ◌*◌, ◌<◌, ◌≤◌, ℕ, List, Bool, false, slice_index_or};
ghost use Rattle.ht_rate.specs.declared.rates.Rate.{Rate};
ghost use Rattle.ht_rate.specs.Rates.{encoders_of, streams_of, stream_bits_of};
ghost use Rattle.ht_parse.specs.Encoders.{IsParsed, list_of};
ghost use Rattle.ht_parse.specs.Streams.{share_of, source_of, stream_place_of, IsLaid};

/// Each place of a stream comes from a bit that an encoder has, and that bit goes to this place.
pub fn places_to_bits()
    ensures { (r : Rate) (stream k : ℕ) → 1 ≤ stream → stream ≤ streams_of r → k < stream_bits_of r
        → ((source_of r stream k).0 < encoders_of r)
        × ((source_of r stream k).1 < share_of r)
        × (stream_place_of r (source_of r stream k).0 (source_of r stream k).1 ≡ (stream, k)) }
{}

/// Each bit of an encoder goes to a place that the streams have, and that place comes from this bit.
pub fn bits_to_places()
    ensures { (r : Rate) (j i : ℕ) → j < encoders_of r → i < share_of r
        → (1 ≤ (stream_place_of r j i).0)
        × ((stream_place_of r j i).0 ≤ streams_of r)
        × ((stream_place_of r j i).1 < stream_bits_of r)
        × (source_of r (stream_place_of r j i).0 (stream_place_of r j i).1 ≡ (j, i)) }
{}

/// The encoders' lists determine the list that was shared among them, and that list determines them. So splitting and
/// joining undo each other.
pub fn parsed_both_ways()
    ensures bits { (r : Rate) (a b first second : List Bool) → IsParsed r a first second → IsParsed r b first second → a ≡ b }
    ensures lists { (r : Rate) (bits a b c d : List Bool) → IsParsed r bits a b → IsParsed r bits c d → (a ≡ c) × (b ≡ d) }
{}

/// The encoders' lists determine the symbol, and the symbol determines them. So laying and gathering undo each other.
pub fn laid_both_ways()
    ensures bits { (r : Rate) (a b first second : List Bool) → IsLaid r a first second → IsLaid r b first second → a ≡ b }
    ensures lists { (r : Rate) (bits a b c d : List Bool) → IsLaid r bits a b → IsLaid r bits c d → (a ≡ c) × (b ≡ d) }
{}

/// Where an encoder's bit stands in the symbol.
pub fn bit_in_symbol()
    ensures { (r : Rate) (bits first second : List Bool) (j i : ℕ) → IsLaid r bits first second → j < encoders_of r → i < share_of r
        → slice_index_or bits (((stream_place_of r j i).0 - 1) * stream_bits_of r + (stream_place_of r j i).1) false
        ≡ slice_index_or (list_of first second j) i false }
{}
