//! Laws of the chain, each the contract of a function that does nothing.
ghost use Rattle.std.specs.Prelude.{◌≡◌, ◌+◌, ◌*◌, ◌<◌, ℕ, List, Bool, false, length, slice_index_or};
ghost use Rattle.ht_rate.specs.Schemes.{bits_of, denominator_of, numerator_of};
ghost use Rattle.ht_map.specs.Gray.{label_bit};
ghost use Rattle.ht_pam.specs.declared.point.Point.{Point};
ghost use Rattle.ht_clause18.specs.declared.rates.LegacyRate.{LegacyRate};
ghost use Rattle.ht_clause18.specs.Carriers.{carriers, carrier_of, frequency_of, IsAtFrequency};
ghost use Rattle.ht_clause18.specs.Coded.{coded_of, symbol_bits};
ghost use Rattle.ht_clause18.specs.Frames.{LegacyFrameView};
ghost use Rattle.ht_clause18.specs.Interleaver.{place_of, origin_of, interleaved};
ghost use Rattle.ht_clause18.specs.Points.{carried, label_at, points_of, sent_points};
ghost use Rattle.ht_clause18.specs.Rates.{
  index_of,
  rate_of,
  modulation_of,
  pattern_of,
  label_bits_of,
  coded_bits_of,
  data_bits_of,
  symbols_of,
};

/// The columns of the table agree: N_BPSC is that of the constellation, N_CBPS is 48 times as many, and N_DBPS is
/// N_CBPS times R with no remainder. Each rate is the one that its index names.
pub fn table()
    ensures label_bits { (r : LegacyRate) → label_bits_of r ≡ bits_of (modulation_of r) }
    ensures coded_bits { (r : LegacyRate) → coded_bits_of r ≡ 48 * label_bits_of r }
    ensures data_bits { (r : LegacyRate) → data_bits_of r * denominator_of (pattern_of r) ≡ coded_bits_of r * numerator_of (pattern_of r) }
    ensures named { (r : LegacyRate) → rate_of (index_of r) ≡ Some r }
{}

/// The interleaver is one-to-one: places and origins are inverse to each other, both ways, and stay within the symbol.
pub fn inverse()
    ensures origin_of_place { (r : LegacyRate) (k : ℕ) → k < coded_bits_of r → origin_of r (place_of r k) ≡ k }
    ensures place_of_origin { (r : LegacyRate) (j : ℕ) → j < coded_bits_of r → place_of r (origin_of r j) ≡ j }
    ensures place_bound { (r : LegacyRate) (k : ℕ) → k < coded_bits_of r → place_of r k < coded_bits_of r }
    ensures origin_bound { (r : LegacyRate) (j : ℕ) → j < coded_bits_of r → origin_of r j < coded_bits_of r }
{}

/// Interleaved bits are as many as a symbol has, and bit k stands at its place.
pub fn interleaved_bit()
    ensures place { (r : LegacyRate) (bits : List Bool) (k : ℕ) → k < coded_bits_of r
        → slice_index_or (interleaved r bits) (place_of r k) false ≡ slice_index_or bits k false }
    ensures length { (r : LegacyRate) (bits : List Bool) → length (interleaved r bits) ≡ coded_bits_of r }
{}

/// The subcarriers of data and pilots are those of the standard.
pub fn frequencies()
    ensures { (index : ℕ) → index < carriers → IsAtFrequency (frequency_of index) (carrier_of index) }
{}

/// The bits of a label are the next N_BPSC of the interleaved bits, the first one the most significant.
pub fn label_bits()
    ensures { (r : LegacyRate) (places : List Bool) (m e : ℕ) → e < label_bits_of r
        → label_bit (modulation_of r) (label_at r places m) e ≡ slice_index_or places (m * label_bits_of r + e) false }
{}

/// The coded bits of a frame fill its symbols, and each symbol has N_CBPS of them.
pub fn filled()
    ensures coded { (f : LegacyFrameView) → length (coded_of f) ≡ symbols_of f.rate (length f.octets) * coded_bits_of f.rate }
    ensures symbol { (f : LegacyFrameView) (n k : ℕ) → k < coded_bits_of f.rate
        → slice_index_or (symbol_bits f n) k false ≡ slice_index_or (coded_of f) (n * coded_bits_of f.rate + k) false }
{}

/// A frame has 52 points a symbol, and each is the one that its subcarrier carries.
pub fn sent_point()
    ensures place { (f : LegacyFrameView) (n index : ℕ) (other : Point) → n < symbols_of f.rate (length f.octets) → index < carriers
        → slice_index_or (sent_points f) (n * carriers + index) other
        ≡ carried f.rate (interleaved f.rate (symbol_bits f n)) n (carrier_of index) }
    ensures length { (f : LegacyFrameView) → length (sent_points f) ≡ points_of f.rate (length f.octets) }
{}
