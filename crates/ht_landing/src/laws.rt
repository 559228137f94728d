//! Coded bits and label bits are one to one, at every rate.
ghost use Rattle.std.specs.Prelude.{
  ◌≡◌,
  ◌+◌,
  ◌*◌,
  ◌%◌,
  ◌<◌,
  ◌↔◌,
  ℕ,
  List,
  Bool,
  false,
  slice_index_or,
};
ghost use Rattle.ht_landing.specs.Landings.{IsLabelBit, Lands, coded_bit_of, landing_of};
ghost use Rattle.ht_landing.specs.Symbols.{AreInterleaved, placed_bit};
ghost use Rattle.ht_landing.specs.declared.landings.Landing.{Landing};
ghost use Rattle.ht_parse.specs.Encoders.{list_of};
ghost use Rattle.ht_parse.specs.Streams.{IsLaid, share_of};
ghost use Rattle.ht_rate.specs.Rates.{encoders_of};
ghost use Rattle.ht_rate.specs.declared.rates.Rate.{Rate};

/// Each coded bit of each encoder lands at one label bit, in the symbol of its share. So the coded bits below
/// `n * N_CBPS / N_ES` are those that land in the first n symbols.
pub fn each_coded_bit_lands_once()
    ensures lands { (r : Rate) (j q : ℕ) → j < encoders_of r → Lands r j q (landing_of r j q) }
    ensures once { (r : Rate) (j q : ℕ) (l : Landing) → Lands r j q l → l ≡ landing_of r j q }
    ensures symbol { (r : Rate) (j q n : ℕ) → (landing_of r j q).symbol < n ↔ (q < n * share_of r) }
{}

/// At each label bit of each symbol exactly one coded bit of one encoder lands.
pub fn each_label_bit_is_landed_on_once()
    ensures lands { (r : Rate) (l : Landing) → IsLabelBit r l
        → ((coded_bit_of r l).0 < encoders_of r)
        × Lands r (coded_bit_of r l).0 (coded_bit_of r l).1 l }
    ensures once { (r : Rate) (l : Landing) (j q : ℕ) → Lands r j q l → (j, q) ≡ coded_bit_of r l }
{}

/// A symbol that is laid on the streams and interleaved has each coded bit where it lands: the label bit has what
/// the encoder's share of this symbol has.
pub fn each_label_bit_has_its_coded_bit()
    ensures { (r : Rate) (bits first second : List Bool) (places : ℕ → List Bool) (j q : ℕ)
        → IsLaid r bits first second → AreInterleaved r bits places → j < encoders_of r
        → placed_bit r places (landing_of r j q)
        ≡ slice_index_or (list_of first second j) (q % share_of r) false }
{}
