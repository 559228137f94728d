//! The number of symbols of a PSDU (clause 20.3.11).
ghost use Rattle.std.specs.Prelude.{◌≡◌, ◌+◌, ◌*◌, ◌<◌, ◌≤◌};
ghost use Rattle.ht_rate.specs.Rates.{data_bits_of, needed_bits_of, symbols_of, pads_of, steps_of};

use crate::rates::Rate;

impl Rate {
    /// N_SYM, the number of symbols of a PSDU of `length` octets: the least number that holds 16 SERVICE bits, the
    /// octets and six tail bits for each encoder.
    #[tactic(auto, using(std::proofs::lemmas::Grind::div_ceil_times), unfolding(crate::specs::Rates::symbols_of))]
    pub fn symbols(&self, length: u16) -> u32
        requires { 1 ≤ length }
        ensures value { result ≡ symbols_of self.now length }
        ensures enough { needed_bits_of self.now length ≤ result * data_bits_of self.now }
        ensures least { result * data_bits_of self.now < needed_bits_of self.now length + data_bits_of self.now }
        ensures low { 1 ≤ result }
        ensures high { result ≤ 20166 }
    {
        self.needed_bits(length)
            .div_ceil(u32::from(self.data_bits()))
    }

    /// The number of pad bits behind the tail, which fill the last symbol.
    #[tactic(auto, unfolding(crate::specs::Rates::pads_of))]
    pub fn pads(&self, length: u16) -> u32
        requires { 1 ≤ length }
        ensures value { result ≡ pads_of self.now length }
        ensures filled { needed_bits_of self.now length + result ≡ symbols_of self.now length * data_bits_of self.now }
        ensures few { result < data_bits_of self.now }
    {
        self.symbols(length) * u32::from(self.data_bits()) - self.needed_bits(length)
    }

    /// The number of steps of each encoder's codeword: its share of SERVICE and octets, and its six tail bits.
    #[tactic(auto, unfolding(crate::specs::Rates::steps_of))]
    pub fn codeword_steps(&self, length: u16) -> u32
        requires { 1 ≤ length }
        ensures value { result ≡ steps_of self.now length }
        ensures low { 18 ≤ result }
        ensures high { result ≤ 524302 }
    {
        (8 * u32::from(length) + 16) / u32::from(self.encoders()) + 6
    }

    // The bits that have to be sent: SERVICE, the octets and the tails.
    #[tactic(auto, unfolding(crate::specs::Rates::needed_bits_of))]
    fn needed_bits(&self, length: u16) -> u32
        ensures value { result ≡ needed_bits_of self.now length }
        ensures low { 22 ≤ result }
        ensures high { result ≤ 524308 }
    {
        16 + 8 * u32::from(length) + 6 * u32::from(self.encoders())
    }
}
