//! The words of a seed, and the numbers that are drawn from them.
ghost use Rattle.std.specs.Prelude.{◌≡◌, ◌≤◌, ◌^◌, ◌%◌, unsigned_abs, FitsSigned};
ghost use Rattle.std.specs.Int.{w32};
ghost use Rattle.ht_metric.specs.Distance.{received};
ghost use Rattle.ht_sim.specs.Words.{first, next, word};
ghost use Rattle.ht_sim.specs.Samples.{scrambler_of};
ghost use Rattle.ht_sim.specs.Channel.{diagonal_of, noise_of, entry_part_of, sample_drawn, tap_drawn};

use ht_metric::{Sample, Tap};
use ht_scramble::Seed;
use rand_core::utils::NextWord;
use rand_pcg::Pcg32;
use std::marker::Model;

/// The stream of the generator.
const STREAM: u64 = 54;

/// The words of a seed from some word on, which a contract sees as the state of their generator.
///
/// They have 32 bits each, and are those of the generator PCG XSH RR 64/32 on its stream 54.
#[derive(Drop)]
pub struct Words {
    generator: Pcg32,
}

impl Model for Words {
    ghost use Rattle.std.specs.Prelude.{ℕ, ◌≡◌};

    ghost Value = { ℕ };

    ghost view = { λ w. w.generator.state };

    ghost invariant = { λ w. w.generator.increment ≡ 109 };
}

impl Words {
    /// The words of a seed, from the first one on.
    #[tactic(auto, unfolding(crate::specs::Words::first, crate::specs::Words::next))]
    pub fn new(seed: u64) -> Words
        ensures { result ≡ first seed }
    {
        Words {
            generator: Pcg32::new(seed, STREAM),
        }
    }

    /// The next word.
    #[tactic(auto, unfolding(crate::specs::Words::word, crate::specs::Words::next))]
    pub fn draw(&mut self) -> u32
        ensures word { result ≡ word self.old }
        ensures behind { self.new ≡ next self.old }
    {
        self.generator.next_word()
    }

    /// A diagonal of a triangle, 64 to 255.
    pub fn diagonal(&mut self) -> u16
        ensures value { result ≡ diagonal_of (word self.old) }
        ensures behind { self.new ≡ next self.old }
    {
        64 + (self.draw() % 192) as u16
    }

    // A part of an entry.
    fn part(&mut self) -> i16
        ensures value { result ≡ entry_part_of (word self.old) }
        ensures behind { self.new ≡ next self.old }
    {
        (self.draw() % 129) as i16 - 64
    }

    // An entry of a triangle, its real part first.
    #[tactic(auto, unfolding(crate::specs::Channel::tap_drawn))]
    pub(crate) fn tap(&mut self) -> Tap
        ensures value { result ≡ (tap_drawn self.old).value }
        ensures behind { self.new ≡ (tap_drawn self.old).state }
    {
        let re = self.part();
        let im = self.part();
        Tap { re, im }
    }

    // The seed of a scrambler, from 1 to 127.
    pub(crate) fn seed(&mut self) -> Seed
        ensures value { result ≡ scrambler_of (word self.old) }
        ensures behind { self.new ≡ next self.old }
    {
        match Seed::new(1 + (self.draw() % 127) as u8) {
            Some(seed) => seed,
            None => unreachable!(),
        }
    }

    // An octet.
    pub(crate) fn octet(&mut self) -> u8
        ensures value { result ≡ word self.old % 256 }
        ensures behind { self.new ≡ next self.old }
    {
        (self.draw() % 256) as u8
    }

    // A part of the noise, at most `noise` to either side.
    fn noise(&mut self, noise: u16) -> i32
        ensures value { result ≡ noise_of noise (word self.old) }
        ensures bound { unsigned_abs result ≤ 65535 }
        ensures behind { self.new ≡ next self.old }
    {
        let spread = 2 * u32::from(noise) + 1;
        (self.draw() % spread) as i32 - i32::from(noise)
    }

    /// A sample with noise, at most `noise` in each part, which its real part gets first.
    #[tactic(auto, unfolding(crate::specs::Channel::sample_drawn))]
    pub fn sample(&mut self, noise: u16, exact: Sample) -> Sample
        requires re { unsigned_abs exact.re ≤ 2 ^ 25 }
        requires im { unsigned_abs exact.im ≤ 2 ^ 25 }
        ensures value { result ≡ (sample_drawn noise (received exact) self.old).value }
        ensures behind { self.new ≡ (sample_drawn noise (received exact) self.old).state }
        ensures fits_re { FitsSigned w32 result.re }
        ensures fits_im { FitsSigned w32 result.im }
    {
        let re = self.noise(noise);
        let im = self.noise(noise);
        Sample {
            re: exact.re + re,
            im: exact.im + im,
        }
    }
}
