//! The way from the last step of a word to the first, and the decoder that goes it.
ghost use Rattle.std.specs.Prelude.{◌≡◌, ◌≤◌, ◌^◌, IfOk, length};
ghost use Rattle.ht_conv.specs.Puncturing.{sent_count};
ghost use Rattle.ht_viterbi.specs.Inputs.{IsFound, tail};
ghost use Rattle.ht_viterbi.specs.Trellis.{least_from, AreChoices, word_steps};

use crate::coded_place::CodedPlace;
use crate::codeword::Cheapest;
use crate::walk::forwards;
use ht_bits::Bits;
use ht_rate::Pattern;
use std::alloc::{AllocError, Global};

/// A way from the last step to the first.
pub(crate) trait Backwards<P: CodedPlace> {
    /// Fills in the choices of all steps, and gives the least cost from state 0.
    fn backwards(pattern: Pattern, received: &[P], choices: &mut [u64]) -> u64
        requires count { length received.now ≡ sent_count pattern (length choices.old) }
        requires few { length choices.old ≤ 2 ^ 20 }
        ensures choices { AreChoices (word_steps P.cost pattern received.now (length choices.old)) choices.new }
        ensures least { result ≡ least_from (word_steps P.cost pattern received.now (length choices.old)) 0 };
}

/// A punctured codeword as it was received: the places of the coded bits that the pattern keeps of its steps.
#[derive(Drop)]
pub(crate) struct Word<'a, P: CodedPlace> {
    pub(crate) steps: u32,
    pub(crate) pattern: Pattern,
    pub(crate) received: &'a [P],
    pub(crate) ghost least: { tail ≤ steps },
    pub(crate) ghost most: { steps ≤ 524302 },
    pub(crate) ghost places: { length received.now ≡ sent_count pattern steps },
}

impl<'a, P: CodedPlace> Word<'a, P> {
    /// Decodes it: the way `W` backwards, and the one that the choices leave forwards.
    pub(crate) fn decode<W: Backwards<P>>(&self, alloc: Global) -> Result<Cheapest, AllocError>
        ensures { IfOk result (λ c. IsFound P.cost self.now.steps self.now.pattern self.now.received.now c.input c.cost) }
    {
        let mut choices = Vec::from_elem(alloc, 0u64, self.steps as usize)?;
        let mut input = Vec::with_capacity(alloc, self.steps as usize)?;
        let cost = W::backwards(self.pattern, self.received, choices.as_mut_slice());
        forwards(&choices, &mut input);
        Ok(Cheapest {
            input: Bits::from(input),
            cost,
        })
    }
}
