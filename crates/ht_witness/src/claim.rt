//! The walk of a certificate.
ghost use Rattle.std.specs.Prelude.{◌≡◌, Some, Option};
ghost use Rattle.ht_sphere.specs.Searching.{better};
ghost use Rattle.ht_witness.specs.declared.check_fault.CheckFault.{CheckFault};
ghost use Rattle.ht_witness.specs.Walks.{Suffix, IsAt, beats};
ghost use Rattle.ht_witness.specs.Walking.{fault_here, fault_at};

use crate::flaw::Flaw;
use crate::visitor::Visitor;

// A claim about a job, and the marks that are to show it.
#[derive(Drop)]
pub(crate) struct Claim<'a> {
    pub(crate) claimed: &'a [i8],
    pub(crate) distance: u128,
    pub(crate) marks: &'a [bool],
}

impl<'a> Claim<'a> {
    // Whether a vector is nearer than the claimed one, or as near and before it.
    fn is_farther(&self, levels: &[i8], partial: u128) -> bool
        ensures { result ≡ better (levels.now, partial) (self.now.claimed.now, self.now.distance) }
    {
        partial < self.distance || (partial == self.distance && levels < self.claimed)
    }

    // Whether a suffix is a whole vector that is better than the claimed one.
    fn is_beaten(&self, ahead: usize, levels: &[i8], partial: u128) -> bool
        ensures { (s : Suffix) → IsAt ahead levels.now partial s
            → result ≡ beats (self.now.claimed.now, self.now.distance) s.ahead s.levels s.partial }
    {
        ahead == 0 && self.is_farther(levels, partial)
    }
}

impl<'a> Visitor for Claim<'a> {
    // The place of the next mark.
    type State = usize;

    type Break = Flaw;

    ghost Outcome = { Option CheckFault };

    ghost outcome = { λ claim at todo. fault_here (claim.claimed.now, claim.distance) claim.marks.now todo at };

    ghost stops = { λ fault at stop. fault ≡ Some (fault_at stop at) };

    fn visit(
        &self,
        ahead: usize,
        levels: &[i8],
        partial: u128,
        at: &mut usize,
    ) -> Result<bool, Flaw> {
        let Some(is_open) = self.marks.get(*at) else {
            return Err(Flaw::Ended);
        };
        if *is_open {
            if self.is_beaten(ahead, levels, partial) {
                return Err(Flaw::Beaten);
            }
            *at += 1;
            return Ok(true);
        }
        if partial <= self.distance {
            return Err(Flaw::Cut);
        }
        *at += 1;
        Ok(false)
    }
}
