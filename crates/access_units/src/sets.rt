// The parameter sets that are known.
ghost use Rattle.std.specs.Prelude.{◌≡◌, ◌≤◌, ℕ, List, Option};

use param_sets::{Pps, Sps};
use std::alloc::{AllocError, Global};

/// The newest set of each number that came.
#[derive(Drop)]
pub struct KnownSets {
    sequence: Vec<Sps>,
    picture: Vec<Pps>,
}

impl KnownSets {
    ghost use Rattle.std.specs.Prelude.{OnOk, OnErr, IfSome, MatchOption, None, Some};
    ghost use Rattle.access_units.specs.Known.{IsKnownTo};
    ghost use Rattle.access_units.specs.Sets.{Sets, no_sets, picture_set, sequence_set, with_picture_set, with_sequence_set};
    ghost use Rattle.param_sets.specs.Accepted.{IsAcceptedPps, IsAcceptedSps};

    /// No set came.
    pub fn new(alloc: Global) -> KnownSets
        ensures { IsKnownTo result no_sets }
    {
        KnownSets {
            sequence: Vec::new(alloc),
            picture: Vec::new(alloc),
        }
    }

    /// The sequence set of this number.
    pub fn sequence_set(&self, id: u32) -> Option<&Sps>
        ensures value { (sets : Sets) → IsKnownTo self.now sets → MatchOption result (sequence_set sets id ≡ None) (λ sps. sequence_set sets id ≡ Some sps.now) }
        ensures accepted { (sets : Sets) → IsKnownTo self.now sets → IfSome result (λ sps. IsAcceptedSps sps.now) }
    {
        self.sequence
            .iter()
            .find(|sps| sps.seq_parameter_set_id == id)
    }

    /// The picture set of this number.
    pub fn picture_set(&self, id: u32) -> Option<&Pps>
        ensures value { (sets : Sets) → IsKnownTo self.now sets → MatchOption result (picture_set sets id ≡ None) (λ pps. picture_set sets id ≡ Some pps.now) }
        ensures accepted { (sets : Sets) → IsKnownTo self.now sets → IfSome result (λ pps. IsAcceptedPps pps.now) }
    {
        self.picture
            .iter()
            .find(|pps| pps.pic_parameter_set_id == id)
    }

    /// A sequence set comes, in place of the one of its number. Where there is no memory nothing changes.
    pub fn put_sequence_set(&mut self, sps: &Sps) -> Result<(), AllocError>
        requires { IsAcceptedSps sps.now }
        ensures put { OnOk result ((sets : Sets) → IsKnownTo self.old sets → IsKnownTo self.new (with_sequence_set sps.now sets)) }
        ensures untouched { OnErr result ((sets : Sets) → IsKnownTo self.old sets → IsKnownTo self.new sets) }
    {
        let id = sps.seq_parameter_set_id;
        match self
            .sequence
            .iter()
            .position(|known| known.seq_parameter_set_id == id)
        {
            Some(place) => self.sequence[place] = *sps,
            None => self.sequence.push(*sps)?,
        }
        Ok(())
    }

    /// A picture set comes, in place of the one of its number. Where there is no memory nothing changes.
    pub fn put_picture_set(&mut self, pps: &Pps) -> Result<(), AllocError>
        requires { IsAcceptedPps pps.now }
        ensures put { OnOk result ((sets : Sets) → IsKnownTo self.old sets → IsKnownTo self.new (with_picture_set pps.now sets)) }
        ensures untouched { OnErr result ((sets : Sets) → IsKnownTo self.old sets → IsKnownTo self.new sets) }
    {
        let id = pps.pic_parameter_set_id;
        match self
            .picture
            .iter()
            .position(|known| known.pic_parameter_set_id == id)
        {
            Some(place) => self.picture[place] = *pps,
            None => self.picture.push(*pps)?,
        }
        Ok(())
    }
}
