// The names of objects.
use std::alloc::{AllocError, Global};

// The least name of a kind that there isn't. Neither driver gives it, or a greater one.
const NO_NAME: u32 = 0xC000_0000;

/// The names that the two drivers gave, the core's first, in the order in which they gave them.
#[derive(Drop)]
pub struct Names {
    pairs: Vec<(u32, u32)>,
}

impl Names {
    pub fn new(alloc: Global) -> Names {
        Names {
            pairs: Vec::new(alloc),
        }
    }

    /// An object was made.
    pub fn note(&mut self, core: u32, plain: u32) -> Result<(), AllocError> {
        self.pairs.push((core, plain))?;
        Ok(())
    }

    /// The slow driver's name of what the core names so; one that it doesn't give where the core has never given the
    /// name, the same where it can't give it, as that of no reference.
    pub fn plain(&self, core: u32) -> u32 {
        match self.pairs.iter().find(|pair| pair.0 == core) {
            Some(pair) => pair.1,
            None => core.max(NO_NAME),
        }
    }

    /// The core's name of the object that was made so many objects after the one that it names so.
    pub fn later(&self, core: u32, steps: usize) -> u32 {
        match self
            .pairs
            .iter()
            .skip_while(|pair| pair.0 != core)
            .nth(steps)
        {
            Some(pair) => pair.0,
            None => NO_NAME,
        }
    }

    /// The core's name of what the slow driver names so.
    pub fn core(&self, plain: u32) -> u32 {
        match self.pairs.iter().find(|pair| pair.1 == plain) {
            Some(pair) => pair.0,
            None => NO_NAME,
        }
    }
}
