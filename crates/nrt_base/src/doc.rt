//! A document: a text under a key.

use crate::NoMemory;
use crate::key::Key;
use crate::share::Share;
use crate::text::Text;
use std::alloc::Global;

/// A document: a text under a key.
#[derive(Debug, Drop)]
pub struct Doc {
    pub key: Key,
    pub text: Text,
}

impl Share for Doc {
    fn share(&self, alloc: Global) -> Result<Self, NoMemory> {
        Ok(Doc {
            key: self.key.share(alloc)?,
            text: self.text.share(alloc)?,
        })
    }
}
