//! The texts of recordings that are read. Many of them are the same, and those share their memory.
ghost use Rattle.std.specs.Prelude.{◌≡◌, IfOk};

use dap_json::Text;
use std::alloc::{AllocError, Global};

/// The bytes of the longest text that is kept to be shared.
const LONGEST: usize = 64;

/// The most places for texts.
const MOST_PLACES: usize = 4096;

/// For so many bytes of a recording there is one place.
const BYTES_A_PLACE: usize = 256;

/// Texts that came last, each at a place that its bytes give. Whoever reads many moments keeps one. It takes at most 4096 texts of
/// 64 bytes.
#[derive(Drop)]
pub struct Texts {
    pub(crate) alloc: Global,
    places: Vec<Text>,
}

/// A number that texts rarely have in common.
fn hash_of(bytes: &[u8]) -> usize {
    let mut hash: usize = 0xcbf29ce484222325;
    for byte in bytes {
        hash = (hash ^ *byte as usize).wrapping_mul(0x100000001b3);
    }
    hash
}

impl Texts {
    /// None came yet, of so many bytes of recordings: the more these are, the more texts are kept.
    ///
    /// # Errors
    /// `AllocError` where memory for the places is refused.
    pub fn new(alloc: Global, bytes: usize) -> Result<Texts, AllocError> {
        let count = (bytes / BYTES_A_PLACE).min(MOST_PLACES);
        let mut places = Vec::with_capacity(alloc, count)?;
        for _ in 0..count {
            places.push(Text::new(String::new(alloc)))?;
        }
        Ok(Texts { alloc, places })
    }

    /// A text with its own memory, which its copies share.
    fn copied(&self, text: &str) -> Result<Text, AllocError>
        ensures { IfOk result (λ t. t ≡ text.now) }
    {
        Ok(Text::copied(self.alloc, text)?.shared(self.alloc))
    }

    /// The text, in the memory of an equal one that came before where that is still kept.
    pub(crate) fn text(&mut self, text: &str) -> Result<Text, AllocError>
        ensures { IfOk result (λ t. t ≡ text.now) }
    {
        if text.len() > LONGEST || self.places.is_empty() {
            return self.copied(text);
        }
        let place = hash_of(text.as_bytes()) % self.places.len();
        if self.places[place].as_str() == text {
            return self.places[place].clone();
        }
        let copy = self.copied(text)?;
        self.places[place] = copy.clone()?;
        Ok(copy)
    }
}
