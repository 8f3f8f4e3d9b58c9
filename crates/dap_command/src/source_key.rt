//! How a client names a source.
use dap_json::Text;
use std::alloc::AllocError;

/// How a source is named: by its path where it has one, also an empty one, else by its reference, 1 to 2147483647.
#[derive(Drop)]
pub enum SourceKey {
    Path(Text),
    Reference(u32),
}

impl Clone for SourceKey {
    ghost use Rattle.std.specs.Prelude.{◌≡◌};

    ghost is_clone = { λ a b. b ≡ a };

    fn clone(&self) -> Result<SourceKey, AllocError> {
        match self {
            SourceKey::Path(path) => Ok(SourceKey::Path(path.clone()?)),
            SourceKey::Reference(reference) => Ok(SourceKey::Reference(*reference)),
        }
    }
}
