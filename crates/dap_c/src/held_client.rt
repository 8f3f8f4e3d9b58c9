//! A client with what its caller may still fetch.
ghost use Rattle.std.specs.Prelude.{◌≡◌};

use dap_client::Client;

/// A client with what its caller may still fetch.
#[derive(Drop)]
pub struct HeldClient {
    pub(crate) client: Client,
    /// What is to be written.
    pub(crate) bytes: Vec<u8>,
    /// The bytes that were used since the message before: of the frame under way, or of the last one, where it is whole.
    pub(crate) frame: Vec<u8>,
    /// The frame is whole: its message was delivered by the last call of `take`.
    pub(crate) whole: bool,
}
