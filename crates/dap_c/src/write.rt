//! A body as a frame: a body comes in, and its frame goes out into the caller's buffer. Nothing else is touched.
ghost use Rattle.std.specs.Prelude.{◌≡◌, ◌<◌, length, ◌≢◌};
ghost use Rattle.dap_frame.specs.Written.{frame_of};
ghost use Rattle.dap_c_parts.specs.Buffer.{with_front};

use dap_c_parts::codes::{YT_NO_MEMORY, YT_OK, YT_SMALL};
use dap_c_parts::copying::put;
use dap_frame::write_frame;
use std::alloc::Global;

/// Puts the frame of a body into a buffer. `size` is how long the frame is, also where the buffer is too small for it.
#[unsafe(no_mangle)]
pub extern "C" fn yt_frame(alloc: Global, body: &[u8], out: &mut [u8], size: &mut usize) -> u32
    ensures frame { result ≡ YT_OK → out.new ≡ with_front (frame_of body.now) out.old }
    ensures size { result ≢ YT_NO_MEMORY → size.new ≡ length (frame_of body.now) }
    ensures small { result ≡ YT_SMALL → length out.old < length (frame_of body.now) }
    ensures unchanged { result ≢ YT_OK → out.new ≡ out.old }
    ensures codes { result ≢ YT_OK → result ≢ YT_SMALL → result ≡ YT_NO_MEMORY }
{
    let mut frame = Vec::new(alloc);
    match write_frame(&mut frame, body) {
        Err(_) => {
            *size = 0;
            YT_NO_MEMORY
        }
        Ok(()) => {
            *size = frame.len();
            put(frame.as_slice(), out)
        }
    }
}
