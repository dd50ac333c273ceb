// Frames to be written.
ghost use Rattle.std.specs.Prelude.{◌≡◌, IfOk};
ghost use Rattle.gs_frames.specs.Frames.{frame_of};

use gs_base::Mem;
use std::alloc::Global;

/// The frame of a body: `Content-Length: N`, an empty line, and the body's N bytes.
pub fn frame(alloc: Global, body: &[u8]) -> Mem<Vec<u8>>
    ensures { IfOk result (λ v. v.items ≡ frame_of body.now) }
{
    let length = body.len();
    let mut frame = format!(in alloc; "Content-Length: {length}\r\n\r\n")?.into_bytes();
    frame.extend_from_slice(body)?;
    Ok(frame)
}
