ghost use Rattle.std.specs.Prelude.{◌≡◌, ◌≤◌, length, IfOk};
ghost use Rattle.request_codecs.specs.Readdressing.{readdressed};

use fixed_fields::write_int64;
use grid_base::{Bytes, Memory};
use std::alloc::Global;

/// Where the bytes of a request have its correlation: behind the header of its first frame and its type.
const CORRELATION_OFFSET: usize = 10;

/// How many bytes it has.
const CORRELATION_LENGTH: usize = 8;

/// The same request under another correlation, at the cost of its length.
pub fn readdressed(alloc: Global, request: &Bytes, correlation: i64) -> Result<Bytes, Memory>
    requires { 18 ≤ length request.now }
    ensures { IfOk result (λ again. again ≡ readdressed correlation request.now) }
{
    let (front, rest) = request.as_slice().split_at(CORRELATION_OFFSET);
    let (_, behind) = rest.split_at(CORRELATION_LENGTH);
    let mut again = Vec::from_slice(alloc, front)?;
    write_int64(correlation, &mut again)?;
    again.extend_from_slice(behind)?;
    Ok(Bytes::from_vec(again))
}
