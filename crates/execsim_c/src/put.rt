//! What is put into a caller's buffer.
ghost use Rattle.std.specs.Prelude.{◌≡◌, ◌≢◌, ◌≤◌, ◌<◌, ◌⊎◌, ◌++◌, drop, length};

use crate::status::TOO_LONG;

/// Puts these bytes at the front of a buffer that has room for them.
pub(crate) fn put(bytes: &[u8], out: &mut [u8])
    requires { length bytes.now ≤ length out.old }
    ensures { out.new ≡ bytes.now ++ drop (length bytes.now) out.old }
{
    let n = bytes.len();
    out[..n].copy_from_slice(bytes);
}

/// Puts these bytes at the front of a buffer, and their number in `size`, and answers the status; or 5 if there are
/// more of them than the buffer has room for, which is left alone then.
pub(crate) fn hand_over(bytes: &[u8], status: u32, out: &mut [u8], size: &mut u64) -> u32
    ensures size { size.new ≡ length bytes.now }
    ensures answers { (result ≡ status) ⊎ (result ≡ 5) }
    ensures put { result ≢ 5 → out.new ≡ bytes.now ++ drop (length bytes.now) out.old }
    ensures fits { result ≢ 5 → length bytes.now ≤ length out.old }
    ensures left { status ≢ 5 → result ≡ 5 → out.new ≡ out.old }
    ensures beyond { status ≢ 5 → result ≡ 5 → length out.old < length bytes.now }
{
    *size = bytes.len() as u64;
    if bytes.len() <= out.len() {
        put(bytes, out);
        status
    } else {
        TOO_LONG
    }
}
