// What the forms in memory give of their bytes.
ghost use Rattle.std.specs.Prelude.{◌≡◌, ◌≤◌, length, take, drop, min};

/// Copies a front of the bytes to the front of the buffer, as much as both have and at most so much, and gives its
/// length.
pub(crate) fn fill(bytes: &[u8], most: usize, buf: &mut [u8]) -> usize
    ensures count { result ≡ min (length bytes.now) (min (length buf.old) most) }
    ensures front { take result buf.new ≡ take result bytes.now }
    ensures rest { drop result buf.new ≡ drop result buf.old }
{
    let count = bytes.len().min(buf.len().min(most));
    buf[..count].copy_from_slice(&bytes[..count]);
    count
}

/// Copies the bytes from a place on to the front of the buffer, as much as both have, and gives how many.
pub(crate) fn fill_from(bytes: &[u8], at: u64, buf: &mut [u8]) -> usize
    ensures bytes { take result buf.new ≡ take (length buf.old) (drop at bytes.now) }
    ensures count { result ≤ length buf.old }
{
    let start = bytes.len().min(at as usize);
    let most = buf.len();
    fill(&bytes[start..], most, buf)
}
