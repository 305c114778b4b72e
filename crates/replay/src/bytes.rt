// Bytes written at the front of a part of an area.
ghost use Rattle.std.specs.Prelude.{◌≡◌, ◌≤◌, ◌++◌, length, drop, replicate};

pub(crate) fn put(part: &mut [u8], bytes: &[u8])
    requires { length bytes.now ≤ length part.old }
    ensures { part.new ≡ bytes.now ++ drop (length bytes.now) part.old }
{
    part[..bytes.len()].copy_from_slice(bytes);
}

pub(crate) fn zero(part: &mut [u8], n: usize)
    requires { n ≤ length part.old }
    ensures { part.new ≡ replicate n 0 ++ drop n part.old }
{
    part[..n].fill(0);
}
