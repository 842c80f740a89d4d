//! Bytes that are kept.

ghost use Rattle.std.specs.Prelude.{◌≡◌, ◌≤◌, drop, vec_len};

/// Drops the first `n` bytes; the others move to the front.
pub(crate) fn remove_front(bytes: &mut Vec<u8>, n: usize)
    requires { n ≤ vec_len bytes.old }
    ensures { bytes.new.items ≡ drop n bytes.old.items }
{
    if n > 0 {
        let len = bytes.len();
        bytes.rotate_left(n);
        bytes.truncate(len - n);
    }
}
