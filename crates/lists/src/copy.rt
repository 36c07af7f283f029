// Copying a list.
ghost use Rattle.std.specs.Prelude.{◌≡◌, length};

// Copies a list over another of the same length. The library's `copy_from_slice` asks C for a
// `memmove` where it cannot tell that the two lie apart; this loop asks for nothing.
pub fn copy(from: &[u8], to: &mut [u8])
    requires { length to.old ≡ length from.now }
    ensures { to.new ≡ from.now }
{
    for (i, x) in from.iter().enumerate() {
        to[i] = *x;
    }
}
