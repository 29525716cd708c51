// Groups copied.
ghost use Rattle.std.specs.Prelude.{◌≡◌, length};

// Copies the numbers of one slice into another of the same length.
// Stays: (a) the C interface: `copy_from_slice` takes memmove, and the library takes memcpy and memset alone (include/plans.h).
pub fn copy(from: &[u16], to: &mut [u16])
    requires { length to.old ≡ length from.now }
    ensures len { length to.new ≡ length to.old }
    ensures after { to.new ≡ from.now }
{
    for (v, number) in from.iter().enumerate() {
        to[v] = *number;
    }
}
