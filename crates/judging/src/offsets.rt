// Going through the fields of an accepted file by their offsets, without copying.
ghost use Rattle.std.specs.Prelude.{◌≡◌, ◌+◌, ◌≤◌, length};
ghost use Rattle.judging.specs.Offsets.{length_at, body_at, next_at};

// How many bytes the field at this offset says that it has after its mark and length.
#[tactic(auto, using(crate::proofs::OffsetLaws::length_at_lem))]
pub fn body_len(s: &[u8], at: usize) -> usize
    requires { at + 3 ≤ length s.now }
    ensures { result ≡ length_at s.now at }
{
    u16::from_be_bytes([s[at + 1], s[at + 2]]) as usize
}

// Where the field at this offset ends, which is where the next one begins.
pub fn next_field(s: &[u8], at: usize) -> usize
    requires { next_at s.now at ≤ length s.now }
    ensures { result ≡ next_at s.now at }
{
    at + (3 + body_len(s, at))
}

// The bytes of the field at this offset after its mark and length.
#[tactic(auto, using(crate::proofs::OffsetLaws::body_at_lem))]
pub fn body(s: &[u8], at: usize) -> &[u8]
    requires { next_at s.now at ≤ length s.now }
    ensures { result.now ≡ body_at s.now at }
{
    &s[at + 3..next_field(s, at)]
}
