// Runs of a plan's bytes: bytes that pass a test, a name, an end tag's name beside the start tag's. Each function answers where the run
// ends.
ghost use Rattle.std.specs.Prelude.{◌≡◌, ◌≤◌, ℕ, Bool, length};
ghost use Rattle.written_plans.specs.Written.{is_white, is_text};
ghost use Rattle.plan_reading.specs.Scanning.{Skipped, NameEnds, Agrees};

use base::limits::NAME_BYTES;
use judging::names::{continues_name, starts_name};

// Whether the byte is white space: space, tab, carriage return, line feed.
pub fn is_white(b: u8) -> bool
    ensures { result ≡ is_white b }
{
    matches!(b, b' ' | b'\t' | b'\r' | b'\n')
}

// Whether the byte is text: any but `<` and `&`.
pub fn is_text(b: u8) -> bool
    ensures { result ≡ is_text b }
{
    !matches!(b, b'<' | b'&')
}

// Past the bytes that pass a test.
pub fn skip<F: Fn(u8) -> bool>(s: &[u8], at: usize, passes: F) -> usize
    ghost test: { ℕ → Bool }
    requires at_in_bounds { at ≤ length s.now }
    requires callable { F.IsAlwaysCallable passes }
    requires tests { (b : ℕ) (r : Bool) → F.post passes b r → r ≡ test b }
    ensures { Skipped test s.now at result }
{
    for i in at..s.len() {
        if !passes(s[i]) {
            return i;
        }
    }
    s.len()
}

// Past the longest name; `at` itself where no name begins there.
#[tactic(auto, using(crate::proofs::ScanLaws::namings))]
pub fn name_end(s: &[u8], at: usize) -> usize
    requires { at ≤ length s.now }
    ensures { NameEnds s.now at result }
{
    if s.len() <= at || !starts_name(s[at]) {
        return at;
    }
    let longest = at + NAME_BYTES.min(s.len() - at);
    for i in at + 1..longest {
        if !continues_name(s[i]) {
            return i;
        }
    }
    longest
}

// Past the bytes that agree, one by one, with those from `from` on to `end`.
#[tactic(auto, using(crate::proofs::ScanLaws::agrees_for))]
pub fn agree(s: &[u8], from: usize, end: usize, at: usize) -> usize
    requires from_le_end { from ≤ end }
    requires end_le_at { end ≤ at }
    requires at_in_bounds { at ≤ length s.now }
    ensures { Agrees s.now from end at result }
{
    let longest = (end - from).min(s.len() - at);
    for i in 0..longest {
        if s[at + i] != s[from + i] {
            return at + i;
        }
    }
    at + longest
}
