// Names: which bytes they have, their order, and the refusals 5, 6 and 7; and the n-th of them, by its number.
ghost use Rattle.std.specs.Prelude.{◌≡◌, ◌≤◌, length};
ghost use Rattle.base.specs.Lists.{all, before};
ghost use Rattle.base.specs.Refusals.{fault_of};
ghost use Rattle.model.specs.Fields.{starts_name, continues_name, name_ok};
ghost use Rattle.judging.specs.Judged.{NameJudged};
ghost use Rattle.judging.specs.Offsets.{offset_at, name_at};

use crate::offsets::{body, next_field};
use base::limits::{NAME_BYTES, NAME_LIMIT};
use base::refusals::Refusal;

// Whether a name may begin with this byte. By `|` here and below, and all bytes of a name whatever is met before: without a branch for each
// test a list of long names is read in half the time.
pub fn starts_name(b: u8) -> bool
    ensures { result ≡ starts_name b }
{
    matches!(b, b'A'..=b'Z') | matches!(b, b'a'..=b'z') | (b == b'_') | (b == b':')
}

// Whether this byte may stand in a name after its first.
pub fn continues_name(b: u8) -> bool
    ensures { result ≡ continues_name b }
{
    starts_name(b) | matches!(b, b'0'..=b'9') | (b == b'.') | (b == b'-')
}

// Whether these bytes may all stand in a name after its first.
fn all_continue(bytes: &[u8]) -> bool
    ensures { result ≡ all continues_name bytes.now }
{
    let mut good = true;
    for b in bytes {
        good &= continues_name(*b);
    }
    good
}

// Whether the bytes are an allowed name.
#[tactic(auto, using(crate::proofs::NameLaws::tested))]
pub fn name_ok(name: &[u8]) -> bool
    ensures { result ≡ name_ok name.now }
{
    let [first, rest @ ..] = name else {
        return false;
    };
    name.len() <= NAME_BYTES && starts_name(*first) && all_continue(rest)
}

// Whether a stands strictly before b in ascending byte order.
// Stays: (b) `a < b` of the library takes half as much again for long names; (a) its `cmp` divides, and what build reaches may not.
pub fn sorts_before(a: &[u8], b: &[u8]) -> bool
    ensures { result ≡ before a.now b.now }
{
    for i in 0..a.len().min(b.len()) {
        if a[i] != b[i] {
            return a[i] < b[i];
        }
    }
    a.len() < b.len()
}

// What refuses one more name after `count` names, the last of them `last` (empty where there is none yet).
#[tactic(auto, using(crate::proofs::NameLaws::judged))]
pub fn name_fault(last: &[u8], count: u8, name: &[u8]) -> Result<(), Refusal>
    ensures { NameJudged last.now count name.now (fault_of result) }
{
    if !name_ok(name) {
        return Err(Refusal::BadName);
    }
    if !sorts_before(last, name) {
        return Err(Refusal::NameOrder);
    }
    if NAME_LIMIT <= count {
        return Err(Refusal::TooMany);
    }
    Ok(())
}

// The bytes of name n of a list of `count` name fields, as a part of it; nothing where there is no such name. The list may stand at the
// front of a file.
// Stays: (a) no bytes for no name, as the clause of `name_at` has it (model's names by number, which listings cite, are the same).
#[tactic(auto, using(crate::proofs::OffsetLaws::names_turned), unfolding(crate::specs::Offsets::offset_at))]
pub fn name_at(list: &[u8], count: u8, n: u8) -> &[u8]
    requires { offset_at list.now 0 count ≤ length list.now }
    ensures { result.now ≡ name_at list.now count n }
{
    if count <= n {
        return &list[..0];
    }
    let mut at = 0;
    for _ in 0..n {
        at = next_field(list, at);
    }
    body(list, at)
}
