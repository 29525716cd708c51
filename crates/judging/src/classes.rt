// Class fields and their refusal, 8; and the classes that they may hold.
ghost use Rattle.std.specs.Prelude.{◌≡◌};
ghost use Rattle.base.specs.Refusals.{fault_of};
ghost use Rattle.model.specs.Fields.{class_fault};
ghost use Rattle.judging.specs.Classes.{Judged};

use base::limits::{CONTEXT_KIND, LAST_NAMES_KIND, SEEN_SET_KIND, SETTING_LIMIT};
use base::refusals::Refusal;

// The three bytes of a class field as they stand, whether a class field may hold them or not.
#[derive(Clone, Copy, PartialEq, Eq, Debug)]
pub struct Class {
    pub kind: u8,
    pub first: u8,
    pub second: u8,
}

// A class that a class field may hold.
#[derive(Clone, Copy, PartialEq, Eq, Debug)]
pub enum Rule {
    Context { k: u8, h: u8 },
    SeenSet,
    LastNames { j: u8 },
}

// Whether the two settings go with the kind, and the class that they make.
impl TryFrom<Class> for Rule {
    type Error = Refusal;

    ghost try_from_gives = { Judged };

    fn try_from(class: Class) -> Result<Rule, Refusal> {
        match (class.kind, class.first, class.second) {
            (CONTEXT_KIND, k @ 1..=SETTING_LIMIT, h) if 1 <= h && h <= k => Ok(Rule::Context {
                k,
                h,
            }),
            (SEEN_SET_KIND, 0, 0) => Ok(Rule::SeenSet),
            (LAST_NAMES_KIND, j @ 0..=SETTING_LIMIT, 0) => Ok(Rule::LastNames { j }),
            _ => Err(Refusal::BadClass),
        }
    }
}

// What refuses a class field with these bytes.
#[tactic(auto, unfolding(model::specs::Fields::class_fault))]
pub fn class_fault(body: &[u8]) -> Result<(), Refusal>
    ensures { fault_of result ≡ class_fault body.now }
{
    let &[kind, first, second] = body else {
        return Err(Refusal::BadClass);
    };
    Rule::try_from(Class {
        kind,
        first,
        second,
    })?;
    Ok(())
}
