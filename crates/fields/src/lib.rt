// The reader of books, tables and lists of names: fields in file order, each judged by the refusals that concern it, nothing copied.
// What is accepted stays where it is, and a Place says where: specs/Places has the file that a place stands for.
#![tactic(auto)]

ghost use Rattle.std.specs.Prelude.{◌≡◌, ◌≤◌, ◌<◌, length};
ghost use Rattle.base.specs.Limits.{state_limit, names_met, class_met, name_mark, class_mark, row_mark};
ghost use Rattle.base.specs.Refusals.{fault_of};
ghost use Rattle.model.specs.Fields.{name_fault, class_fault, takes_class, takes_rows, takes_states, last_stage};
ghost use Rattle.fields.specs.Places.{kind_of, stage_of, Sound, Whole, StepBy, FieldStep, Turned, settings_of, ReadAs};
ghost use Rattle.fields.specs.Places.{TableReadAs, NamesReadAs};

use base::limits::{CLASS_MARK, CONTEXT_KIND, NAME_MARK, ROW_MARK, STATE_MARK};
use base::refusals::Refusal;
use judging::classes::{Class, class_fault};
use judging::names::name_fault;
use judging::offsets::{body, body_len, next_field};
use judging::rows::row_fault;
use judging::states::state_fault;

// The kinds of file: a book of rows, a table of states, and a list of names with nothing else.
#[derive(Clone, Copy, PartialEq, Eq, Debug)]
pub enum FileKind {
    Book,
    Table,
    NameList,
}

// What was met last: each stage comes after those above it.
#[derive(Clone, Copy, PartialEq, Eq, PartialOrd, Ord, Debug)]
pub enum Stage {
    NameDue,
    NamesMet,
    ClassMet,
    ItemsMet,
}

// How far reading has come, and where what was read stands.
#[derive(Clone, Copy)]
pub struct Place {
    // where the next field begins
    pub at: usize,
    // what was met last
    pub stage: Stage,
    // how many names; the first of them begins at offset 0
    pub names: u8,
    // where the last name's bytes begin, and how many they are; 0 and 0 where there is no name yet
    // Stays: (d) no slice in their place, since a place is kept and handed on without the input that it speaks of
    pub last: usize,
    pub width: usize,
    // the class
    pub class: Class,
    // where the first row or state begins, and how many there are; where there is none yet, the next field's offset and 0
    pub start: usize,
    pub items: usize,
}

// What books are read with: the class of a book that names none.
#[derive(Clone, Copy, PartialEq, Eq, Debug)]
pub struct Settings {
    pub default_class: Class,
}

// The settings of docs/SCOPE.md, section 3.5: context, k = 2, h = 1.
pub const STANDARD: Settings = Settings {
    default_class: Class {
        kind: CONTEXT_KIND,
        first: 2,
        second: 1,
    },
};

impl FileKind {
    // Whether a file of this kind may have a class.
    fn takes_class(self) -> bool
        ensures { result ≡ takes_class (kind_of self) }
    {
        matches!(self, FileKind::Book | FileKind::Table)
    }

    // Whether it has rows.
    fn takes_rows(self) -> bool
        ensures { result ≡ takes_rows (kind_of self) }
    {
        matches!(self, FileKind::Book)
    }

    // Whether it has states.
    fn takes_states(self) -> bool
        ensures { result ≡ takes_states (kind_of self) }
    {
        matches!(self, FileKind::Table)
    }

    // What must have been met before the end of the input.
    fn last_stage(self) -> Stage
        ensures { stage_of result ≡ last_stage (kind_of self) }
    {
        match self {
            FileKind::Book | FileKind::Table => Stage::ItemsMet,
            FileKind::NameList => Stage::NamesMet,
        }
    }
}

// A name field, where a name may come: the place after it, or what refuses it.
// Stays: (d) the input and a place go as two values, with `Whole` or `Sound` between them: each field makes a new place of the same input,
// and one value of both would be taken apart and put together again.
fn name_field(s: &[u8], p: Place) -> Result<Place, Refusal>
    requires whole { Whole s.now p }
    requires stage_le_names_met { stage_of p.stage ≤ names_met }
    ensures { StepBy (λ f. name_fault f.names) name_mark s.now p result }
{
    let name = body(s, p.at);
    name_fault(&s[p.last..p.last + p.width], p.names, name)?;
    let next = next_field(s, p.at);
    Ok(Place {
        at: next,
        stage: Stage::NamesMet,
        names: p.names + 1,
        last: p.at + 3,
        width: name.len(),
        start: next,
        items: 0,
        ..p
    })
}

// A class field, where the class may come: the place after it, or what refuses it.
#[tactic(auto, using(crate::proofs::PlaceLaws::class_bytes))]
fn class_field(s: &[u8], p: Place) -> Result<Place, Refusal>
    requires whole { Whole s.now p }
    requires stage_le_class_met { stage_of p.stage ≤ class_met }
    ensures { StepBy (λ _. class_fault) class_mark s.now p result }
{
    let bytes = body(s, p.at);
    class_fault(bytes)?;
    let next = next_field(s, p.at);
    Ok(Place {
        at: next,
        stage: Stage::ClassMet,
        class: Class {
            kind: bytes[0],
            first: bytes[1],
            second: bytes[2],
        },
        start: next,
        items: 0,
        ..p
    })
}

// An item, that is a row or a state, as judged: the place after it, or what refuses it.
fn item_field(s: &[u8], p: Place, judged: Result<(), Refusal>) -> Result<Place, Refusal>
    requires whole { Whole s.now p }
    requires p_lt_state_limit { fault_of judged ≡ 0 → p.items < state_limit }
    ensures { StepBy (λ _ _. fault_of judged) row_mark s.now p result }
{
    judged?;
    Ok(Place {
        at: next_field(s, p.at),
        stage: Stage::ItemsMet,
        items: p.items + 1,
        ..p
    })
}

// A field that does not run past the end: its mark decides how it is read, and a mark not allowed at this place is refused.
#[tactic(auto, using(crate::proofs::MarkLaws::misplaced_marks))]
fn whole_field(s: &[u8], kind: FileKind, p: Place) -> Result<Place, Refusal>
    requires { Whole s.now p }
    ensures { FieldStep (kind_of kind) s.now p result }
{
    match s[p.at] {
        NAME_MARK if p.stage <= Stage::NamesMet => name_field(s, p),
        CLASS_MARK if kind.takes_class() && p.stage == Stage::NamesMet => class_field(s, p),
        ROW_MARK if kind.takes_rows() && Stage::NamesMet <= p.stage => {
            item_field(s, p, row_fault(p.names, p.items, body(s, p.at)))
        }
        STATE_MARK if kind.takes_states() && Stage::ClassMet <= p.stage => {
            item_field(s, p, state_fault(p.names, p.items, body(s, p.at)))
        }
        _ => Err(Refusal::Misplaced),
    }
}

// The field at a place, judged by 2 and then by what concerns it.
fn field(s: &[u8], kind: FileKind, p: Place) -> Result<Place, Refusal>
    requires sound { Sound s.now p }
    requires at_in_bounds { p.at < length s.now }
    ensures { Turned (kind_of kind) s.now p result }
{
    let left = s.len() - p.at;
    if left < 3 || left - 3 < body_len(s, p.at) {
        return Err(Refusal::CutOff);
    }
    whole_field(s, kind, p)
}

// A whole file of this kind: where its parts stand, or its first refusal. Nothing is required of the input, and nothing is
// copied; the answer is that of the definition readWith, and every offset of an accepted file lies within the input.
pub fn read_with(s: &[u8], kind: FileKind, settings: Settings) -> Result<Place, Refusal>
    ensures { ReadAs (settings_of settings) (kind_of kind) s.now result }
{
    let mut p = Place {
        at: 0,
        stage: Stage::NameDue,
        names: 0,
        last: 0,
        width: 0,
        class: settings.default_class,
        start: 0,
        items: 0,
    };
    while p.at < s.len() {
        p = field(s, kind, p)?;
    }
    if p.stage != kind.last_stage() {
        return Err(Refusal::Unfinished);
    }
    Ok(p)
}

// A whole table, which names its class itself, whatever the settings.
pub fn read_table(s: &[u8]) -> Result<Place, Refusal>
    ensures { TableReadAs s.now result }
{
    read_with(s, FileKind::Table, STANDARD)
}

// A whole list of names, which has no class, whatever the settings.
pub fn read_names(s: &[u8]) -> Result<Place, Refusal>
    ensures { NamesReadAs s.now result }
{
    read_with(s, FileKind::NameList, STANDARD)
}
