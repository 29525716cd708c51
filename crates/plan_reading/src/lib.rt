// A plan read in one pass over its bytes, from tag to tag. Of each tag that begins an element two bytes are kept in the log, the number of
// its name and how many elements are around it; of each open element where its name stands in the plan, and its number. Nothing is copied.
#![tactic(auto)]

pub mod log;
pub mod opens;
pub mod pieces;
pub mod scanning;
pub mod sought;

ghost use Rattle.std.specs.Prelude.{◌≡◌, ◌<◌, length};
ghost use Rattle.base.specs.Limits.{plan_depth};
ghost use Rattle.base.specs.Refusals.{fault_of};
ghost use Rattle.plan_reading.specs.Pieces.{NameHere, Stacked};
ghost use Rattle.plan_reading.specs.Turns.{sought_names, sought_name, judge_of, placeless, bad_byte, Room, Standing, TagJudged, ElementAs};
ghost use Rattle.plan_reading.specs.Turns.{TurnFrom, PlanReadAs};

use crate::log::put_entry;
use crate::opens::{Open, Stack};
use crate::pieces::{BadByte, Close, Piece, Reached, next_piece, tag_end};
use crate::sought::Sought;
use base::limits::PLAN_DEPTH;
use base::refusals::Refusal;

// Why a plan is refused, and the offset of that.
#[derive(Clone, Copy, Debug, PartialEq, Eq)]
pub struct Fault {
    pub refusal: Refusal,
    pub at: usize,
}

// A refusal that has no place in the plan.
impl From<Refusal> for Fault {
    ghost from_gives = { λ refusal fault. fault ≡ placeless refusal };

    fn from(refusal: Refusal) -> Fault {
        Fault { refusal, at: 0 }
    }
}

// A byte that no plan can have.
impl From<BadByte> for Fault {
    ghost from_gives = { λ bad fault. fault ≡ bad_byte bad };

    fn from(bad: BadByte) -> Fault {
        Fault {
            refusal: Refusal::BadPlan,
            at: bad.at,
        }
    }
}

// What refuses an element whose name has this number, inside those that are open.
#[tactic(auto, using(crate::proofs::StackLaws::judged))]
fn tag_fault(stack: &Stack, number: u8, sought: &Sought) -> Result<(), Refusal>
    ensures { TagJudged stack.now.opens stack.now.depth number sought.now (fault_of result) }
{
    if PLAN_DEPTH <= stack.depth {
        return Err(Refusal::TooDeep);
    }
    if number < sought.names.count {
        return Ok(());
    }
    match stack.innermost() {
        Some(around) if around.number == sought.chosen as usize => Err(Refusal::UnknownChild),
        _ => Ok(()),
    }
}

// An element from the end of its name on: one with a start tag is opened.
#[tactic(auto, using(crate::proofs::TurnLaws::elements))]
fn begin_element(
    plan: &[u8],
    element: Open,
    stack: &mut Stack,
    r: Reached,
) -> Result<Reached, BadByte>
    requires name_here { NameHere plan.now element.from element.end }
    requires at_lt_from { r.at < element.from }
    requires depth_lt_plan_depth { stack.old.depth < plan_depth }
    requires stacked { Stacked plan.now stack.old.opens stack.old.depth r }
    ensures { ElementAs plan.now stack.old stack.new r element result }
{
    let tags = r.tags + 1;
    match tag_end(plan, element.end)? {
        Close::Full(at) => {
            stack.push(element);
            Ok(Reached { at, tags })
        }
        Close::Empty(at) => Ok(Reached { at, tags }),
    }
}

// What stands next, up to the end of a tag: text, white space, and one tag.
#[tactic(auto, using(crate::proofs::TurnLaws::turns, crate::proofs::StackLaws::fine_shallow))]
fn read_piece(
    plan: &[u8],
    sought: &Sought,
    stack: &mut Stack,
    log: &mut [u8],
    r: Reached,
) -> Result<Reached, Fault>
    requires room { Room plan.now log.old }
    requires standing { Standing (sought_names sought.now) plan.now stack.old.opens stack.old.depth r }
    requires at_in_bounds { r.at < length plan.now }
    ensures { TurnFrom (sought_names sought.now) (judge_of sought.now) plan.now
        stack.old stack.new log.old log.new r result }
{
    match next_piece(plan, stack, r)? {
        Piece::Rest(at) => Ok(Reached { at, ..r }),
        Piece::End(at) => {
            stack.pop();
            Ok(Reached { at, ..r })
        }
        Piece::Name(from, end) => {
            let number = sought.names.number_by_guess(&plan[from..end]);
            if let Err(refusal) = tag_fault(stack, number, sought) {
                return Err(Fault { refusal, at: end });
            }
            put_entry(log, r.tags, number, stack.depth);
            let element = Open {
                from,
                end,
                number: number as usize,
            };
            let next = begin_element(plan, element, stack, r)?;
            Ok(next)
        }
    }
}

// A whole plan: so many tags are in the log, or what refuses it.
#[tactic(auto, using(crate::proofs::TurnLaws::plans))]
pub fn read_plan(plan: &[u8], sought: &Sought, log: &mut [u8]) -> Result<usize, Fault>
    requires { Room plan.now log.old }
    ensures plan_read_as { PlanReadAs (sought_names sought.now) (sought_name sought.now) plan.now log.new result }
    ensures log_len_unchanged { length log.new ≡ length log.old }
{
    let mut stack = Stack::new();
    let mut r = Reached { at: 0, tags: 0 };
    while r.at < plan.len() {
        r = read_piece(plan, sought, &mut stack, log, r)?;
    }
    if stack.depth == 0 && 0 < r.tags {
        return Ok(r.tags);
    }
    Err(Fault::from(BadByte { at: r.at }))
}
