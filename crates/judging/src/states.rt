// State fields of tables and their refusals, 7 and 11.
ghost use Rattle.std.specs.Prelude.{◌≡◌, length};
ghost use Rattle.base.specs.Refusals.{fault_of};
ghost use Rattle.model.specs.Fields.{arcs_ok, state_ok, state_fault};
ghost use Rattle.judging.specs.Judged.{ItemJudged};

use crate::items::item_fault;
use base::limits::STATE_LIMIT;
use base::refusals::Refusal;

// Whether the bytes are arcs over `names` names, each a name and two bytes of where it leads, which are not judged here: the names ascend.
fn arcs_ok(names: u8, mut arcs: &[u8]) -> bool
    ensures { result ≡ arcs_ok (length arcs.now) names 0 arcs.now }
{
    let mut next = 0;
    while let [name, _, _, rest @ ..] = arcs {
        if *name < next || names <= *name {
            return false;
        }
        next = *name + 1;
        arcs = rest;
    }
    arcs.is_empty()
}

// Whether the bytes are a state field over `names` names; where the arcs lead is not judged here.
#[tactic(auto, using(crate::proofs::StateLaws::first_bytes))]
pub fn state_ok(names: u8, state: &[u8]) -> bool
    ensures { result ≡ state_ok names state.now }
{
    let [accepting, arcs @ ..] = state else {
        return false;
    };
    *accepting <= 1 && arcs_ok(names, arcs)
}

// What refuses one more state after `count` states.
#[tactic(auto, using(crate::proofs::ItemLaws::item_judged), unfolding(model::specs::Fields::state_fault))]
pub fn state_fault(names: u8, count: usize, state: &[u8]) -> Result<(), Refusal>
    ensures { ItemJudged state_fault names count state.now (fault_of result) }
{
    item_fault(
        count,
        STATE_LIMIT,
        state_ok(names, state),
        Refusal::BadState,
    )
}
