// The plan: what the creates and destroys make of a copy of the things (15, 16, 17).
ghost use Rattle.std.specs.Prelude.{◌≡◌, List, ℕ, Result};
ghost use Rattle.model.specs.Scheme.{parameters_of, operations_of};
ghost use Rattle.model.specs.declared.Things.{Things};
ghost use Rattle.plan.specs.Plan.{plan_of, plan_create, plan_destroy, plan_by, plan_all, planned_into};
ghost use Rattle.plan.specs.Inner.Change.{changed, free_seat};

use crate::spots::{put_spot, seat_at};
use accepted::type_at;
use model::{Code, Operation, Operations, Parameters, Refusal, Things};
use rights::{Parameter, ThingType};
use things::{put_thing, seat_of};

// The things as the creates and destroys leave them, and where the created ones sit. The things come first, so that copies of them are fast ones: a
// struct lies in memory as it is declared.
#[derive(Clone, Copy)]
pub struct Plan {
    pub things: Things,
    pub spots: [u8; Parameters::PLACES],
}

// The first free seat.
fn free_seat(th: Things) -> Option<u8>
    ensures { result ≡ free_seat th }
{
    let i = seat_of(th.ids, 0);
    if i < Things::LIMIT {
        Some(i as u8)
    } else {
        None
    }
}

fn plan_create(
    plan: &mut Plan,
    place: u8,
    x: u16,
    t: ThingType,
    p: Parameter,
) -> Result<(), Refusal>
    ensures { (result, plan.new) ≡ changed plan.old (plan_create place x t p plan.old) }
{
    if x <= plan.things.highest {
        return Err(Refusal { number: 15, place });
    }
    let Some(free) = free_seat(plan.things) else {
        return Err(Refusal { number: 16, place });
    };
    plan.things = put_thing(plan.things, free as usize, x, t, false);
    put_spot(&mut plan.spots, p, free);
    Ok(())
}

fn plan_destroy(plan: &mut Plan, place: u8, x: u16, p: Parameter) -> Result<(), Refusal>
    ensures { (result, plan.new) ≡ changed plan.old (plan_destroy place x p plan.old) }
{
    let i = seat_at(plan.spots, p) as usize;
    // past the last seat nobody sits
    if plan.things.ids.get(i).copied().unwrap_or(0) != x {
        return Err(Refusal { number: 17, place });
    }
    plan.things = put_thing(plan.things, i, 0, ThingType(0), false);
    Ok(())
}

// An enter or a delete leaves the things as they are: the plan passes over it.
fn plan_one(
    plan: &mut Plan,
    p: Parameters,
    ids: &[u16],
    place: u8,
    o: Operation,
) -> Result<(), Refusal>
    ensures { (result, plan.new) ≡ changed plan.old (plan_by (parameters_of p) ids.now place o plan.old o.code) }
{
    let x = ids.get(o.row.0 as usize).copied().unwrap_or(0);
    match o.code {
        Code::Enter | Code::Delete => Ok(()),
        Code::Create => plan_create(plan, place, x, type_at(p, o.row), o.row),
        Code::Destroy => plan_destroy(plan, place, x, o.row),
    }
}

// All operations in order, up to the first fault. They are planned on a copy, so that a fault leaves the things as they were, whatever was created before
// it; the spots are zeros then.
pub fn plan_all(
    things: &mut Things,
    spots: &mut [u8; Parameters::PLACES],
    p: Parameters,
    ids: &[u16],
    o: Operations,
) -> Result<(), Refusal>
    ensures { ◌≡◌ {A = Result Unit Refusal × Things × List ℕ} (result, things.new, spots.new) (planned_into things.old (plan_all (parameters_of p) ids.now 0 (operations_of o) (plan_of things.old spots.old))) }
{
    let n = (o.count as usize).min(Operations::PLACES);
    let before = *spots;
    *spots = [0; Parameters::PLACES];
    let mut plan = Plan {
        things: *things,
        spots: before,
    };
    for (place, one) in o.list[..n].iter().enumerate() {
        plan_one(&mut plan, p, ids, place as u8, *one)?;
    }
    let after = plan.spots;
    *things = plan.things;
    *spots = after;
    Ok(())
}
