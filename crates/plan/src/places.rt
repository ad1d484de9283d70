// Where the parameters' things sit: the checks of each place (12, 13, 18).
ghost use Rattle.std.specs.Prelude.{◌≡◌, List, ℕ, Result};
ghost use Rattle.std.proofs.Math.Option.{some};
ghost use Rattle.model.specs.Request.{type_fault};
ghost use Rattle.model.specs.Scheme.{creates, is_new, parameters_of, operations_of};
ghost use Rattle.plan.specs.Locate.{unless, located, located_into};
ghost use Rattle.plan.specs.Inner.Spot.{spot_of};

use model::{Code, Operation, Operations, Parameters, Refusal, Things};
use rights::{Numbered, Parameter, ThingType};

#[tactic(auto, unfolding(model::specs::Scheme::creates))]
fn creates(o: Operation, p: Parameter) -> bool
    ensures { result ≡ creates p o }
{
    matches!(o.code, Code::Create) && o.row.is(p)
}

// Whether a create names the parameter.
fn is_new(o: Operations, p: Parameter) -> bool
    ensures { result ≡ is_new (operations_of o) p }
{
    let n = (o.count as usize).min(Operations::PLACES);
    o.list[..n].iter().any(|one| creates(*one, p))
}

// The seat of a thing that is `of` a type, marked or not, where one of the type `t` is asked for.
fn spot_at(seat: u8, of: ThingType, mark: bool, t: ThingType) -> Result<u8, Refusal>
    ensures { result ≡ unless seat (type_fault t (some (record { type = of; on_hold = mark }))) }
{
    if !of.is(t) {
        return Err(Refusal {
            number: 13,
            place: 0,
        });
    }
    if mark {
        return Err(Refusal {
            number: 18,
            place: 0,
        });
    }
    Ok(seat)
}

// The seat of one place's id; a new parameter has none yet, which is told as 0.
fn spot_of(th: &Things, new: bool, t: ThingType, x: u16) -> Result<u8, Refusal>
    ensures { result ≡ spot_of th.now new t x }
{
    if x == 0 {
        return Err(Refusal {
            number: 12,
            place: 0,
        });
    }
    if new {
        return Ok(0);
    }
    let i = things::seat_of(th.ids, x);
    if Things::LIMIT <= i {
        return Err(Refusal {
            number: 12,
            place: 0,
        });
    }
    spot_at(i as u8, th.types[i], th.marks[i], t)
}

// The parameters' seats, or the first fault of their ids: as many places as there are parameters and ids. Where there is a fault the spots are zeros, and
// not the seats found before it. The things are lent: measured, a copy of them for each place is what most requests would take longest with.
pub fn locate(
    th: &Things,
    p: Parameters,
    o: Operations,
    ids: &[u16],
    spots: &mut [u8; Parameters::PLACES],
) -> Result<(), Refusal>
    ensures { ◌≡◌ {A = Result Unit Refusal × List ℕ} (result, spots.new) (located_into (located th.now (operations_of o) (parameters_of p) ids.now)) }
{
    let n = (p.count as usize).min(Parameters::PLACES).min(ids.len());
    *spots = [0; Parameters::PLACES];
    let mut found = [0u8; Parameters::PLACES];
    for i in 0..n {
        let new = is_new(o, Parameter(i as u8));
        found[i] = spot_of(th, new, p.types[i], ids[i])?;
    }
    *spots = found;
    Ok(())
}
