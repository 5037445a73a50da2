ghost use Rattle.std.specs.Prelude.{◌≤◌, length, IfOk, IfErr};
ghost use Rattle.actor_table.specs.Order.{IsRising, IsIndexOf, IsNowhere, IsOnlyBetween};

use crate::place::Place;

/// Where an id stands in an order. `Err` where no place has it.
///
/// It looks first where the id stands if ids are 1, 2, 3, .. and none has gone. So it takes
/// constant time there, and else time by the logarithm of how many have gone.
pub(crate) fn find(order: &[Place], id: u32) -> Result<usize, usize>
    requires { IsRising order.now }
    ensures found { IfOk result (IsIndexOf order.now id) }
    ensures absent { IfErr result (λ _. IsNowhere order.now id) }
{
    if order.is_empty() {
        return Err(0);
    }
    let guess = (id as usize).saturating_sub(1).min(order.len() - 1);
    let there = order[guess].id;
    if there == id {
        Ok(guess)
    } else if there < id {
        find_between(order, id, guess + 1, order.len())
    } else {
        find_before(order, id, guess)
    }
}

/// Where an id stands before an index: steps back by 1, 2, 4, .. and then halves.
fn find_before(order: &[Place], id: u32, end: usize) -> Result<usize, usize>
    requires rises { IsRising order.now }
    requires within { end ≤ length order.now }
    requires before { IsOnlyBetween order.now id 0 end }
    ensures found { IfOk result (IsIndexOf order.now id) }
    ensures absent { IfErr result (λ _. IsNowhere order.now id) }
{
    let mut to = end;
    let mut step = 1;
    while step < to && order[to - step].id > id {
        to -= step;
        step *= 2;
    }
    find_between(order, id, to.saturating_sub(step), to)
}

/// Where an id stands from one index up to another, by halving.
fn find_between(order: &[Place], id: u32, from: usize, to: usize) -> Result<usize, usize>
    requires rises { IsRising order.now }
    requires ordered { from ≤ to }
    requires within { to ≤ length order.now }
    requires between { IsOnlyBetween order.now id from to }
    ensures found { IfOk result (IsIndexOf order.now id) }
    ensures absent { IfErr result (λ _. IsNowhere order.now id) }
{
    match order[from..to].binary_search_by_key(&id, |place| place.id) {
        Ok(at) => Ok(from + at),
        Err(at) => Err(from + at),
    }
}
