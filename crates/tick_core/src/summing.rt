ghost use Rattle.std.specs.Prelude.{◌≡◌, ◌%◌, ◌^◌};
ghost use Rattle.std.specs.List.{sum_by};
ghost use Rattle.sync_hash.specs.Kept.{actor_number};

use actor_table::ActorTable;
use sync_hash::number_of_actor;

/// The sum of the numbers of all actors, modulo 2^64.
pub(crate) fn actors_sum(table: &ActorTable) -> u64
    ensures { result ≡ sum_by actor_number table.now.actors % 2 ^ 64 }
{
    let mut sum: u64 = 0;
    for i in 0..table.len() {
        let Some(actor) = table.nth_actor(i) else {
            unreachable!()
        };
        sum = sum.wrapping_add(number_of_actor(actor));
    }
    sum
}
