//! Which algorithms can run.
ghost use Rattle.std.specs.Prelude.{◌≡◌, ℕ, ◌+◌, ◌<◌, ◌≤◌, ◌&&◌, cond, is_some, length, nat_eq, slice_index};
ghost use Rattle.hive_model.specs.declared.limits.TheConstants.{MOST_ALGORITHMS};
ghost use Rattle.number_set.specs.Numbers.{has};
ghost use Rattle.algo_states.specs.Table.{IsReadySet, mentions, waits};

use hive_model::Outcome;
use number_set::NumberSet;

/// Whether an algorithm can run.
pub(crate) fn can_run(
    reached: bool,
    scheduled: bool,
    outcome: &Option<Outcome>,
    missing: usize,
) -> bool
    ensures { result ≡ (reached && waits scheduled (is_some outcome.now) missing) }
{
    reached && !scheduled && outcome.is_none() && missing == 0
}

/// Puts the number into the set, or takes it out.
pub(crate) fn put(ready: &mut NumberSet, number: u16, is_in: bool)
    requires { number < MOST_ALGORITHMS }
    ensures { (n : ℕ) → has ready.new n ≡ cond (nat_eq n number) is_in (has ready.old n) }
{
    if is_in {
        ready.insert(number);
    } else {
        ready.remove(number);
    }
}

/// One input less is missing of each of these algorithms, as often as it stands there. Those that can run now join
/// the set.
pub(crate) fn count_down(
    consumers: &[u16],
    missing: &mut Vec<usize>,
    ready: &mut NumberSet,
    reached: &[bool],
    scheduled: &[bool],
    outcomes: &[Option<Outcome>],
)
    requires few { length missing.old.items ≤ MOST_ALGORITHMS }
    requires reach { length reached.now ≡ length missing.old.items }
    requires schedule { length scheduled.now ≡ length missing.old.items }
    requires outcome { length outcomes.now ≡ length missing.old.items }
    requires there { (a : ℕ) → mentions a consumers.now ≤ slice_index missing.old.items a }
    requires set { IsReadySet reached.now scheduled.now outcomes.now missing.old.items ready.old }
    ensures length { length missing.new.items ≡ length missing.old.items }
    ensures counts { (a : ℕ)
        → slice_index missing.new.items a + mentions a consumers.now ≡ slice_index missing.old.items a }
    ensures set { IsReadySet reached.now scheduled.now outcomes.now missing.new.items ready.new }
{
    for consumer in consumers {
        let number = usize::from(*consumer);
        missing[number] -= 1;
        let is_in = can_run(
            reached[number],
            scheduled[number],
            &outcomes[number],
            missing[number],
        );
        put(ready, *consumer, is_in);
    }
}
