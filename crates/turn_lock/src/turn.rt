//! The lock and its calls.
ghost use Rattle.std.specs.Prelude.{◌≡◌, ℕ, ◌+◌, ◌^◌, ◌<◌, ◌≤◌, Some, [], ◌∷◌, ◌++◌, length, IsOk, IfOk, IfErr};

use crate::Kept;
use crate::pass::TurnPass;
use crate::plays::{Cut, Glue, Look};
use crate::rule::{ByTickets, SERVING, SLOT};
use crate::view::{About, Knows};
use atomic_table::{Refused, Table};
use std::alloc::{AllocError, Global};
use std::snapshot::Snapshot;
use std::sync::Wait;

/// A FIFO ticket lock over a value that is [`Kept`](crate::Kept).
///
/// It is used by its passes alone, which may be in other threads. It can't be dropped: `close` takes it apart
/// and gives the value back (docs/PROMISES.md, "A lock that keeps a history").
pub struct Turn<V: Kept> {
    pub(crate) table: Table<Option<V>, Knows<V::Item>, About<V>, ByTickets, Global>,
    ghost sized: { (table.shared.table_id.words ≡ 3) × (table.shared.table_id.slots ≡ 1) },
}

impl<V: Kept> Turn<V> {
    ghost use mathlib.Core.List.{IsPrefix};
    ghost use Rattle.turn_lock.specs.History.{MayFollow, added, longer, times, below};
    ghost use Rattle.turn_lock.specs.Pass.{rights_of, seen, own, held, IsIdle, IsHolding};
    ghost use Rattle.turn_lock.specs.Turn.{IsPassOf, all_rights, opening};

    /// The lock over `value`, and its first pass, which has all rights. The only error is running out of
    /// memory: the value is then handed back.
    pub fn new(
        alloc: Global,
        value: V,
        rights: u32,
    ) -> Result<(Turn<V>, TurnPass<V>), (V, AllocError)>
        requires some { 0 < rights }
        requires fits { length (V.list value) < 2 ^ 64 }
        ensures pass { IfOk result (λ r. IsPassOf r.0 r.1 × IsIdle r.1) }
        ensures rights { IfOk result (λ r. (all_rights r.0 ≡ rights) × (rights_of r.1 ≡ rights)) }
        ensures opening { IfOk result (λ r. opening V.list r.0 ≡ V.list value) }
        ensures seen { IfOk result (λ r. seen r.1 ≡ V.list value) }
        ensures own { IfOk result (λ r. own r.1 ≡ []) }
        ensures value_returned { IfErr result (λ e. e.0 ≡ value) }
    {
        let count = value.items();
        let about = About {
            rights,
            value: Snapshot::of(&value),
        };
        let Ok(mut slots) = Vec::with_capacity(alloc, 1) else {
            return Err((value, AllocError));
        };
        slots.push_reserved(Some(value));
        match Table::new(alloc, &[0, 0, count], slots, &about) {
            Ok((table, seat)) => {
                let pass = TurnPass {
                    seat,
                    rights,
                    count: 0,
                };
                Ok((Turn { table }, pass))
            }
            Err(Refused { slots }) => Err((only_value(slots), AllocError)),
        }
    }

    /// Gives one of the pass's rights to a new pass, which has seen as much and has added nothing. It takes no
    /// memory, and so never fails.
    pub fn split(&self, pass: &mut TurnPass<V>) -> Result<TurnPass<V>, AllocError>
        requires pass { IsPassOf self.now pass.old × IsIdle pass.old }
        requires rights { 2 ≤ rights_of pass.old }
        ensures succeeds { IsOk result }
        ensures pass { IsPassOf self.now pass.new × IsIdle pass.new }
        ensures rights { rights_of pass.new + 1 ≡ rights_of pass.old }
        ensures same { (seen pass.new ≡ seen pass.old) × (own pass.new ≡ own pass.old) }
        ensures new_pass { IfOk result (λ other. IsPassOf self.now other × IsIdle other) }
        ensures new_rights { IfOk result (λ other. rights_of other ≡ 1) }
        ensures new_seen { IfOk result (λ other. seen other ≡ seen pass.old) }
        ensures new_own { IfOk result (λ other. own other ≡ []) }
    {
        let seat = self.table.shared.split_seat::<Cut>(&mut pass.seat);
        pass.rights -= 1;
        Ok(TurnPass {
            seat,
            rights: 1,
            count: 0,
        })
    }

    /// Takes in another pass of this lock, with its rights, its positions and what it has seen.
    pub fn join(&self, into: &mut TurnPass<V>, other: TurnPass<V>)
        requires pass { IsPassOf self.now into.old × IsIdle into.old }
        requires other { IsPassOf self.now other × IsIdle other }
        ensures pass { IsPassOf self.now into.new × IsIdle into.new }
        ensures rights { rights_of into.new ≡ rights_of into.old + rights_of other }
        ensures seen { seen into.new ≡ longer (seen into.old) (seen other) }
        ensures prefix { IsPrefix (seen into.old) (seen into.new) }
        ensures other_prefix { IsPrefix (seen other) (seen into.new) }
        ensures own { own into.new ≡ own into.old ++ own other }
    {
        let TurnPass {
            seat,
            rights,
            count: _,
        } = other;
        let shared = &self.table.shared;
        shared.join_seat::<Glue>(&mut into.seat, seat);
        // What the two have seen are prefixes of one history: this look tells that the longer begins with the
        // shorter, and that the rights of both together are few.
        shared.load::<Look>(&mut into.seat, SERVING);
        into.rights += rights;
    }

    /// Waits for its turn, and takes the value out of the lock. The pass then goes to `release` before anything
    /// else. Turns go by tickets, and who finds others waiting draws its own a little later. That it is ever its turn
    /// isn't promised.
    pub fn hold<R: Wait>(&self, rt: &R, pass: &mut TurnPass<V>) -> V
        requires { IsPassOf self.now pass.old × IsIdle pass.old }
        ensures pass { IsPassOf self.now pass.new × IsHolding pass.new }
        ensures held { held pass.new ≡ V.list result }
        ensures prefix { IsPrefix (seen pass.old) (V.list result) }
        ensures fits { length (V.list result) < 2 ^ 64 }
        ensures same { (seen pass.new ≡ seen pass.old) × (own pass.new ≡ own pass.old) }
        ensures rights { rights_of pass.new ≡ rights_of pass.old }
    {
        self.stand_back(rt);
        let ticket = self.draw(&mut pass.seat);
        self.wait(rt, &mut pass.seat, ticket);
        let Some(value) = self.table.shared.exchange(&mut pass.seat, SLOT, None) else {
            unreachable!()
        };
        pass.count = value.items();
        value
    }

    /// Puts the value back and lets the next one have its turn. Since `hold` one item was added at most, whose
    /// position joins the pass's own.
    pub fn release(&self, pass: &mut TurnPass<V>, value: V)
        requires pass { IsPassOf self.now pass.old × IsHolding pass.old }
        requires history { MayFollow (held pass.old) (V.list value) }
        requires fits { length (V.list value) < 2 ^ 64 }
        ensures pass { IsPassOf self.now pass.new × IsIdle pass.new }
        ensures seen { seen pass.new ≡ V.list value }
        ensures own { own pass.new ≡ own pass.old ++ added (held pass.old) (V.list value) }
        ensures rights { rights_of pass.new ≡ rights_of pass.old }
    {
        let more = value.items() - pass.count;
        let shared = &self.table.shared;
        let empty = shared.exchange(&mut pass.seat, SLOT, Some(value));
        let None = empty else { unreachable!() };
        self.raise(&mut pass.seat, more);
        self.pass_on(&mut pass.seat);
    }

    /// Takes the lock apart, and gives the value back. The pass has all rights, so no other is left.
    pub fn close(self, pass: TurnPass<V>) -> V
        requires pass { IsPassOf self pass × IsIdle pass }
        requires rights { rights_of pass ≡ all_rights self }
        ensures seen { IsPrefix (seen pass) (V.list result) }
        ensures own { (p : ℕ) → times p (own pass) + below p (length (opening V.list self))
            ≡ below p (length (V.list result)) }
        ensures fits { length (V.list result) < 2 ^ 64 }
    {
        let TurnPass {
            seat,
            rights: _,
            count: _,
        } = pass;
        let Turn { table } = self;
        let mut closed = table.close_with(seat);
        let slot = closed.take(SLOT);
        closed.free();
        match slot {
            Some(value) => value,
            None => unreachable!(),
        }
    }
}

// The value that a vector of one slot has.
fn only_value<V>(mut slots: Vec<Option<V>>) -> V
    requires { (value : _) × (slots.items ≡ Some value ∷ []) }
    ensures { slots.items ≡ Some result ∷ [] }
{
    let Some(Some(value)) = slots.pop() else {
        unreachable!()
    };
    slots.destroy_empty();
    value
}
