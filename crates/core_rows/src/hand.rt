//! A desk in hand.
ghost use Rattle.std.specs.Prelude.{◌≤◌, IfOk};
ghost use Rattle.std.specs.Arc.{arc_value};
ghost use Rattle.core_rows.specs.Hands.{IsHandOf};
ghost use Rattle.hive_model.specs.Valid.{IsValidJob};
ghost use Rattle.hive_model.specs.declared.limits.TheConstants.{MOST_SLOTS};

use crate::desks::open_desk;
use expr_code::Claimed;
use hive_model::{EventResult, Job};
use scheduler_core::Desk;
use std::alloc::{AllocError, Global};
use std::sync::Arc;

/// A desk, the claims that are held of it or of the desks before it, and the result that came last.
pub(crate) struct Hand {
    pub(crate) desk: Desk,
    pub(crate) held: Vec<Claimed>,
    pub(crate) ended: Option<EventResult>,
}

impl Hand {
    /// A new desk, and nothing held.
    pub(crate) fn new(alloc: Global, job: Arc<Job>, slots: u8) -> Result<Hand, AllocError>
        requires valid { IsValidJob (arc_value job) }
        requires some { 1 ≤ slots }
        requires few { slots ≤ MOST_SLOTS }
        ensures { IfOk result (IsHandOf (arc_value job)) }
    {
        Ok(Hand {
            desk: open_desk(alloc, job, slots)?,
            held: Vec::new(alloc),
            ended: None,
        })
    }

    /// Lets all go.
    pub(crate) fn put_away(self) {
        let Hand {
            desk: _desk,
            held,
            ended: _ended,
        } = self;
        let mut held = held;
        while let Some(claimed) = held.pop() {
            let _lent = claimed.into_lent();
        }
        held.destroy_empty();
    }
}
