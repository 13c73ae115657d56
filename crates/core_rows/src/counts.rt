//! What trials came to.
use hive_model::{End, EventStatus};
use std::alloc::{AllocError, Global};

/// What was counted.
#[derive(Clone, Copy)]
pub(crate) struct Counts {
    pub(crate) jobs: u64,
    /// Options that were refused.
    pub(crate) refused: u64,
    /// Events that ended, by their status.
    pub(crate) ok: u64,
    pub(crate) failed: u64,
    pub(crate) stalled: u64,
    /// Claims that were booked.
    pub(crate) executions: u64,
    /// Algorithms that run in these events by themselves.
    pub(crate) due: u64,
    /// Answers and results that weren't the right ones.
    pub(crate) differences: u64,
}

impl Counts {
    pub(crate) fn new() -> Counts {
        Counts {
            jobs: 0,
            refused: 0,
            ok: 0,
            failed: 0,
            stalled: 0,
            executions: 0,
            due: 0,
            differences: 0,
        }
    }

    /// Counts a difference where something isn't as it must be.
    pub(crate) fn check(&mut self, holds: bool) {
        if !holds {
            self.differences = self.differences.saturating_add(1);
        }
    }

    /// Counts an event that ended.
    pub(crate) fn end(&mut self, status: EventStatus) {
        match status {
            EventStatus::Ok => self.ok = self.ok.saturating_add(1),
            EventStatus::Failed => self.failed = self.failed.saturating_add(1),
            EventStatus::Stalled => self.stalled = self.stalled.saturating_add(1),
        }
    }

    /// Counts the algorithms that have run.
    pub(crate) fn owe(&mut self, ends: &[End]) {
        for end in ends {
            match end {
                End::Accepted | End::Rejected | End::Failed(_, _) => {
                    self.due = self.due.saturating_add(1);
                }
                End::Initial | End::ControlReady | End::Withdrawn => {}
            }
        }
    }

    /// How many jobs were drawn, whether all kinds of endings were among them, and what must be 0.
    pub(crate) fn text(&self, alloc: Global) -> Result<String, AllocError> {
        let drawn = self.jobs.saturating_add(self.refused);
        let all = self.has_all();
        let differences = self.differences;
        format!(in alloc;
            "{drawn} jobs, refused ones and events of each status among them: {all}; {differences} differences"
        )
    }

    fn has_all(&self) -> bool {
        self.refused > 0 && self.ok > 0 && self.failed > 0 && self.stalled > 0
    }
}
