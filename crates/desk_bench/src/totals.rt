//! What a run came to.

/// Counts of a run.
#[derive(Clone, Copy)]
pub(crate) struct Totals {
    /// Whether each result is compared.
    pub(crate) compares: bool,
    /// Events that are in a slot.
    pub(crate) inside: u64,
    /// Events that ended.
    pub(crate) events: u64,
    /// Claims that were booked.
    pub(crate) claims: u64,
    /// Results that weren't the right ones.
    pub(crate) differences: u64,
}

impl Totals {
    pub(crate) fn new(compares: bool) -> Totals {
        Totals {
            compares,
            inside: 0,
            events: 0,
            claims: 0,
            differences: 0,
        }
    }

    /// An event took a slot.
    pub(crate) fn enter(&mut self) {
        self.inside = self.inside.saturating_add(1);
    }

    /// An event ended.
    pub(crate) fn leave(&mut self) {
        self.inside = self.inside.saturating_sub(1);
        self.events = self.events.saturating_add(1);
    }

    /// A claim was booked.
    pub(crate) fn book(&mut self) {
        self.claims = self.claims.saturating_add(1);
    }

    /// A result was compared.
    pub(crate) fn check(&mut self, holds: bool) {
        if !holds {
            self.differences = self.differences.saturating_add(1);
        }
    }
}
