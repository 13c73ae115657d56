//! What every journal keeps (docs/PROCESSING.md, "Slots", "Claims" and "The journal").

/// How many laws there are.
pub(crate) const LAWS: u32 = 18;

/// What every journal keeps, each entry and the whole.
#[derive(Clone, Copy, Debug, PartialEq, Eq)]
pub(crate) enum Law {
    EmptySlot,
    NextPlace,
    NoneAfterLast,
    BusySlot,
    Known,
    ClaimedOnce,
    DoneOnce,
    Inputs,
    Cardinality,
    Instance,
    Units,
    Ticket,
    Outcome,
    Outstanding,
    Complete,
    AllCome,
    AllEnd,
    OneLast,
}

impl Law {
    /// The law in words.
    pub(crate) fn words(self) -> &'static str {
        match self {
            Law::EmptySlot => "an event takes an empty slot",
            Law::NextPlace => "an event has the next place in the input",
            Law::NoneAfterLast => "no event comes after the last",
            Law::BusySlot => "what is claimed or ends is an event in a slot",
            Law::Known => "a participant claims an algorithm of the job",
            Law::ClaimedOnce => "no algorithm is claimed twice at a time in one event",
            Law::DoneOnce => "no algorithm is done twice in one event",
            Law::Inputs => "what an algorithm takes is there when it is claimed",
            Law::Cardinality =>
                "an algorithm runs on no more events at a time than it has instances",
            Law::Instance => "a claim has a free instance, or none of a re-entrant algorithm",
            Law::Units => "no more units of a resource are in use than it has",
            Law::Ticket => "a claim ends once, by the index of its entry",
            Law::Outcome => "an algorithm ends as it does in its event alone",
            Law::Outstanding => "no event ends with a claim outstanding",
            Law::Complete => "an event ends when all has run that runs in it alone",
            Law::AllCome => "every record is admitted",
            Law::AllEnd => "every event ends",
            Law::OneLast => "the last is told once",
        }
    }
}

/// Whether a law is kept, as an answer.
pub(crate) fn keep(holds: bool, law: Law) -> Result<(), Law> {
    if holds { Ok(()) } else { Err(law) }
}
