//! What a reader answers.
use hive_model::EventRecord;
use text_model::RecordRefusal;

/// What comes next in a text of records (docs/FORMATS.md, "Records in pieces").
#[derive(Debug, PartialEq, Eq, Drop)]
pub enum Next {
    /// The next record.
    Event(EventRecord),
    /// Each line that is there was taken, and the text may go on.
    More,
    /// This line ends the reading. The same answer comes again.
    Refused(RecordRefusal),
    /// The text has ended, and each of its lines was taken. The same answer comes again.
    Finished,
    /// Memory ran out, and the reader is as before.
    NoMemory,
}
