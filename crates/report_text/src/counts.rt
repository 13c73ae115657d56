//! How many events ended how.
ghost use Rattle.std.specs.Prelude.{decimal, ◌≡◌, ◌+◌, ◌++◌, ◌<◌, OnOk};
ghost use Rattle.text_model.specs.Whole.{done_line};

use hive_model::EventStatus;
use itoa::Buffer;
use std::alloc::AllocError;

/// Numbers of events: all of them, and those of each status.
#[derive(Clone, Copy, Debug, PartialEq, Eq)]
pub struct Counts {
    pub events: u32,
    pub ok: u32,
    pub failed: u32,
    pub stalled: u32,
}

impl Counts {
    ghost use Rattle.report_text.specs.Counted.{IsCounted};

    /// No event yet.
    pub fn new() -> Counts
        ensures { result ≡ record { events = 0; ok = 0; failed = 0; stalled = 0 } }
    {
        Counts {
            events: 0,
            ok: 0,
            failed: 0,
            stalled: 0,
        }
    }

    /// Counts one event.
    pub fn add(&mut self, status: EventStatus)
        requires events { self.old.events + 1 < 0x1_0000_0000 }
        requires ok { self.old.ok + 1 < 0x1_0000_0000 }
        requires failed { self.old.failed + 1 < 0x1_0000_0000 }
        requires stalled { self.old.stalled + 1 < 0x1_0000_0000 }
        ensures { IsCounted self.old status self.new }
    {
        self.events += 1;
        match status {
            EventStatus::Ok => self.ok += 1,
            EventStatus::Failed => self.failed += 1,
            EventStatus::Stalled => self.stalled += 1,
        }
    }

    /// Appends the last line of a run. The only error is running out of memory.
    pub fn push_line(&self, out: &mut Vec<u8>) -> Result<(), AllocError>
        ensures { OnOk result (out.new.items ≡ out.old.items ++ done_line self.now.events self.now.ok self.now.failed self.now.stalled) }
    {
        push_count(out, b"done ", self.events)?;
        push_count(out, b" ok ", self.ok)?;
        push_count(out, b" failed ", self.failed)?;
        push_count(out, b" stalled ", self.stalled)?;
        out.push(b'\n')?;
        Ok(())
    }
}

fn push_count(out: &mut Vec<u8>, word: &[u8], count: u32) -> Result<(), AllocError>
    ensures { OnOk result (out.new.items ≡ out.old.items ++ (word.now ++ decimal count)) }
{
    let mut buffer = Buffer::new();
    out.extend_from_slice(word)?;
    out.extend_from_slice(buffer.format(count).as_bytes())
}
