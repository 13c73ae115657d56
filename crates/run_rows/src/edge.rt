//! The outside in memory that never fails, and each trait once at it.
use hive_edge::{
    CleanShelf, CleanSink, CleanSource, InputFault, Shelf, ShelfFault, Sink, read_all, send,
};
use hive_model::Text;
use std::alloc::{AllocError, Global};

pub(crate) fn print_calls(rt: &HostRuntime) -> anyhow::Result<()> {
    let text = read(rt.alloc())?;
    println!(rt; "read {text:?}")?;
    let text = sent(rt.alloc())?;
    println!(rt; "sent {text:?}")?;
    let text = fetched(rt.alloc())?;
    println!(rt; "fetched {text:?}")?;
    let fault = ShelfFault::from(AllocError);
    println!(rt; "out of memory {fault:?}")?;
    Ok(())
}

// A source that gives two bytes in one call, read to its end.
fn read(alloc: Global) -> Result<String, InputFault> {
    let mut source = CleanSource::new(Vec::from_slice(alloc, b"1,0,1")?, 2);
    let mut text = Vec::new(alloc);
    read_all(&mut source, 64, &mut text)?;
    Ok(String::from_utf8_lossy(alloc, text.as_slice())?)
}

// What a sink gets that takes two bytes in one call.
fn sent(alloc: Global) -> Result<String, AllocError> {
    let mut sink = CleanSink::new(alloc, 2, 8)?;
    let _sent = send(&mut sink, b"done 0\n");
    let _flushed = sink.flush();
    String::from_utf8_lossy(alloc, sink.got())
}

// The first text of a name that stands twice.
fn fetched(alloc: Global) -> Result<String, AllocError> {
    let files = Vec::from_array(
        alloc,
        [
            (
                Text::from_str(alloc, "menu")?,
                Vec::from_slice(alloc, b"two lines")?,
            ),
            (
                Text::from_str(alloc, "menu")?,
                Vec::from_slice(alloc, b"hidden")?,
            ),
        ],
    )?;
    let mut shelf = CleanShelf::new(files);
    let mut out = Vec::new(alloc);
    let _fetched = shelf.fetch("menu", 64, &mut out);
    String::from_utf8_lossy(alloc, out.as_slice())
}
