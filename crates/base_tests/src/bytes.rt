// The words of a command line, and sources and sinks, also those that fail or take nothing.
use aq_base::{
    MemorySink, MemorySource, ReadFault, ReaderSource, SinkFault, Words, WriterSink, read_up_to,
    write_all,
};
use std::alloc::{AllocError, Global};

// ---- words

fn words(alloc: Global) -> Result<Words, AllocError> {
    Words::of_arguments(alloc, &[b"\xff".to_vec(alloc)?])
}

// A word more is the last one, and what is no text is an empty word.
fn are_pushed(words: &mut Words) -> bool {
    words.push("é").is_ok() && words.get(0) == Some("") && words.get(1) == Some("é")
}

fn are_words(alloc: Global) -> Result<bool, AllocError> {
    let mut words = words(alloc)?;
    Ok(are_pushed(&mut words))
}

// ---- sources and sinks in memory

// Whether three bytes can be read.
fn is_read(alloc: Global, source: &mut MemorySource) -> bool {
    match read_up_to(alloc, source, 3) {
        Ok(all) => all.as_slice() == b"abc".as_slice(),
        Err(_) => false,
    }
}

fn fails(alloc: Global, source: &mut MemorySource) -> bool {
    match read_up_to(alloc, source, 9) {
        Ok(_) => false,
        Err(fault) => fault == ReadFault::Failed,
    }
}

// The third read fails, behind one that took a byte.
fn are_read(alloc: Global) -> Result<bool, AllocError> {
    let mut source = MemorySource::of(b"abcd".to_vec(alloc)?, [3].to_vec(alloc)?);
    Ok(is_read(alloc, &mut source) && fails(alloc, &mut source))
}

// The second write fails.
fn takes(sink: &mut MemorySink) -> bool {
    write_all(sink, b"abc").is_ok()
        && write_all(sink, b"x") == Err(SinkFault::Failed)
        && sink.taken() == b"abc".as_slice()
}

fn are_taken(alloc: Global) -> Result<bool, AllocError> {
    let mut sink = MemorySink::of(alloc, [2].to_vec(alloc)?, Some(5));
    Ok(takes(&mut sink))
}

// ---- readers and writers of std

// The writer has room for less than twice these bytes, and takes nothing once it is full.
fn is_written(into: &mut [u8], all: &[u8]) -> bool {
    let mut sink = WriterSink::of(into);
    write_all(&mut sink, all).is_ok() && write_all(&mut sink, all) == Err(SinkFault::Nothing)
}

fn is_adapted(alloc: Global, from: &[u8], into: &mut [u8]) -> bool {
    match read_up_to(alloc, &mut ReaderSource::of(from), 9) {
        Ok(all) => is_written(into, all.as_slice()),
        Err(_) => false,
    }
}

fn are_adapted(alloc: Global) -> bool {
    let mut into = [0; 3];
    is_adapted(alloc, b"ab", &mut into) && into == *b"aba"
}

fn are_all(alloc: Global) -> Result<bool, AllocError> {
    Ok(are_words(alloc)? && are_read(alloc)? && are_taken(alloc)? && are_adapted(alloc))
}

#[test]
fn bytes_are_read_and_written(rt: HostRuntime) -> Result<(), AllocError> {
    assert!(rt; are_all(rt.alloc())?);
    Ok(())
}
