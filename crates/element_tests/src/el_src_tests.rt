//! Tests of the file source.
ghost use Rattle.std.specs.Prelude.{◌≤◌, ◌<◌, ◌+◌, ◌^◌, None};
ghost use Rattle.gst_outside.specs.Causes.{Rose};
ghost use Rattle.el_src.specs.Gave.{items_given};

use el_src::{FileSrc, Next, SrcFault};
use gst_item::{Event, Item};
use gst_outside::{Failed, Source};
use std::alloc::Global;
use std::test::Fail;

/// Reads at most so many bytes at a time. The read of one number fails, and so does each look at the size where
/// there are no bytes.
#[derive(Drop)]
struct Slow {
    bytes: Vec<u8>,
    most: usize,
    failing: u64,
    reads: u64,
    faults: u64,
}

impl Slow {
    fn fail(&mut self) -> Failed
        ensures { Rose self.old.faults self.new.faults }
    {
        self.faults = self.faults.saturating_add(1);
        Failed
    }
}

impl Source for Slow {
    ghost content = { λ s. None };

    ghost location = { λ s. None };

    ghost faults = { λ s. s.faults };

    fn read_at(&mut self, place: u64, into: &mut [u8]) -> Result<usize, Failed> {
        self.reads = self.reads.saturating_add(1);
        if self.reads == self.failing {
            return Err(self.fail());
        }
        if place >= self.bytes.len() as u64 {
            return Ok(0);
        }
        let rest = &self.bytes.as_slice()[place as usize..];
        let count = rest.len().min(into.len()).min(self.most);
        into[..count].copy_from_slice(&rest[..count]);
        Ok(count)
    }

    fn size(&mut self) -> Result<u64, Failed> {
        if self.bytes.is_empty() {
            return Err(self.fail());
        }
        Ok(self.bytes.len() as u64)
    }

    fn faults(&self) -> u64 {
        self.faults
    }
}

fn digit(number: u64) -> u8 {
    b'0' + (number % 10) as u8
}

/// Notes an item by a letter: a block in brackets, behind its offset.
fn note_item(trace: &mut Vec<u8>, item: &Item) -> Result<(), Fail> {
    match item {
        Item::Event(Event::StreamStart { id }) => trace.push(digit(u64::from(*id)))?,
        Item::Event(Event::Segment(segment)) => trace.push(digit(segment.start))?,
        Item::Event(Event::Eos) => trace.push(b'e')?,
        Item::Event(_) => trace.push(b'?')?,
        Item::Buffer(buffer) => {
            trace.push(b'(')?;
            trace.push(digit(buffer.offset.unwrap_or(9)))?;
            trace.extend_from_slice(buffer.body.as_slice())?;
            trace.push(b')')?;
        }
    }
    Ok(())
}

fn note_next(alloc: Global, file: &mut FileSrc<Slow>, trace: &mut Vec<u8>) -> Result<(), Fail>
    requires { items_given file.old < 2 ^ 41 }
    ensures { items_given file.new ≤ items_given file.old + 1 }
{
    match file.next(alloc) {
        Ok(Next::Item(item)) => note_item(trace, &item)?,
        Ok(Next::Ended) => trace.push(b'.')?,
        Err(SrcFault::ReadFault { before, after }) => {
            trace.push(b'!')?;
            trace.push(digit(before))?;
            trace.push(digit(after))?;
        }
        Err(SrcFault::OutOfMemory) => trace.push(b'm')?,
    }
    Ok(())
}

/// Asks nine times, and asks for the end before the call of a number.
fn note_nine(alloc: Global, source: Slow, blocksize: u32, end: u32) -> Result<Vec<u8>, Fail>
    requires some { 1 ≤ blocksize }
    requires small { blocksize ≤ 2 ^ 20 }
{
    let mut trace = Vec::new(alloc);
    let mut file = FileSrc::new(source, blocksize, 7);
    for call in 0..9 {
        if call == end {
            file.end();
        }
        note_next(alloc, &mut file, &mut trace)?;
    }
    Ok(trace)
}

#[test]
fn gives_blocks(rt: HostRuntime) -> Result<(), Fail> {
    let rows: [(&'static [u8], u32, usize, u64, u32, &'static [u8]); 11] = [
        (b"abcdef", 2, 9, 0, 9, b"70(0ab)(2cd)(4ef)e..."),
        (b"abcdef", 4, 9, 0, 9, b"70(0abcd)(4ef)e...."),
        (b"abcdef", 4, 3, 0, 9, b"70(0abcd)(4ef)e...."),
        (b"abc", 1, 1, 0, 9, b"70(0a)(1b)(2c)e..."),
        (b"", 4, 9, 0, 9, b"70e......"),
        (b"abcdef", 2, 9, 3, 9, b"70(0ab)(2cd)!01(4ef)e.."),
        (b"abcdef", 4, 3, 2, 9, b"70!01(0abcd)(4ef)e..."),
        (b"abcdef", 4, 3, 4, 9, b"70(0abcd)!01(4ef)e..."),
        (b"abcdef", 2, 9, 0, 0, b"e........"),
        (b"abcdef", 2, 9, 0, 3, b"70(0ab)e....."),
        (b"abcdef", 2, 9, 0, 7, b"70(0ab)(2cd)(4ef)e..."),
    ];
    for (bytes, blocksize, most, failing, end, want) in rows {
        assert!(rt; 1 <= blocksize && blocksize <= 4);
        let source = Slow {
            bytes: Vec::from_slice(rt.alloc(), bytes)?,
            most,
            failing,
            reads: 0,
            faults: 0,
        };
        let trace = note_nine(rt.alloc(), source, blocksize, end)?;
        assert_eq!(rt; trace.as_slice(), want);
    }
    Ok(())
}

#[test]
fn tells_the_size(rt: HostRuntime) -> Result<(), Fail> {
    for (bytes, want, faults) in [
        (b"abcdef".as_slice(), Ok(6), 4),
        (b"".as_slice(), Err((4, 5)), 5),
    ] {
        let source = Slow {
            bytes: Vec::from_slice(rt.alloc(), bytes)?,
            most: 9,
            failing: 0,
            reads: 0,
            faults: 4,
        };
        let mut file = FileSrc::new(source, 4, 0);
        let size = file.size().map_err(|fault| (fault.before, fault.after));
        assert_eq!(rt; size, want);
        assert_eq!(rt; file.into_source().faults(), faults);
    }
    Ok(())
}
