//! Tests of the sinks.
ghost use Rattle.std.specs.Prelude.{◌≤◌, None};
ghost use Rattle.gst_outside.specs.Causes.{Rose};

use el_sink::{FakeSink, FileSink};
use gst_item::{Body, Buffer, Event, Flow, Item};
use gst_outside::{Failed, Sink};
use gst_time::{Format, Segment};
use std::alloc::Global;
use std::test::Fail;

const ROOM: usize = 12;

/// Holds a few bytes and writes at most so many of them at a time. The write or cut of one number fails.
#[derive(Drop)]
struct Small {
    bytes: [u8; 12],
    len: usize,
    most: usize,
    failing: u64,
    calls: u64,
    faults: u64,
    ghost inside: { len ≤ 12 },
    ghost some: { 1 ≤ most },
}

impl Small {
    fn fails(&mut self) -> bool
        ensures { self.old.faults ≤ self.new.faults }
    {
        self.calls = self.calls.saturating_add(1);
        self.calls == self.failing
    }

    fn fail(&mut self) -> Failed
        ensures { Rose self.old.faults self.new.faults }
    {
        self.faults = self.faults.saturating_add(1);
        Failed
    }
}

impl Sink for Small {
    ghost bytes = { λ s. None };

    ghost location = { λ s. None };

    ghost faults = { λ s. s.faults };

    fn write_at(&mut self, place: u64, piece: &[u8]) -> Result<usize, Failed> {
        if self.fails() || place > ROOM as u64 || piece.len() > ROOM - place as usize {
            return Err(self.fail());
        }
        let start = place as usize;
        let count = piece.len().min(self.most);
        self.bytes[start..start + count].copy_from_slice(&piece[..count]);
        if count > 0 {
            self.len = self.len.max(start + count);
        }
        Ok(count)
    }

    fn cut(&mut self, len: u64) -> Result<(), Failed> {
        if self.fails() {
            return Err(self.fail());
        }
        if len < self.len as u64 {
            self.len = len as usize;
            self.bytes[len as usize..].fill(0);
        }
        Ok(())
    }

    fn faults(&self) -> u64 {
        self.faults
    }
}

fn body(alloc: Global, bytes: &[u8]) -> Result<Item, Fail> {
    Ok(Item::Buffer(Buffer {
        body: Body::from_vec(alloc, Vec::from_slice(alloc, bytes)?)?,
        pts: None,
        duration: None,
        offset: None,
        discont: false,
    }))
}

fn segment(format: Format, start: u64) -> Item {
    Item::Event(Event::Segment(Segment {
        format,
        start,
        stop: None,
        time: 0,
        base: 0,
        position: 7,
    }))
}

/// The item of a letter; a digit is a segment in bytes from there on.
fn item(alloc: Global, letter: u8) -> Result<Item, Fail> {
    match letter {
        b'0'..=b'9' => Ok(segment(Format::Bytes, u64::from(letter - b'0'))),
        b't' => Ok(segment(Format::Time, 3)),
        b's' => Ok(Item::Event(Event::StreamStart { id: 3 })),
        b'f' => Ok(Item::Event(Event::FlushStop { number: 1 })),
        b'e' => Ok(Item::Event(Event::Eos)),
        b'z' => body(alloc, b""),
        b'x' => body(alloc, b"ab"),
        _ => body(alloc, b"cdef"),
    }
}

fn letter(flow: Flow) -> u8 {
    match flow {
        Flow::Ok => b'o',
        Flow::Eos => b'e',
        _ => b'?',
    }
}

/// What a file sink answers, a letter for each item, and then the length and the bytes of its file.
fn note_file(alloc: Global, sink: Small, keep: bool, letters: &[u8]) -> Result<Vec<u8>, Fail> {
    let mut trace = Vec::new(alloc);
    let mut file = FileSink::new(sink, keep);
    for one in letters {
        let item = item(alloc, *one)?;
        let answer = match file.render(&item) {
            Ok(flow) => letter(flow),
            Err(fault) if fault.before < fault.after => b'!',
            Err(_) => b'?',
        };
        trace.push(answer)?;
        if answer == b'!' {
            break;
        }
    }
    trace.push(b'0' + (file.len() % 10) as u8)?;
    let sink = file.into_sink();
    trace.extend_from_slice(&sink.bytes[..sink.len])?;
    Ok(trace)
}

#[test]
fn writes_the_file(rt: HostRuntime) -> Result<(), Fail> {
    let rows: [(&'static [u8], bool, usize, u64, &'static [u8]); 13] = [
        (b"s0xye", false, 9, 0, b"ooooo6abcdef"),
        (b"s0xye", false, 1, 0, b"ooooo6abcdef"),
        (b"0xexfx", false, 9, 0, b"oooeoo2ab"),
        (b"0xexfx", true, 9, 0, b"oooeoo4abab"),
        (b"0x4x", false, 9, 0, b"oooo6ab\0\0ab"),
        (b"0y1x", false, 9, 0, b"oooo4cabf"),
        (b"0xty", false, 9, 0, b"oooo6abcdef"),
        (b"5z", false, 9, 0, b"oo0"),
        (b"0xfy", false, 9, 0, b"oooo4cdef"),
        (b"0xe5xf", true, 9, 0, b"oooeeo2ab"),
        (b"0xyx", false, 9, 2, b"oo!2ab"),
        (b"0xyx", false, 1, 5, b"oo!4abcd"),
        (b"0xfy", false, 9, 2, b"oo!2ab"),
    ];
    for (letters, keep, most, failing, want) in rows {
        assert!(rt; 1 <= most);
        let sink = Small {
            bytes: [0; 12],
            len: 0,
            most,
            failing,
            calls: 0,
            faults: 0,
        };
        let trace = note_file(rt.alloc(), sink, keep, letters)?;
        assert_eq!(rt; trace.as_slice(), want);
    }
    Ok(())
}

#[test]
fn passes_over_all(rt: HostRuntime) -> Result<(), Fail> {
    let mut fake = FakeSink::new();
    for (one, want) in [
        (b'0', b'o'),
        (b'x', b'o'),
        (b'e', b'o'),
        (b'x', b'e'),
        (b'e', b'e'),
        (b'f', b'o'),
        (b'x', b'o'),
    ] {
        let item = item(rt.alloc(), one)?;
        assert_eq!(rt; letter(fake.render(&item)), want);
    }
    Ok(())
}
