use crate::rows::holds;
use std::alloc::Global;
use std::test::*;
use wav_format::*;

/// The head of a mono file of 4 bytes of data, S16LE at 8000 Hz.
const MONO: [u8; 44] = [
    0x52, 0x49, 0x46, 0x46, 0x28, 0x00, 0x00, 0x00, 0x57, 0x41, 0x56, 0x45, 0x66, 0x6D, 0x74, 0x20,
    0x10, 0x00, 0x00, 0x00, 0x01, 0x00, 0x01, 0x00, 0x40, 0x1F, 0x00, 0x00, 0x80, 0x3E, 0x00, 0x00,
    0x02, 0x00, 0x10, 0x00, 0x64, 0x61, 0x74, 0x61, 0x04, 0x00, 0x00, 0x00,
];

fn mono(size: Option<u64>) -> Head {
    Head {
        tag: 1,
        channels: 1,
        rate: 8000,
        bits: 16,
        start: 44,
        size,
    }
}

fn bad(place: u64, kind: WavKind) -> HeadAnswer {
    HeadAnswer::Bad { place, kind }
}

#[test]
fn writes_a_head(rt: HostRuntime) {
    let head = Head {
        tag: 1,
        channels: 1,
        rate: 8000,
        bits: 16,
        start: 44,
        size: Some(4),
    };
    let mut into = [0u8; 44];
    write_head(&head, &mut into);
    holds(&rt, "a head", into == MONO);
    holds(&rt, "a head", read_head(&into) == HeadAnswer::Whole(head));
    head_stays();
}

/// The bytes of `MONO`, each of the pairs (place, byte) written over them.
fn changed(changes: &[(usize, u8)]) -> [u8; 44] {
    let mut bytes = MONO;
    for (place, byte) in changes {
        if *place < 44 {
            bytes[*place] = *byte;
        }
    }
    bytes
}

#[test]
fn reads_changed_heads(rt: HostRuntime) {
    let rows: [(&[(usize, u8)], HeadAnswer); 24] = [
        (&[(0, b'r'), (3, b'X')], bad(0, WavKind::NotRiff)),
        (&[(3, b'X')], bad(3, WavKind::NotRiff)),
        (&[(8, b'w')], bad(8, WavKind::NotWave)),
        (&[(10, b'W')], bad(10, WavKind::NotWave)),
        (&[(11, b'X')], bad(11, WavKind::NotWave)),
        (&[(4, 0)], HeadAnswer::Whole(mono(Some(4)))),
        (
            &[(4, 0xFF), (5, 0xFF), (6, 0xFF), (7, 0xFF)],
            HeadAnswer::Whole(mono(Some(4))),
        ),
        (
            &[(28, 0xFF), (29, 0xFF), (30, 0xFF), (31, 0xFF)],
            HeadAnswer::Whole(mono(Some(4))),
        ),
        (&[(32, 3)], bad(20, WavKind::BadFmt)),
        (&[(40, 0)], HeadAnswer::Whole(mono(None))),
        (
            &[(40, 255), (41, 255), (42, 255), (43, 255)],
            HeadAnswer::Whole(mono(None)),
        ),
        (&[(22, 0)], bad(20, WavKind::BadFmt)),
        (&[(22, 65), (32, 130)], bad(20, WavKind::BadFmt)),
        (&[(24, 0), (25, 0)], bad(20, WavKind::BadFmt)),
        (
            &[(24, 1), (25, 0)],
            HeadAnswer::Whole(Head {
                rate: 1,
                ..mono(Some(4))
            }),
        ),
        (&[(26, 12)], bad(20, WavKind::BadFmt)),
        (
            &[(22, 64), (32, 128)],
            HeadAnswer::Whole(Head {
                channels: 64,
                ..mono(Some(4))
            }),
        ),
        (
            &[(24, 0x00), (25, 0xB8), (26, 0x0B)],
            HeadAnswer::Whole(Head {
                rate: 768_000,
                ..mono(Some(4))
            }),
        ),
        (
            &[(24, 0x01), (25, 0xB8), (26, 0x0B)],
            bad(20, WavKind::BadFmt),
        ),
        (&[(20, 2)], bad(20, WavKind::TagUnknown)),
        (&[(20, 6)], bad(20, WavKind::TagUnknown)),
        (&[(20, 0xFE), (21, 0xFF)], bad(20, WavKind::BadFmt)),
        (
            &[(12, b'd'), (13, b'a'), (14, b't'), (15, b'a')],
            bad(12, WavKind::NoFmt),
        ),
        (&[(12, b'L'), (19, 1)], bad(12, WavKind::HeadTooLong)),
    ];
    for (changes, want) in rows {
        holds(&rt, "a head", read_head(&changed(changes)) == want);
    }
}

/// At each length of `MONO` the next length that decides more.
#[test]
fn asks_for_more(rt: HostRuntime) {
    let lengths: [u64; 44] = [
        1, 2, 3, 4, 9, 9, 9, 9, 9, 10, 11, 12, 16, 20, 20, 20, 20, 20, 20, 20, 21, 22, 23, 24, 27,
        27, 27, 28, 33, 33, 33, 33, 33, 34, 35, 36, 44, 44, 44, 44, 44, 44, 44, 44,
    ];
    for (len, want) in lengths.iter().enumerate() {
        holds(
            &rt,
            "a head",
            read_head(&MONO[..len]) == HeadAnswer::NeedMore(*want),
        );
    }
}

/// A stereo `fmt ` chunk of A-law at 8000 Hz, in the extensible form.
const EXTENSIBLE: [u8; 48] = [
    0x66, 0x6D, 0x74, 0x20, 0x28, 0x00, 0x00, 0x00, 0xFE, 0xFF, 0x02, 0x00, 0x40, 0x1F, 0x00, 0x00,
    0x80, 0x3E, 0x00, 0x00, 0x02, 0x00, 0x08, 0x00, 0x16, 0x00, 0x08, 0x00, 0x03, 0x00, 0x00, 0x00,
    0x06, 0x00, 0x00, 0x00, 0x00, 0x00, 0x10, 0x00, 0x80, 0x00, 0x00, 0xAA, 0x00, 0x38, 0x9B, 0x71,
];

/// A file of A-law with a chunk before each of its chunks.
fn with_chunks(alloc: Global) -> Result<Vec<u8>, Fail> {
    let mut bytes = Vec::new(alloc);
    bytes.extend_from_slice(&MONO[..12])?;
    bytes.extend_from_slice(b"LIST\x03\0\0\0abc\0")?;
    bytes.extend_from_slice(&MONO[12..36])?;
    bytes.extend_from_slice(&EXTENSIBLE)?;
    bytes.extend_from_slice(b"data\x09\0\0\0abcdefghi")?;
    Ok(bytes)
}

/// What a reader answers behind bytes that come one by one.
fn read_singly(reader: &mut HeadReader, bytes: &[u8]) -> Result<HeadAnswer, Fail> {
    let mut last = HeadAnswer::NeedMore(0);
    for byte in bytes {
        last = reader.read(&[*byte])?;
    }
    Ok(last)
}

#[test]
fn reads_past_chunks(rt: HostRuntime) -> Result<(), Fail> {
    let bytes = with_chunks(rt.alloc())?;
    let head = Head {
        tag: 6,
        channels: 2,
        rate: 8000,
        bits: 8,
        start: 104,
        size: Some(9),
    };
    holds(&rt, "a head", read_head(&bytes) == HeadAnswer::Whole(head));
    let mut reader = HeadReader::new(rt.alloc());
    let last = read_singly(&mut reader, bytes.as_slice())?;
    holds(&rt, "a head", last == HeadAnswer::Whole(head));
    holds(&rt, "a head", reader.count() == bytes.len() as u64);
    Ok(())
}

/// The length that decides more behind each front of a file, and of what a reader says that is fed behind it.
fn asks(reader: &mut HeadReader, bytes: &[u8], len: usize, want: u64) -> Result<bool, Fail> {
    let answer = HeadAnswer::NeedMore(want);
    if len > bytes.len() || read_head(&bytes[..len]) != answer {
        return Ok(false);
    }
    Ok(len == 0 || reader.read(&bytes[len - 1..len])? == answer)
}

#[test]
fn asks_past_chunks(rt: HostRuntime) -> Result<(), Fail> {
    let bytes = with_chunks(rt.alloc())?;
    let lengths: [u64; 104] = [
        1, 2, 3, 4, 9, 9, 9, 9, 9, 10, 11, 12, 16, 20, 20, 20, 20, 20, 20, 20, 28, 28, 28, 28, 28,
        32, 32, 32, 32, 32, 32, 32, 33, 34, 35, 36, 39, 39, 39, 40, 45, 45, 45, 45, 45, 46, 47, 48,
        56, 56, 56, 56, 56, 56, 56, 56, 57, 58, 59, 60, 63, 63, 63, 64, 69, 69, 69, 69, 69, 70, 71,
        72, 81, 81, 81, 81, 81, 81, 81, 81, 81, 82, 104, 104, 104, 104, 104, 104, 104, 104, 104,
        104, 104, 104, 104, 104, 104, 104, 104, 104, 104, 104, 104, 104,
    ];
    let mut reader = HeadReader::new(rt.alloc());
    for (len, want) in lengths.iter().enumerate() {
        holds(
            &rt,
            "a head",
            asks(&mut reader, bytes.as_slice(), len, *want)?,
        );
    }
    Ok(())
}

/// A mono file with a chunk of 70,001 bytes before the chunks of `MONO` from a place on. Its body begins as that
/// of a `fmt `.
fn with_long(alloc: Global, name: &[u8; 4], from: usize) -> Result<Vec<u8>, Fail> {
    let mut bytes = Vec::new(alloc);
    bytes.extend_from_slice(&MONO[..12])?;
    bytes.extend_from_slice(name)?;
    bytes.extend_from_slice(&70_001u32.to_le_bytes())?;
    bytes.extend_from_slice(&MONO[20..36])?;
    bytes.extend_from_slice(&vec![in alloc; 0u8; 69_986]?)?;
    bytes.extend_from_slice(&MONO[from.min(44)..])?;
    bytes.extend_from_slice(b"abcd")?;
    Ok(bytes)
}

/// Whether a reader that is given pieces of so many bytes, and copied behind each, answers as `read_head` does.
fn reads_alike(alloc: Global, bytes: &[u8], len: usize) -> Result<bool, Fail> {
    let mut reader = HeadReader::new(alloc);
    let mut count = 0;
    for piece in bytes.chunks(len.max(1)) {
        count = piece.len().saturating_add(count).min(bytes.len());
        if reader.read(piece)? != read_head(&bytes[..count]) {
            return Ok(false);
        }
        reader = reader.copy(alloc)?;
    }
    Ok(reader.count() == bytes.len() as u64)
}

#[test]
fn reads_past_long_chunks(rt: HostRuntime) -> Result<(), Fail> {
    // the name of the long chunk, the chunks behind it; where the data begins
    let rows: [(&[u8; 4], usize, u64); 2] = [(b"LIST", 12, 70_054), (b"fmt ", 36, 70_030)];
    for (name, from, start) in rows {
        let bytes = with_long(rt.alloc(), name, from)?;
        let want = HeadAnswer::Whole(Head {
            start,
            ..mono(Some(4))
        });
        holds(&rt, "a head", read_head(&bytes) == want);
        for len in [1, 7, 4096] {
            holds(&rt, "a head", reads_alike(rt.alloc(), &bytes, len)?);
        }
    }
    Ok(())
}

/// A head with a `fmt ` chunk of the size, of which the numbers are those of a mono file, S16LE at 8000 Hz.
fn sized(alloc: Global, tag: u16, size: u8) -> Result<Vec<u8>, Fail> {
    let mut body = [0u8; 42];
    body[..16].copy_from_slice(&MONO[20..36]);
    [body[0], body[1]] = tag.to_le_bytes();
    body[24] = 1;
    let mut bytes = Vec::new(alloc);
    bytes.extend_from_slice(&MONO[..16])?;
    bytes.extend_from_slice(&[size, 0, 0, 0])?;
    for byte in body.iter().take(usize::from(size) + usize::from(size % 2)) {
        bytes.push(*byte)?;
    }
    bytes.extend_from_slice(&MONO[36..])?;
    Ok(bytes)
}

#[test]
fn knows_sizes_of_formats(rt: HostRuntime) -> Result<(), Fail> {
    // tag, size of the body; where the data begins
    let rows: [(u16, u8, Option<u64>); 10] = [
        (1, 0, None),
        (1, 14, None),
        (1, 15, None),
        (1, 16, Some(44)),
        (1, 17, Some(46)),
        (1, 18, Some(46)),
        (0xFFFE, 16, None),
        (0xFFFE, 39, None),
        (0xFFFE, 40, Some(68)),
        (0xFFFE, 41, Some(70)),
    ];
    for (tag, size, start) in rows {
        let want = match start {
            None => bad(20, WavKind::BadFmt),
            Some(start) => HeadAnswer::Whole(Head {
                start,
                ..mono(Some(4))
            }),
        };
        let bytes = sized(rt.alloc(), tag, size)?;
        holds(&rt, "a head", read_head(&bytes) == want);
    }
    Ok(())
}

/// A `fmt ` chunk, and the head of a chunk of the size behind it.
fn followed(alloc: Global, size: u32) -> Result<Vec<u8>, Fail> {
    listed(alloc, &MONO[..36], size)
}

/// These bytes, and the head of a LIST chunk of the size behind them.
fn listed(alloc: Global, front: &[u8], size: u32) -> Result<Vec<u8>, Fail> {
    let mut bytes = Vec::new(alloc);
    bytes.extend_from_slice(front)?;
    bytes.extend_from_slice(b"LIST")?;
    bytes.extend_from_slice(&size.to_le_bytes())?;
    Ok(bytes)
}

#[test]
fn ends_within_the_limit(rt: HostRuntime) -> Result<(), Fail> {
    let rows = [
        (16_777_163, HeadAnswer::NeedMore(16_777_216)),
        (16_777_164, HeadAnswer::NeedMore(16_777_216)),
        (16_777_165, bad(16_777_210, WavKind::HeadTooLong)),
        (16_777_166, bad(16_777_210, WavKind::HeadTooLong)),
        (16_777_172, bad(16_777_216, WavKind::HeadTooLong)),
        (16_777_173, bad(36, WavKind::HeadTooLong)),
        (u32::MAX, bad(36, WavKind::HeadTooLong)),
    ];
    for (size, want) in rows {
        holds(
            &rt,
            "a head",
            read_head(&followed(rt.alloc(), size)?) == want,
        );
    }
    let mut bytes = followed(rt.alloc(), 16_777_164)?;
    let body = vec![in rt.alloc(); 0u8; 16_777_164]?;
    bytes.extend_from_slice(&body)?;
    bytes.extend_from_slice(&MONO[36..])?;
    holds(
        &rt,
        "a head",
        read_head(&bytes)
            == HeadAnswer::Whole(Head {
                start: 16_777_216,
                ..mono(Some(4))
            }),
    );
    let before_formats = listed(rt.alloc(), &MONO[..12], 16_777_188)?;
    holds(
        &rt,
        "a head",
        read_head(&before_formats) == HeadAnswer::NeedMore(16_777_212),
    );
    Ok(())
}

#[test]
fn knows_codings(rt: HostRuntime) {
    // tag, bits, block align; whether they are known
    let rows: [(u8, u8, u8, Option<WavKind>); 12] = [
        (1, 8, 1, None),
        (1, 24, 3, None),
        (1, 32, 4, None),
        (1, 40, 5, Some(WavKind::TagUnknown)),
        (1, 12, 1, Some(WavKind::BadFmt)),
        (6, 8, 1, None),
        (6, 16, 2, Some(WavKind::TagUnknown)),
        (7, 8, 1, None),
        (7, 32, 4, Some(WavKind::TagUnknown)),
        (0, 8, 1, Some(WavKind::TagUnknown)),
        (3, 32, 4, Some(WavKind::TagUnknown)),
        (3, 32, 3, Some(WavKind::BadFmt)),
    ];
    for (tag, bits, align, fault) in rows {
        let want = match fault {
            Some(kind) => bad(20, kind),
            None => HeadAnswer::Whole(Head {
                tag: u16::from(tag),
                channels: 1,
                rate: 8000,
                bits: u16::from(bits),
                start: 44,
                size: Some(4),
            }),
        };
        holds(
            &rt,
            "a head",
            read_head(&changed(&[(20, tag), (34, bits), (32, align)])) == want,
        );
    }
}

/// What is wrong with a tag and these bits, in a `fmt ` body of which all else is right.
fn coding_fault(tag: u16, bits: u16) -> Option<WavKind> {
    match (tag, bits) {
        (1, 8 | 16 | 24 | 32) | (6 | 7, 8) => None,
        _ => Some(WavKind::TagUnknown),
    }
}

/// The answer to a mono head of this tag and these bits, whose data begins at `start`.
fn coded(tag: u16, bits: u16, start: u64, fault: Option<WavKind>) -> HeadAnswer {
    match fault {
        Some(kind) => bad(20, kind),
        None => HeadAnswer::Whole(Head {
            tag,
            bits,
            start,
            ..mono(Some(4))
        }),
    }
}

/// Bits of a sample, and the block align of one channel of them.
const WIDTHS: [(u8, u8); 5] = [(8, 1), (16, 2), (24, 3), (32, 4), (40, 5)];

#[test]
fn knows_all_tags(rt: HostRuntime) {
    let mut bytes = MONO;
    for (bits, align) in WIDTHS {
        bytes[32] = align;
        bytes[34] = bits;
        let bits = u16::from(bits);
        for tag in 0..=u16::MAX {
            [bytes[20], bytes[21]] = tag.to_le_bytes();
            let fault = match tag {
                0xFFFE => Some(WavKind::BadFmt),
                _ => coding_fault(tag, bits),
            };
            holds(
                &rt,
                "a head",
                read_head(&bytes) == coded(tag, bits, 44, fault),
            );
        }
    }
}

/// The head of a mono file of 4 bytes of data in the extensible form, with the true tag 0 and no bits.
const EXTENDED: [u8; 68] = [
    0x52, 0x49, 0x46, 0x46, 0x40, 0x00, 0x00, 0x00, 0x57, 0x41, 0x56, 0x45, 0x66, 0x6D, 0x74, 0x20,
    0x28, 0x00, 0x00, 0x00, 0xFE, 0xFF, 0x01, 0x00, 0x40, 0x1F, 0x00, 0x00, 0x80, 0x3E, 0x00, 0x00,
    0x00, 0x00, 0x00, 0x00, 0x16, 0x00, 0x01, 0x00, 0x03, 0x00, 0x00, 0x00, 0x00, 0x00, 0x00, 0x00,
    0x00, 0x00, 0x10, 0x00, 0x80, 0x00, 0x00, 0xAA, 0x00, 0x38, 0x9B, 0x71, 0x64, 0x61, 0x74, 0x61,
    0x04, 0x00, 0x00, 0x00,
];

#[test]
fn knows_all_true_tags(rt: HostRuntime) {
    let mut bytes = EXTENDED;
    for (bits, align) in WIDTHS {
        bytes[32] = align;
        bytes[34] = bits;
        let bits = u16::from(bits);
        for tag in 0..=u16::MAX {
            [bytes[44], bytes[45]] = tag.to_le_bytes();
            holds(
                &rt,
                "a head",
                read_head(&bytes) == coded(tag, bits, 68, coding_fault(tag, bits)),
            );
        }
    }
}

#[test]
fn knows_true_tags(rt: HostRuntime) -> Result<(), Fail> {
    let rows: [(u8, Option<WavKind>); 5] = [
        (1, None),
        (6, None),
        (7, None),
        (3, Some(WavKind::TagUnknown)),
        (0xFE, Some(WavKind::TagUnknown)),
    ];
    for (tag, fault) in rows {
        let mut bytes = Vec::new(rt.alloc());
        bytes.extend_from_slice(&MONO[..12])?;
        bytes.extend_from_slice(&EXTENSIBLE[..24])?;
        bytes.extend_from_slice(&[8, 0, 3, 0, 0, 0, 0, 0, tag, 0])?;
        bytes.extend_from_slice(&EXTENSIBLE[34..])?;
        bytes.extend_from_slice(b"data\0\0\0\0")?;
        let want = match fault {
            Some(kind) => bad(20, kind),
            None => HeadAnswer::Whole(Head {
                tag: u16::from(tag),
                channels: 2,
                rate: 8000,
                bits: 8,
                start: 68,
                size: None,
            }),
        };
        holds(&rt, "a head", read_head(&bytes) == want);
    }
    Ok(())
}
