//! Lines over files in memory, by turns.
use graph_core::{BuildFault, build};
use gst_outside::{Files, MemFiles};
use gst_value::List;
use launch_text::parse;
use run_report::report_text;
use std::alloc::Global;
use std::process::Abort;
use std::test::Fail;
use turn_order::Order;
use world_core::*;

/// Each row: the call that fails, if one does, with its number; behind a colon the turns, a digit each, that come
/// before 0, 1, 2 and so on; the line; the lines of its report; and the bytes at `b` and at `d`. At `a` stands
/// `abcdef`, at `c` `xyz`, and at every other location nothing. `r` is a read of `a`, `w` a write of `b`, `v` one of `d`,
/// `i` an opening for reading and `o` one for writing.
const ROWS: &str = "\
-: filesrc location=a blocksize=2 ! filesink location=b => status 0 Eos / pad filesrc0.src items 6 buffers 3 / sink filesink0 bytes 6 / b=abcdef d=
-: filesrc location=a blocksize=4 ! identity ! queue max-size-buffers=1 ! identity ! queue ! filesink location=b => status 0 Eos / pad filesrc0.src items 5 buffers 2 / pad identity0.src items 5 buffers 2 / pad queue0.src items 5 buffers 2 / pad identity1.src items 5 buffers 2 / pad queue1.src items 5 buffers 2 / sink filesink0 bytes 6 / b=abcdef d=
-: filesrc location=a ! filesink location=b filesrc location=c ! queue ! filesink location=d => status 0 Eos / pad filesrc0.src items 4 buffers 1 / pad filesrc1.src items 4 buffers 1 / pad queue0.src items 4 buffers 1 / sink filesink0 bytes 6 / sink filesink1 bytes 3 / b=abcdef d=xyz
-: filesrc location=a ! capsfilter ! filesink location=b => status 0 Eos / pad filesrc0.src items 4 buffers 1 / pad capsfilter0.src items 4 buffers 1 / sink filesink0 bytes 6 / b=abcdef d=
-: filesrc location=a ! capsfilter caps=audio/x-raw ! fakesink => status 10 NotNegotiated / fault caps capsfilter0 offered none wanted audio/x-raw / pad filesrc0.src items 2 buffers 0 / pad capsfilter0.src items 2 buffers 0 / b= d=
-: filesrc location=e ! capsfilter caps=audio/x-raw ! filesink location=b => status 0 Eos / pad filesrc0.src items 3 buffers 0 / pad capsfilter0.src items 3 buffers 0 / sink filesink0 bytes 0 / b= d=
-: filesrc location=a ! queue ! capsfilter name=c0 caps=audio/x-raw ! filesink location=b => status 10 NotNegotiated / fault caps c0 offered none wanted audio/x-raw / pad filesrc0.src items 4 buffers 1 / pad queue0.src items 2 buffers 0 / pad c0.src items 2 buffers 0 / sink filesink0 bytes 0 / b= d=
-: filesrc location=e ! identity ! filesink location=b => status 0 Eos / pad filesrc0.src items 3 buffers 0 / pad identity0.src items 3 buffers 0 / sink filesink0 bytes 0 / b= d=
-: filesrc location=a => status 11 NotLinked / fault unlinked filesrc0.src place 2 / pad filesrc0.src items 2 buffers 0 / b= d=
-: filesrc location=e => status 0 Eos / pad filesrc0.src items 3 buffers 0 / b= d=
-: filesink location=b filesrc location=a blocksize=3 ! identity => status 11 NotLinked / fault unlinked identity0.src place 2 / pad filesrc0.src items 3 buffers 1 / pad identity0.src items 2 buffers 0 / sink filesink0 bytes 0 / b= d=
-: filesrc location=a ! concat name=c => status 11 NotLinked / fault unlinked c.src place 2 / pad filesrc0.src items 3 buffers 1 / pad c.src items 2 buffers 0 / b= d=
-: queue ! fakesink => status 0 Eos / pad queue0.src items 0 buffers 0 / b= d=
-: identity ! filesink location=b => status 0 Eos / pad identity0.src items 0 buffers 0 / sink filesink0 bytes 0 / b= d=
-: fakesink => status 0 Eos / b= d=
-: filesrc location=a blocksize=5 ! fakesink => status 0 Eos / pad filesrc0.src items 5 buffers 2 / b= d=
-: filesink location=d filesrc location=c ! queue ! fakesink => status 0 Eos / pad filesrc0.src items 4 buffers 1 / pad queue0.src items 4 buffers 1 / sink filesink0 bytes 0 / b= d=
i1: filesrc location=a ! filesink location=b => status 6 OpenFault / fault open a / b= d=
o1: filesrc location=a ! filesink location=b => status 6 OpenFault / fault open b / b= d=
i2: filesrc location=a ! filesink location=b filesrc location=c ! filesink location=d => status 6 OpenFault / fault open c / b= d=
o2: filesrc location=a ! filesink location=b filesrc location=c ! filesink location=d => status 6 OpenFault / fault open d / b= d=
r3: filesrc location=a blocksize=2 ! queue ! queue ! filesink location=b => status 7 ReadFault / fault read a faults 0 1 / pad filesrc0.src items 4 buffers 2 / pad queue0.src items 3 buffers 1 / pad queue1.src items 3 buffers 1 / sink filesink0 bytes 2 / b=ab d=
r3:00000000000000000000 filesrc location=a blocksize=2 ! queue ! queue ! filesink location=b => status 7 ReadFault / fault read a faults 0 1 / pad filesrc0.src items 4 buffers 2 / pad queue0.src items 0 buffers 0 / pad queue1.src items 0 buffers 0 / sink filesink0 bytes 0 / b= d=
r3: filesrc location=c ! filesink location=d filesrc location=a blocksize=2 ! filesink location=b => status 7 ReadFault / fault read a faults 0 1 / pad filesrc0.src items 4 buffers 1 / pad filesrc1.src items 4 buffers 2 / sink filesink0 bytes 3 / sink filesink1 bytes 4 / b=abcd d=xyz
w2: filesrc location=a blocksize=2 ! identity ! queue max-size-buffers=1 ! filesink location=b => status 8 WriteFault / fault write b faults 0 1 / pad filesrc0.src items 4 buffers 2 / pad identity0.src items 4 buffers 2 / pad queue0.src items 3 buffers 1 / sink filesink0 bytes 2 / b=ab d=
w2: filesrc location=c ! filesink location=d filesrc location=a blocksize=2 ! filesink location=b => status 8 WriteFault / fault write b faults 0 1 / pad filesrc0.src items 4 buffers 1 / pad filesrc1.src items 3 buffers 1 / sink filesink0 bytes 3 / sink filesink1 bytes 2 / b=ab d=xyz";

/// The number of the call of one kind that is to fail, and 0 for none.
fn number_of(fails: &str, kind: u8) -> u64 {
    let bytes = fails.as_bytes();
    match (bytes.first(), bytes.get(1)) {
        (Some(first), Some(digit)) if *first == kind => u64::from(*digit % 16),
        _ => 0,
    }
}

/// Files in memory of which one call fails.
fn files_with(alloc: Global, fails: &str) -> Result<MemFiles, Fail> {
    let mut files = MemFiles::new(alloc);
    files.add_input(alloc, "a", b"abcdef", &[number_of(fails, b'r')], &[])?;
    files.add_input(alloc, "c", b"xyz", &[], &[])?;
    files.add_output(alloc, "b", 4096, &[number_of(fails, b'w')], &[])?;
    files.add_output(alloc, "d", 4096, &[number_of(fails, b'v')], &[])?;
    files.fail_open_read(alloc, &[number_of(fails, b'i')])?;
    files.fail_open_write(alloc, &[number_of(fails, b'o')])?;
    Ok(files)
}

/// The order of some digits, and behind them 0, 1, 2 and so on.
fn listed(alloc: Global, digits: &str) -> Result<Order, Fail> {
    let mut numbers = List::new(alloc);
    for digit in digits.as_bytes() {
        numbers.push(alloc, u32::from(*digit % 16))?;
    }
    Ok(Order::Listed(numbers))
}

/// Puts a text with a bar in place of the end of each line.
fn put_joined(into: &mut String, text: &str) -> Result<(), Fail> {
    for line in text.lines() {
        into.push_str(line)?;
        into.push_str(" / ")?;
    }
    Ok(())
}

/// Runs a line, and puts the text of its report.
fn put_run<F: Files>(
    alloc: Global,
    into: &mut String,
    line: &str,
    files: &mut F,
    turns: Order,
) -> Result<(), Fail> {
    let tree = parse(alloc, line)?;
    let Ok(graph) = build(alloc, &tree) else {
        return Err("a line without a graph")?;
    };
    let end = run_turns(alloc, graph, files, turns);
    let text = report_text(alloc, end.status, false, &end.report)?;
    put_joined(into, text.as_str())
}

/// Puts bytes as characters.
fn put_bytes(into: &mut String, bytes: &[u8]) -> Result<(), Fail> {
    for byte in bytes {
        into.push(char::from(*byte))?;
    }
    Ok(())
}

/// What came of a run: its report, and what stands at `b` and at `d`.
fn told(alloc: Global, line: &str, files: &mut MemFiles, turns: Order) -> Result<String, Fail> {
    let mut row = String::new(alloc);
    put_run(alloc, &mut row, line, files, turns)?;
    row.push_str("b=")?;
    put_bytes(&mut row, files.output_bytes("b"))?;
    row.push_str(" d=")?;
    put_bytes(&mut row, files.output_bytes("d"))?;
    if files.ends() > 0 {
        Err("a file that was not given back")?;
    }
    Ok(row)
}

/// What came of the run of a row, and what is to come of it.
fn check_row(rt: &impl Abort, alloc: Global, row: &str) -> Result<(), Fail> {
    let (left, wanted) = row.split_once(" => ").ok_or("a row")?;
    let (first, line) = left.split_once(' ').ok_or("a line")?;
    let (fails, turns) = first.split_once(':').ok_or("a call that fails")?;
    let mut files = files_with(alloc, fails)?;
    let row = told(alloc, line, &mut files, listed(alloc, turns)?)?;
    assert!(rt; row.as_str() == wanted, "{left}: {row}");
    Ok(())
}

#[test]
fn rows(rt: HostRuntime) -> Result<(), Fail> {
    let alloc = rt.alloc();
    for row in ROWS.lines() {
        check_row(&rt, alloc, row)?;
    }
    Ok(())
}

/// Each row: the bytes at `a`; behind a colon the line; the lines of its report; and the bytes at `b`. A byte is two
/// digits.
const AUDIO: &str = "\
: ramptestsrc num-buffers=1 rate=44100 ! audio/x-raw,rate=8000 ! fakesink => status 10 NotNegotiated / fault caps capsfilter0 offered audio/x-raw, channels=(int)1, format=(string)S16LE, layout=(string)interleaved, rate=(int)44100 wanted audio/x-raw, rate=(int)8000 / pad ramptestsrc0.src items 1 buffers 0 / pad capsfilter0.src items 1 buffers 0 / b=
: ramptestsrc num-buffers=1 rate=44100 ! audio/x-raw,rate=8000;audio/x-raw,rate=44100 ! fakesink => status 0 Eos / pad ramptestsrc0.src items 5 buffers 1 / pad capsfilter0.src items 5 buffers 1 / b=
: ramptestsrc num-buffers=1 samplesperbuffer=9 rate=8000 ! mulawenc ! filesink location=b => status 0 Eos / pad ramptestsrc0.src items 5 buffers 1 / pad mulawenc0.src items 5 buffers 1 / sink filesink0 bytes 9 / b=FFFFFFFFFEFEFEFEFE
: ramptestsrc num-buffers=1 samplesperbuffer=3 rate=8000 ! audioconvert ! audio/x-raw,format=S24LE,channels=2 ! filesink location=b => status 0 Eos / pad ramptestsrc0.src items 5 buffers 1 / pad audioconvert0.src items 5 buffers 1 / pad capsfilter0.src items 5 buffers 1 / sink filesink0 bytes 18 / b=000000000000000100000100000200000200
: ramptestsrc num-buffers=1 samplesperbuffer=3 rate=8000 ! audioconvert ! audio/x-raw,rate=44100 ! fakesink => status 10 NotNegotiated / fault caps audioconvert0 offered audio/x-raw, channels=(int)1, format=(string)S16LE, layout=(string)interleaved, rate=(int)8000 wanted audio/x-raw, rate=(int)44100 / pad ramptestsrc0.src items 1 buffers 0 / pad audioconvert0.src items 1 buffers 0 / pad capsfilter0.src items 1 buffers 0 / b=
: ramptestsrc num-buffers=1 samplesperbuffer=2 ! tee name=t ! interleave name=v ! filesink location=b t. ! audioconvert ! audio/x-raw,format=U8 ! v. => status 10 NotNegotiated / fault caps v offered audio/x-raw, channels=(int)1, format=(string)U8, layout=(string)interleaved, rate=(int)44100 wanted audio/x-raw, channels=(int)1, format=(string)S16LE, layout=(string)interleaved, rate=(int)44100 / pad ramptestsrc0.src items 4 buffers 1 / pad t.src_0 items 4 buffers 1 / pad t.src_1 items 4 buffers 1 / pad v.src items 0 buffers 0 / pad audioconvert0.src items 4 buffers 1 / pad capsfilter0.src items 3 buffers 0 / sink filesink0 bytes 0 / b=
: ramptestsrc num-buffers=2 samplesperbuffer=2 ! audioconvert ! queue ! identity ! audio/x-raw,format=U8 ! filesink location=b => status 0 Eos / pad ramptestsrc0.src items 6 buffers 2 / pad audioconvert0.src items 6 buffers 2 / pad queue0.src items 6 buffers 2 / pad identity0.src items 6 buffers 2 / pad capsfilter0.src items 6 buffers 2 / sink filesink0 bytes 4 / b=80808080
: ramptestsrc num-buffers=2 samplesperbuffer=1 channels=2 gap-every=2 title=x ! filesink location=b => status 0 Eos / pad ramptestsrc0.src items 7 buffers 1 / sink filesink0 bytes 4 / b=00000000
: ramptestsrc num-buffers=0 ! filesink location=b => status 0 Eos / pad ramptestsrc0.src items 4 buffers 0 / sink filesink0 bytes 0 / b=
: ramptestsrc num-buffers=1 samplesperbuffer=3 ! alawenc ! alawdec ! filesink location=b => status 0 Eos / pad ramptestsrc0.src items 5 buffers 1 / pad alawenc0.src items 5 buffers 1 / pad alawdec0.src items 5 buffers 1 / sink filesink0 bytes 6 / b=080008000800
0000FF7F0080FFFF0100: filesrc location=a ! rawaudioparse num-channels=1 sample-rate=8000 ! mulawenc ! filesink location=b => status 0 Eos / pad filesrc0.src items 4 buffers 1 / pad rawaudioparse0.src items 5 buffers 1 / pad mulawenc0.src items 5 buffers 1 / sink filesink0 bytes 5 / b=FF80007FFF
0000FFFFFF7F0080: filesrc location=a ! rawaudioparse num-channels=1 sample-rate=8000 ! alawenc ! filesink location=b => status 0 Eos / pad filesrc0.src items 4 buffers 1 / pad rawaudioparse0.src items 5 buffers 1 / pad alawenc0.src items 5 buffers 1 / sink filesink0 bytes 4 / b=D555AA2A
01000200: filesrc location=a ! rawaudioparse num-channels=1 sample-rate=8000 ! wavenc ! filesink location=b => status 0 Eos / pad filesrc0.src items 4 buffers 1 / pad rawaudioparse0.src items 5 buffers 1 / pad wavenc0.src items 8 buffers 3 / sink filesink0 bytes 48 / b=524946462800000057415645666D74201000000001000100401F0000803E000002001000646174610400000001000200
010002: filesrc location=a ! rawaudioparse num-channels=1 sample-rate=8000 ! filesink location=b => status 0 Eos / pad filesrc0.src items 4 buffers 1 / pad rawaudioparse0.src items 5 buffers 1 / sink filesink0 bytes 2 / b=0100
01000200030004000500: filesrc location=a blocksize=2 ! rawaudioparse num-channels=1 sample-rate=8000 ! audiobuffersplit frames=4 ! filesink location=b => status 0 Eos / pad filesrc0.src items 8 buffers 5 / pad rawaudioparse0.src items 9 buffers 5 / pad audiobuffersplit0.src items 6 buffers 2 / sink filesink0 bytes 10 / b=01000200030004000500
6162: filesrc location=a ! mulawenc ! fakesink => status 10 NotNegotiated / fault caps mulawenc0 offered none wanted audio/x-raw, channels=(int)[ 1, 64 ], format=(string)S16LE, layout=(string)interleaved, rate=(int)[ 1, 768000 ] / pad filesrc0.src items 2 buffers 0 / pad mulawenc0.src items 2 buffers 0 / b=
524946462800000057415645666D74201000000001000100401F0000803E000002001000646174610400000001000200: filesrc location=a ! wavparse name=w ! filesink name=o location=b => status 0 Eos / pad filesrc0.src items 4 buffers 1 / pad w.src items 5 buffers 1 / sink o bytes 4 / b=01000200
524946462800000057415645666D74201000000001000100401F0000803E00000200100064617461040000: filesrc location=a ! wavparse name=w ! filesink name=o location=b => status 9 BadStream / fault stream w place 43 Short / pad filesrc0.src items 3 buffers 1 / pad w.src items 1 buffers 0 / sink o bytes 0 / b=
524946582800000057415645666D74201000000001000100401F0000803E000002001000646174610400000001000200: filesrc location=a ! wavparse name=w ! filesink name=o location=b => status 9 BadStream / fault stream w place 3 NotRiff / pad filesrc0.src items 2 buffers 0 / pad w.src items 1 buffers 0 / sink o bytes 0 / b=
524946462800000057415645666D74201000000001000100401F0000C05D000003001000646174610400000001000200: filesrc location=a ! wavparse name=w ! filesink name=o location=b => status 9 BadStream / fault stream w place 20 BadFmt / pad filesrc0.src items 2 buffers 0 / pad w.src items 1 buffers 0 / sink o bytes 0 / b=
524946462800000057415645666D74201000000001000100401F0000803E000002001000646174619001000001000200: filesrc location=a ! wavparse name=w ! filesink name=o location=b => status 0 Eos / pad filesrc0.src items 4 buffers 1 / pad w.src items 5 buffers 1 / sink o bytes 4 / b=01000200
524946462800000057415645666D74201000000001000100401F0000803E00000200100064617461FFFFFFFF01000200: filesrc location=a ! wavparse name=w ! filesink name=o location=b => status 0 Eos / pad filesrc0.src items 4 buffers 1 / pad w.src items 5 buffers 1 / sink o bytes 4 / b=01000200
524946462800000057415645666D74201000000001000100401F0000803E0000020010006461746104000000010002: filesrc location=a ! wavparse name=w ! filesink name=o location=b => status 0 Eos / pad filesrc0.src items 4 buffers 1 / pad w.src items 5 buffers 1 / sink o bytes 2 / b=0100
524946462800000057415645666D74201000000001000100401F0000803E000002001000646174610400000001000200: filesrc location=a blocksize=7 ! wavparse name=w ! filesink name=o location=b => status 0 Eos / pad filesrc0.src items 10 buffers 7 / pad w.src items 5 buffers 1 / sink o bytes 4 / b=01000200";

/// The bytes that some digits stand for.
fn bytes_of(alloc: Global, digits: &str) -> Result<Vec<u8>, Fail> {
    let mut bytes = Vec::new(alloc);
    let (pairs, _) = digits.as_bytes().as_chunks::<2>();
    for pair in pairs {
        bytes.push(digit_of(pair[0]) << 4 | digit_of(pair[1]))?;
    }
    Ok(bytes)
}

/// The number of a digit.
fn digit_of(digit: u8) -> u8 {
    if digit < b'A' {
        digit % 16
    } else {
        digit % 16 + 9
    }
}

/// Puts bytes, two digits each.
fn put_digits(into: &mut String, bytes: &[u8]) -> Result<(), Fail> {
    for byte in bytes {
        into.push(digit_for(*byte / 16))?;
        into.push(digit_for(*byte % 16))?;
    }
    Ok(())
}

/// The digit of a number.
fn digit_for(number: u8) -> char {
    match char::from_digit(u32::from(number), 16) {
        Some(digit) => digit.to_ascii_uppercase(),
        None => '?',
    }
}

/// What came of the run of a line of audio, and what is to come of it.
fn check_audio(rt: &impl Abort, alloc: Global, row: &str) -> Result<(), Fail> {
    let (left, wanted) = row.split_once(" => ").ok_or("a row")?;
    let (digits, line) = left.split_once(": ").ok_or("a line")?;
    let mut files = MemFiles::new(alloc);
    files.add_input(alloc, "a", bytes_of(alloc, digits)?.as_slice(), &[], &[])?;
    files.add_output(alloc, "b", 4096, &[], &[])?;
    let mut row = String::new(alloc);
    put_run(alloc, &mut row, line, &mut files, listed(alloc, "")?)?;
    row.push_str("b=")?;
    put_digits(&mut row, files.output_bytes("b"))?;
    assert!(rt; row.as_str() == wanted, "{left}: {row}");
    assert_eq!(rt; files.ends(), 0);
    Ok(())
}

#[test]
fn lines_of_audio(rt: HostRuntime) -> Result<(), Fail> {
    let alloc = rt.alloc();
    for row in AUDIO.lines() {
        check_audio(&rt, alloc, row)?;
    }
    Ok(())
}

/// A line whose lanes are full again and again.
const NARROW: &str =
    "filesrc location=a blocksize=1 ! queue max-size-buffers=1 ! identity ! queue max-size-buffers=2 ! filesink location=b";

const NARROW_END: &str =
    "status 0 Eos / pad filesrc0.src items 9 buffers 6 / pad queue0.src items 9 buffers 6 / pad identity0.src items 9 buffers 6 / pad queue1.src items 9 buffers 6 / sink filesink0 bytes 6 / b=abcdef d=";

fn check_order(rt: &impl Abort, alloc: Global, turns: Order) -> Result<(), Fail> {
    let mut files = files_with(alloc, "-")?;
    let row = told(alloc, NARROW, &mut files, turns)?;
    assert!(rt; row.as_str() == NARROW_END, "{row}");
    Ok(())
}

#[test]
fn the_order_changes_nothing(rt: HostRuntime) -> Result<(), Fail> {
    let alloc = rt.alloc();
    for digits in [
        "",
        "0",
        "2",
        "2222",
        "0000000000",
        "110",
        "012012012",
        "210210210",
    ] {
        check_order(&rt, alloc, listed(alloc, digits)?)?;
    }
    for seed in 0..10 {
        check_order(&rt, alloc, Order::Drawn(seed))?;
    }
    Ok(())
}

/// A line of three blocks whose lane has room for one.
const SHORT: &str =
    "filesrc location=a blocksize=1 ! queue max-size-buffers=1 ! filesink location=b";

const SHORT_END: &str =
    "status 0 Eos / pad filesrc0.src items 6 buffers 3 / pad queue0.src items 6 buffers 3 / sink filesink0 bytes 3 / b=abc d=";

#[test]
fn three_blocks_through_a_full_lane(rt: HostRuntime) -> Result<(), Fail> {
    let alloc = rt.alloc();
    for digits in ["", "0000", "110"] {
        let mut files = MemFiles::new(alloc);
        files.add_input(alloc, "a", b"abc", &[], &[])?;
        files.add_output(alloc, "b", 4096, &[], &[])?;
        let row = told(alloc, SHORT, &mut files, listed(alloc, digits)?)?;
        assert!(rt; row.as_str() == SHORT_END, "{digits}: {row}");
    }
    Ok(())
}

/// A file that stood there before is empty once a line opened it, whether its sink is live or not.
#[test]
fn a_file_begins_empty(rt: HostRuntime) -> Result<(), Fail> {
    let alloc = rt.alloc();
    let mut files = files_with(alloc, "-")?;
    let line = "filesrc location=a ! filesink location=b filesrc location=c ! filesink location=d";
    let first = told(alloc, line, &mut files, listed(alloc, "")?)?;
    assert!(rt; first.as_str().ends_with("b=abcdef d=xyz"));
    let again = told(
        alloc,
        "identity ! filesink location=b",
        &mut files,
        listed(alloc, "")?,
    )?;
    assert!(rt; again.as_str().ends_with("bytes 0 / b= d=xyz"));
    Ok(())
}

/// Lines with elements of several pads: the call that fails, if one does, and behind a colon the line; the lines of its report; and the
/// bytes at `b` and at `d`, two digits each.
const FANS: &str = "\
-: filesrc location=a blocksize=2 ! tee name=t ! queue ! filesink location=b t. ! queue ! filesink location=d => status 0 Eos / pad filesrc0.src items 6 buffers 3 / pad t.src_0 items 6 buffers 3 / pad t.src_1 items 6 buffers 3 / pad queue0.src items 6 buffers 3 / pad queue1.src items 6 buffers 3 / sink filesink0 bytes 6 / sink filesink1 bytes 6 / b=616263646566 d=616263646566
-: filesrc location=a ! tee name=t t. ! filesink location=b => status 0 Eos / pad filesrc0.src items 4 buffers 1 / pad t.src_0 items 4 buffers 1 / sink filesink0 bytes 6 / b=616263646566 d=
-: filesrc location=a ! tee name=t => status 0 Eos / pad filesrc0.src items 4 buffers 1 / b= d=
-: filesrc location=a blocksize=2 ! tee name=t ! tee name=u ! filesink location=b u. ! queue ! fakesink t. ! filesink location=d => status 0 Eos / pad filesrc0.src items 6 buffers 3 / pad t.src_0 items 6 buffers 3 / pad t.src_1 items 6 buffers 3 / pad u.src_0 items 6 buffers 3 / pad u.src_1 items 6 buffers 3 / pad queue0.src items 6 buffers 3 / sink filesink0 bytes 6 / sink filesink1 bytes 6 / b=616263646566 d=616263646566
w2: filesrc location=a blocksize=2 ! tee name=t ! filesink name=p location=b t. ! filesink name=q location=d => status 8 WriteFault / fault write b faults 0 1 / pad filesrc0.src items 4 buffers 2 / pad t.src_0 items 3 buffers 1 / pad t.src_1 items 3 buffers 1 / sink p bytes 2 / sink q bytes 2 / b=6162 d=6162
v2: filesrc location=a blocksize=2 ! tee name=t ! filesink name=p location=b t. ! filesink name=q location=d => status 8 WriteFault / fault write d faults 0 1 / pad filesrc0.src items 4 buffers 2 / pad t.src_0 items 4 buffers 2 / pad t.src_1 items 3 buffers 1 / sink p bytes 4 / sink q bytes 2 / b=61626364 d=6162
-: filesrc location=a ! concat name=c ! filesink location=b filesrc location=c ! c. => status 0 Eos / pad filesrc0.src items 4 buffers 1 / pad c.src items 7 buffers 2 / pad filesrc1.src items 4 buffers 1 / sink filesink0 bytes 9 / b=61626364656678797A d=
-: filesrc location=a blocksize=2 ! tee name=t ! concat name=c ! filesink location=b t. ! c. => status 0 Eos / pad filesrc0.src items 6 buffers 3 / pad t.src_0 items 6 buffers 3 / pad t.src_1 items 6 buffers 3 / pad c.src items 11 buffers 6 / sink filesink0 bytes 12 / b=616263646566616263646566 d=
-: filesrc location=a blocksize=2 ! tee name=t ! queue max-size-buffers=1 ! concat name=c ! filesink location=b t. ! queue max-size-buffers=1 ! c. => status 0 Eos / pad filesrc0.src items 6 buffers 3 / pad t.src_0 items 6 buffers 3 / pad t.src_1 items 6 buffers 3 / pad queue0.src items 6 buffers 3 / pad c.src items 11 buffers 6 / pad queue1.src items 6 buffers 3 / sink filesink0 bytes 12 / b=616263646566616263646566 d=
-: ramptestsrc num-buffers=40 samplesperbuffer=1 ! tee name=t ! concat name=c ! filesink location=b t. ! c. => status 12 Stalled / fault command none / task ramptestsrc0 needs-room c.sink_1 / task c needs-item c.sink_0 / pad ramptestsrc0.src items 17 buffers 14 / pad t.src_0 items 17 buffers 14 / pad t.src_1 items 16 buffers 13 / pad c.src items 17 buffers 14 / sink filesink0 bytes 28 / b=00000100020003000400050006000700080009000A000B000C000D00 d=
-: ramptestsrc num-buffers=2 samplesperbuffer=3 ! tee name=t ! interleave name=v ! filesink location=b t. ! v. => status 0 Eos / pad ramptestsrc0.src items 6 buffers 2 / pad t.src_0 items 6 buffers 2 / pad t.src_1 items 6 buffers 2 / pad v.src items 6 buffers 2 / sink filesink0 bytes 24 / b=000000000100010002000200030003000400040005000500 d=
-: ramptestsrc num-buffers=2 samplesperbuffer=3 ! tee name=t ! queue ! interleave name=v ! filesink location=b t. ! queue max-size-buffers=1 ! v. => status 0 Eos / pad ramptestsrc0.src items 6 buffers 2 / pad t.src_0 items 6 buffers 2 / pad t.src_1 items 6 buffers 2 / pad queue0.src items 6 buffers 2 / pad v.src items 6 buffers 2 / pad queue1.src items 6 buffers 2 / sink filesink0 bytes 24 / b=000000000100010002000200030003000400040005000500 d=
-: ramptestsrc num-buffers=100 samplesperbuffer=1 ! tee name=t ! queue max-size-buffers=1 ! interleave name=v ! filesink location=b t. ! audiobuffersplit frames=100 ! v. => status 12 Stalled / fault command none / task ramptestsrc0 needs-room queue0.sink / task queue0 needs-room v.sink_0 / task v needs-item v.sink_1 / pad ramptestsrc0.src items 23 buffers 20 / pad t.src_0 items 22 buffers 19 / pad t.src_1 items 23 buffers 20 / pad queue0.src items 20 buffers 17 / pad v.src items 3 buffers 0 / pad audiobuffersplit0.src items 3 buffers 0 / sink filesink0 bytes 0 / b= d=
-: filesrc location=a blocksize=1 ! concat name=c ! queue ! filesink location=b identity ! c. => status 12 Stalled / fault command none / task filesrc0 ended / task c needs-item c.sink_1 / task queue0 needs-item queue0.sink / pad filesrc0.src items 9 buffers 6 / pad c.src items 8 buffers 6 / pad queue0.src items 8 buffers 6 / pad identity0.src items 0 buffers 0 / sink filesink0 bytes 6 / b=616263646566 d=
-: filesrc location=a blocksize=1 ! queue ! concat name=c ! filesink location=b identity ! c. => status 12 Stalled / fault command none / task filesrc0 ended / task queue0 ended / task c needs-item c.sink_1 / pad filesrc0.src items 9 buffers 6 / pad queue0.src items 9 buffers 6 / pad c.src items 8 buffers 6 / pad identity0.src items 0 buffers 0 / sink filesink0 bytes 6 / b=616263646566 d=
-: identity ! interleave name=v ! filesink location=b => status 0 Eos / pad identity0.src items 0 buffers 0 / pad v.src items 0 buffers 0 / sink filesink0 bytes 0 / b= d=";

/// What came of the run of a line by turns of an order, and what is to come of it.
fn check_fan(rt: &impl Abort, alloc: Global, row: &str, turns: Order) -> Result<(), Fail> {
    let (left, wanted) = row.split_once(" => ").ok_or("a row")?;
    let (fails, line) = left.split_once(": ").ok_or("a call that fails")?;
    let mut files = files_with(alloc, fails)?;
    let mut row = String::new(alloc);
    put_run(alloc, &mut row, line, &mut files, turns)?;
    row.push_str("b=")?;
    put_digits(&mut row, files.output_bytes("b"))?;
    row.push_str(" d=")?;
    put_digits(&mut row, files.output_bytes("d"))?;
    assert!(rt; row.as_str() == wanted, "{left}: {row}");
    assert_eq!(rt; files.ends(), 0);
    Ok(())
}

/// An element with one sink pad takes no second branch of a tee.
#[test]
fn a_second_branch_is_refused(rt: HostRuntime) -> Result<(), Fail> {
    let alloc = rt.alloc();
    let line = "filesrc location=a ! tee name=t ! identity name=i ! filesink location=b t. ! i.";
    let tree = parse(alloc, line)?;
    assert!(rt; matches!(build(alloc, &tree), Err(BuildFault::LinkRefused { .. })));
    Ok(())
}

/// One order of turns and another leave the same files and the same report.
#[test]
fn elements_of_several_pads(rt: HostRuntime) -> Result<(), Fail> {
    let alloc = rt.alloc();
    for row in FANS.lines() {
        check_fan(&rt, alloc, row, listed(alloc, "")?)?;
        check_fan(&rt, alloc, row, listed(alloc, "222222222222222210")?)?;
        check_fan(&rt, alloc, row, Order::Drawn(7))?;
    }
    Ok(())
}
