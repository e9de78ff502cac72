use gst_outside::{MemFiles, MemSink, OpenGate, StepClock};
use gst_value::{List, Text};
use std::alloc::Global;
use std::process::Abort;
use std::sync::Wait;
use std::test::Fail;
use std::thread::Threads;
use world_core::launch::run;

/// A call with these words, between which bars stand, over files in memory: `a` has the content and `e` none, and `b`
/// and `d` can be written. The calls with these numbers fail. The status and the text are what it has to give, and the
/// output is what `b` holds behind it.
#[derive(Clone, Copy)]
struct Row {
    words: &'static str,
    content: &'static str,
    reads: &'static [u64],
    writes: &'static [u64],
    openings_to_read: &'static [u64],
    openings_to_write: &'static [u64],
    reports: &'static [u64],
    status: u8,
    text: &'static str,
    output: &'static str,
}

/// A row in which nothing fails.
const PLAIN: Row = Row {
    words: "filesrc|location=a|blocksize=2|!|identity|!|filesink|location=b",
    content: "abcde",
    reads: &[],
    writes: &[],
    openings_to_read: &[],
    openings_to_write: &[],
    reports: &[],
    status: 0,
    text: "status 0 Eos\npad filesrc0.src items 6 buffers 3\npad identity0.src items 6 buffers 3\nsink filesink0 bytes 5\n",
    output: "abcde",
};

/// The words of the row.
fn words_of(alloc: Global, row: &Row) -> Result<Vec<String>, Fail> {
    let mut words = Vec::new(alloc);
    for word in row.words.split('|') {
        if !word.is_empty() {
            words.push(String::from_str(alloc, word)?)?;
        }
    }
    Ok(words)
}

/// The files of the row.
fn files_of(alloc: Global, row: &Row) -> Result<MemFiles, Fail> {
    let mut files = MemFiles::new(alloc);
    files.add_input(alloc, "a", row.content.as_bytes(), row.reads, &[])?;
    files.add_input(alloc, "e", &[], &[], &[])?;
    files.add_output(alloc, "b", 4096, row.writes, &[])?;
    files.add_output(alloc, "d", 4096, &[], &[])?;
    files.fail_open_read(alloc, row.openings_to_read)?;
    files.fail_open_write(alloc, row.openings_to_write)?;
    Ok(files)
}

/// An empty output of which these writes fail.
fn output_of(alloc: Global, reports: &[u64]) -> Result<MemSink, Fail> {
    let writes = List::from_vec(Vec::from_slice(alloc, reports)?);
    Ok(MemSink::new(alloc, Text::new(alloc), 4096, writes, List::new(alloc))?)
}

fn check<H: Threads + Wait + Copy + Send + 'static, T: Abort>(
    rt: &H,
    asserts: &T,
    alloc: Global,
    row: &Row,
) -> Result<(), Fail> {
    let words = words_of(alloc, row)?;
    let mut files = files_of(alloc, row)?;
    let mut out = output_of(alloc, row.reports)?;
    let mut clock = StepClock::new(alloc, 0, &[])?;
    let outcome = run(
        rt,
        alloc,
        words.as_slice(),
        &mut files,
        &mut clock,
        &OpenGate,
        &mut out,
    );
    assert_eq!(asserts; outcome.status, row.status, "at {}", row.words);
    assert_eq!(asserts;
        out.into_bytes().as_slice(),
        row.text.as_bytes(),
        "at {}",
        row.words
    );
    assert_eq!(asserts;
        files.output_bytes("b"),
        row.output.as_bytes(),
        "at {}",
        row.words
    );
    assert_eq!(asserts; files.ends(), 0);
    Ok(())
}

/// Lines that run to their end.
#[test]
fn runs_lines(rt: HostRuntime) -> Result<(), Fail> {
    let alloc = rt.alloc();
    let rows = [
        PLAIN,
        Row {
            words: "filesrc|location=a|!|identity|!|filesink|location=b",
            text: "status 0 Eos\npad filesrc0.src items 4 buffers 1\npad identity0.src items 4 buffers 1\nsink filesink0 bytes 5\n",
            ..PLAIN
        },
        Row {
            words: "--order|7|--threads=off|filesrc|location=a|blocksize=2|!|queue|!|identity|!|queue|max-size-buffers=1|!|identity|!|filesink|location=b",
            text: "status 0 Eos\npad filesrc0.src items 6 buffers 3\npad queue0.src items 6 buffers 3\npad identity0.src items 6 buffers 3\npad queue1.src items 6 buffers 3\npad identity1.src items 6 buffers 3\nsink filesink0 bytes 5\n",
            ..PLAIN
        },
        Row {
            words: "--quiet|filesrc|location=a|!|filesink|location=b",
            text: "status 0 Eos\n",
            ..PLAIN
        },
        Row {
            words: "--script|e|filesrc|location=a|blocksize=2|!|identity|!|filesink|location=b",
            ..PLAIN
        },
        Row {
            words: "--script|a|filesrc|location=a|blocksize=8|!|identity|name=i|!|filesink|name=o|location=b|filesink|name=p|location=d",
            content: "at i.src 1 relink p.sink",
            text: "status 0 Eos\ncommand 1 done i.src=3\npad filesrc0.src items 6 buffers 3\npad i.src items 6 buffers 3\nsink o bytes 8\nsink p bytes 16\n",
            output: "at i.src",
            ..PLAIN
        },
        Row {
            words: "--script|a|filesrc|location=a|blocksize=9|!|tee|name=t|!|filesink|location=d|t.|!|filesink|name=o|location=b",
            content: "at t.src_1 1 unlink eos\nnow remove o\nnow remove t",
            text: "status 0 Eos\ncommand 1 done t.src_1=3\ncommand 2 done\ncommand 3 refused WasLinked\npad filesrc0.src items 9 buffers 6\npad t.src_0 items 9 buffers 6\npad t.src_1 items 9 buffers 6\nsink filesink0 bytes 49\nsink o bytes 9\n",
            output: "at t.src_",
            ..PLAIN
        },
        Row {
            words: "filesrc|location=e|!|filesink|location=b|filesrc|name=f|location=a|!|queue|!|filesink|location=d",
            text: "status 0 Eos\npad filesrc0.src items 3 buffers 0\npad f.src items 4 buffers 1\npad queue0.src items 4 buffers 1\nsink filesink0 bytes 0\nsink filesink1 bytes 5\n",
            output: "",
            ..PLAIN
        },
        Row {
            words: "identity|!|filesink|location=b",
            text: "status 0 Eos\npad identity0.src items 0 buffers 0\nsink filesink0 bytes 0\n",
            output: "",
            ..PLAIN
        },
        Row {
            words: "filesrc|location=e",
            text: "status 0 Eos\npad filesrc0.src items 3 buffers 0\n",
            output: "",
            ..PLAIN
        },
    ];
    for row in &rows {
        check(&rt, &rt, alloc, row)?;
    }
    Ok(())
}

/// Words for which there is no run.
#[test]
fn refuses_words(rt: HostRuntime) -> Result<(), Fail> {
    let alloc = rt.alloc();
    let rows = [
        ("", 1, "status 1 BadWords\nfault NoLine\n"),
        ("--quiet", 1, "status 1 BadWords\nfault NoLine\n"),
        (
            "--threads|maybe|fakesink",
            1,
            "status 1 BadWords\nfault Words\n",
        ),
        (
            "filesrc|location=a|!",
            2,
            "status 2 BadLine\nfault place 20 TrailingLink\n",
        ),
        (
            "filesrc|location=a|!|nosuch",
            3,
            "status 3 NoSuch\nfault NoSuch nosuch Kind\n",
        ),
        (
            "filesrc|location=a|blocksize=0|!|fakesink",
            3,
            "status 3 BadValue\nfault BadValue filesrc0 blocksize\n",
        ),
        (
            "filesrc|name=x|location=a|!|fakesink|name=x",
            3,
            "status 3 NameTaken\nfault NameTaken x\n",
        ),
        (
            "filesrc|location=a|!|fakesink|filesink|location=a",
            3,
            "status 3 LocationTaken\nfault LocationTaken a\n",
        ),
        (
            "filesrc|name=f|location=a|!|fakesink|f.|!|fakesink",
            4,
            "status 4 LinkRefused\nfault link f.src fakesink1.sink -2\n",
        ),
        (
            "--script|a|filesrc|location=e|!|filesink|location=b",
            5,
            "status 5 BadScript\nfault line 1 BadWhen\n",
        ),
    ];
    for (words, status, text) in rows {
        let row = Row {
            words,
            status,
            text,
            output: "",
            ..PLAIN
        };
        check(&rt, &rt, alloc, &row)?;
    }
    Ok(())
}

/// Runs that a fault ended.
#[test]
fn ends_at_faults(rt: HostRuntime) -> Result<(), Fail> {
    let alloc = rt.alloc();
    let rows = [
        Row {
            content: "abcdef",
            reads: &[3],
            status: 7,
            text: "status 7 ReadFault\nfault read a faults 0 1\npad filesrc0.src items 4 buffers 2\npad identity0.src items 4 buffers 2\nsink filesink0 bytes 4\n",
            output: "abcd",
            ..PLAIN
        },
        Row {
            writes: &[2],
            status: 8,
            text: "status 8 WriteFault\nfault write b faults 0 1\npad filesrc0.src items 4 buffers 2\npad identity0.src items 3 buffers 1\nsink filesink0 bytes 2\n",
            output: "ab",
            ..PLAIN
        },
        Row {
            openings_to_read: &[1],
            status: 6,
            text: "status 6 OpenFault\nfault open a\n",
            output: "",
            ..PLAIN
        },
        Row {
            words: "--script|a|filesrc|location=e|!|filesink|location=b",
            openings_to_read: &[1],
            status: 6,
            text: "status 6 OpenFault\nfault open a\n",
            output: "",
            ..PLAIN
        },
        Row {
            words: "--script|a|filesrc|location=e|!|filesink|location=b",
            content: "#",
            reads: &[2],
            status: 7,
            text: "status 7 ReadFault\nfault read a faults 0 1\n",
            output: "",
            ..PLAIN
        },
        Row {
            openings_to_write: &[1],
            status: 6,
            text: "status 6 OpenFault\nfault open b\n",
            output: "",
            ..PLAIN
        },
        Row {
            words: "filesrc|location=a|!|audio/x-raw,rate=8000|!|filesink|location=b",
            status: 10,
            text: "status 10 NotNegotiated\nfault caps capsfilter0 offered none wanted audio/x-raw, rate=(int)8000\npad filesrc0.src items 2 buffers 0\npad capsfilter0.src items 2 buffers 0\nsink filesink0 bytes 0\n",
            output: "",
            ..PLAIN
        },
        Row {
            words: "--script|a|filesrc|location=a|name=f|!|filesink|location=b",
            content: "now add fakesink name=x",
            status: 5,
            text: "status 5 BadScript\nfault line 1 BadAct\n",
            output: "",
            ..PLAIN
        },
        Row {
            words: "--script|a|filesrc|location=a|name=f|!|filesink|location=b",
            content: "now f.src unlink",
            status: 11,
            text: "status 11 NotLinked\nfault unlinked f.src place 2\ncommand 1 done f.src=0\npad f.src items 2 buffers 0\nsink filesink0 bytes 0\n",
            output: "",
            ..PLAIN
        },
        Row {
            words: "filesrc|location=a",
            status: 11,
            text: "status 11 NotLinked\nfault unlinked filesrc0.src place 2\npad filesrc0.src items 2 buffers 0\n",
            output: "",
            ..PLAIN
        },
        Row {
            reports: &[1],
            status: 14,
            text: "",
            ..PLAIN
        },
    ];
    for row in &rows {
        check(&rt, &rt, alloc, row)?;
    }
    Ok(())
}
