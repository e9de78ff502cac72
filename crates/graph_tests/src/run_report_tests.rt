//! Rows of reports' texts.
use caps_text::parse;
use flow_model::StreamKind;
use gst_value::{List, OutOfMemory, PadName, Text};
use launch_text::LineKind;
use pad_core::LinkReturn;
use run_report::*;
use script_text::{Answer, Entry, Place, Reason, ScriptKind};
use std::alloc::Global;
use std::test::Fail;

/// Reports, each with its text: a line with the status, `quiet` or `whole`, and the case, and then the text.
const ROWS: &str = "0 whole crossed
status 0 Eos
command 1 done
command 2 done i.src=5 o.src_1=0
command 3 unreached
command 4 refused TooMany 65
command 5 refused NotReady
pad filesrc0.src items 9 buffers 6
pad i.src items 8 buffers 5
sink o bytes 3
sink b bytes 0

0 quiet crossed
status 0 Eos

1 quiet words
status 1 BadWords
fault Words

1 whole no line
status 1 BadWords
fault NoLine

1 whole both lines
status 1 BadWords
fault BothLines

2 whole line
status 2 BadLine
fault place 20 TrailingLink

5 whole script
status 5 BadScript
fault line 1 BadNumber

3 whole kind
status 3 NoSuch
fault NoSuch nosuch Kind

3 whole property
status 3 NoSuch
fault NoSuch identity0 foo

3 whole value
status 3 BadValue
fault BadValue filesrc0 blocksize

3 whole name
status 3 NameTaken
fault NameTaken i

3 whole location
status 3 LocationTaken
fault LocationTaken a

3 whole count
status 3 TooMany
fault TooMany 65

4 whole link
status 4 LinkRefused
fault link f.src fakesink1.sink -2

6 whole open
status 6 OpenFault
fault open b

7 quiet read
status 7 ReadFault
fault read a faults 0 1

8 quiet write
status 8 WriteFault
fault write q faults 2 4

9 quiet stream
status 9 BadStream
fault stream w place 43 Short

10 quiet caps
status 10 NotNegotiated
fault caps capsfilter0 offered audio/x-raw, channels=(int)1, format=(string)S16LE, layout=(string)interleaved, rate=(int)44100 wanted audio/x-raw, rate=(int)8000

10 quiet no caps
status 10 NotNegotiated
fault caps mulawenc0 offered none wanted audio/x-raw; ANY/x

11 quiet unlinked
status 11 NotLinked
fault unlinked filesrc0.src place 2

12 quiet stalled
status 12 Stalled
fault command none
task ramptestsrc0 needs-room queue0.sink
task queue0 needs-room v.sink_0
task v needs-item v.sink_1

12 quiet stalled at a command
status 12 Stalled
fault command 3
task f at-probe 3
task g held o
task h ended

13 whole crossed
status 13 OutOfMemory

15 quiet time
status 15 TooLong
fault time identity0 1099511627776 1";

fn pad(alloc: Global, element: &str, pad: &str) -> Result<PadName, OutOfMemory> {
    Ok(PadName {
        element: Text::from_str(alloc, element)?,
        pad: Text::from_str(alloc, pad)?,
    })
}

fn place(alloc: Global, element: &str, name: &str, items: u64) -> Result<Place, OutOfMemory> {
    Ok(Place {
        pad: pad(alloc, element, name)?,
        items,
    })
}

/// Adds a task that can't go on.
fn push_task(
    alloc: Global,
    tasks: &mut List<StalledTask>,
    head: &str,
    reason: StallReason,
) -> Result<(), OutOfMemory> {
    let task = StalledTask {
        head: Text::from_str(alloc, head)?,
        reason,
        taken: List::new(alloc),
    };
    tasks.push(alloc, task)
}

/// The tasks of a case.
fn stalled_tasks(alloc: Global, case: &str) -> Result<List<StalledTask>, OutOfMemory> {
    let mut tasks = List::new(alloc);
    if case == "stalled" {
        push_waiting(alloc, &mut tasks)?;
    } else {
        push_stopped(alloc, &mut tasks)?;
    }
    Ok(tasks)
}

fn push_waiting(alloc: Global, tasks: &mut List<StalledTask>) -> Result<(), OutOfMemory> {
    let room = StallReason::NeedsRoom(pad(alloc, "queue0", "sink")?);
    push_task(alloc, tasks, "ramptestsrc0", room)?;
    let room = StallReason::NeedsRoom(pad(alloc, "v", "sink_0")?);
    push_task(alloc, tasks, "queue0", room)?;
    let item = StallReason::NeedsItem(pad(alloc, "v", "sink_1")?);
    push_task(alloc, tasks, "v", item)
}

fn push_stopped(alloc: Global, tasks: &mut List<StalledTask>) -> Result<(), OutOfMemory> {
    push_task(alloc, tasks, "f", StallReason::AtProbe(3))?;
    push_task(
        alloc,
        tasks,
        "g",
        StallReason::Held(Text::from_str(alloc, "o")?),
    )?;
    push_task(alloc, tasks, "h", StallReason::Ended)
}

fn unfit(alloc: Global, element: &str, offered: &str, wanted: &str) -> Result<Fault, Fail> {
    let offered = parse(alloc, offered)?.fixate(alloc)?;
    Ok(Fault::NotNegotiated {
        element: Text::from_str(alloc, element)?,
        offered,
        wanted: parse(alloc, wanted)?,
    })
}

/// The fault of a name, a location or a count in a line.
fn line_fault(alloc: Global, case: &str) -> Result<Fault, OutOfMemory> {
    match case {
        "kind" => Ok(Fault::NoSuch {
            name: Text::from_str(alloc, "nosuch")?,
            what: What::Kind,
        }),
        "property" => Ok(Fault::NoSuch {
            name: Text::from_str(alloc, "identity0")?,
            what: What::Property(Text::from_str(alloc, "foo")?),
        }),
        "value" => Ok(Fault::BadValue {
            name: Text::from_str(alloc, "filesrc0")?,
            property: Text::from_str(alloc, "blocksize")?,
        }),
        "name" => Ok(Fault::NameTaken {
            name: Text::from_str(alloc, "i")?,
        }),
        "location" => Ok(Fault::LocationTaken {
            location: Text::from_str(alloc, "a")?,
        }),
        "count" => Ok(Fault::TooMany { count: 65 }),
        "link" => Ok(Fault::LinkRefused {
            a: pad(alloc, "f", "src")?,
            b: pad(alloc, "fakesink1", "sink")?,
            ret: LinkReturn::WasLinked,
        }),
        _ => Ok(Fault::Nothing),
    }
}

/// The fault of a file, or of what flows.
fn flow_fault(alloc: Global, case: &str) -> Result<Fault, OutOfMemory> {
    match case {
        "open" => Ok(Fault::OpenFault {
            location: Text::from_str(alloc, "b")?,
        }),
        "read" => Ok(Fault::ReadFault {
            location: Text::from_str(alloc, "a")?,
            before: 0,
            after: 1,
        }),
        "write" => Ok(Fault::WriteFault {
            location: Text::from_str(alloc, "q")?,
            before: 2,
            after: 4,
        }),
        "stream" => Ok(Fault::BadStream {
            element: Text::from_str(alloc, "w")?,
            place: 43,
            kind: StreamKind::Short,
        }),
        "unlinked" => Ok(Fault::NotLinked {
            pad: pad(alloc, "filesrc0", "src")?,
            place: 2,
        }),
        "time" => Ok(Fault::TooLong {
            element: Text::from_str(alloc, "identity0")?,
            a: 1_099_511_627_776,
            b: 1,
        }),
        _ => line_fault(alloc, case),
    }
}

fn fault(alloc: Global, case: &str) -> Result<Fault, Fail> {
    match case {
        "words" => Ok(Fault::Words),
        "no line" => Ok(Fault::NoLine),
        "both lines" => Ok(Fault::BothLines),
        "line" => Ok(Fault::BadLine {
            place: 20,
            kind: LineKind::TrailingLink,
        }),
        "script" => Ok(Fault::BadScript {
            line: 1,
            kind: ScriptKind::BadNumber,
        }),
        "caps" => unfit(
            alloc,
            "capsfilter0",
            "audio/x-raw,rate=44100,format=S16LE,channels=1,layout=interleaved",
            "audio/x-raw,rate=8000",
        ),
        "no caps" => unfit(alloc, "mulawenc0", "ANY", "audio/x-raw;ANY/x"),
        "stalled" => Ok(Fault::Stalled {
            command: None,
            tasks: stalled_tasks(alloc, case)?,
        }),
        "stalled at a command" => Ok(Fault::Stalled {
            command: Some(3),
            tasks: stalled_tasks(alloc, case)?,
        }),
        _ => Ok(flow_fault(alloc, case)?),
    }
}

fn places_of(alloc: Global, items: u64) -> Result<List<Place>, OutOfMemory> {
    let mut places = List::new(alloc);
    places.push(alloc, place(alloc, "i", "src", items)?)?;
    Ok(places)
}

fn two_places(alloc: Global) -> Result<List<Place>, OutOfMemory> {
    let mut places = places_of(alloc, 5)?;
    places.push(alloc, place(alloc, "o", "src_1", 0)?)?;
    Ok(places)
}

fn not_ready(alloc: Global) -> Result<Reason, OutOfMemory> {
    Ok(Reason::NotReady {
        fed: place(alloc, "f", "src", 1)?,
        out: place(alloc, "w", "src", 0)?,
    })
}

/// What is said of the command of a number.
fn answer_of(alloc: Global, number: u32) -> Result<Answer, OutOfMemory> {
    match number {
        1 => Ok(Answer::Done {
            places: List::new(alloc),
        }),
        2 => Ok(Answer::Done {
            places: two_places(alloc)?,
        }),
        3 => Ok(Answer::Unreached),
        4 => Ok(Answer::Refused {
            reason: Reason::TooMany { count: 65 },
            places: places_of(alloc, 7)?,
        }),
        _ => Ok(Answer::Refused {
            reason: not_ready(alloc)?,
            places: List::new(alloc),
        }),
    }
}

fn entries(alloc: Global) -> Result<List<Entry>, OutOfMemory> {
    let mut entries = List::new(alloc);
    for number in 1..6 {
        let answer = answer_of(alloc, number)?;
        entries.push(alloc, Entry { answer })?;
    }
    Ok(entries)
}

fn push_pad(
    alloc: Global,
    pads: &mut List<PadCount>,
    element: &str,
    items: u64,
    buffers: u64,
) -> Result<(), OutOfMemory> {
    let count = PadCount {
        pad: pad(alloc, element, "src")?,
        items,
        buffers,
    };
    pads.push(alloc, count)
}

fn push_sink(
    alloc: Global,
    sinks: &mut List<SinkCount>,
    name: &str,
    bytes: u64,
) -> Result<(), OutOfMemory> {
    let name = Text::from_str(alloc, name)?;
    sinks.push(alloc, SinkCount { name, bytes })
}

fn pads(alloc: Global) -> Result<List<PadCount>, OutOfMemory> {
    let mut pads = List::new(alloc);
    push_pad(alloc, &mut pads, "filesrc0", 9, 6)?;
    push_pad(alloc, &mut pads, "i", 8, 5)?;
    Ok(pads)
}

fn sinks(alloc: Global) -> Result<List<SinkCount>, OutOfMemory> {
    let mut sinks = List::new(alloc);
    push_sink(alloc, &mut sinks, "o", 3)?;
    push_sink(alloc, &mut sinks, "b", 0)?;
    Ok(sinks)
}

/// A report of a run that began.
fn crossed(alloc: Global) -> Result<Report, OutOfMemory> {
    Ok(Report {
        entries: entries(alloc)?,
        pads: pads(alloc)?,
        sinks: sinks(alloc)?,
        fault: Fault::Words,
    })
}

fn report(alloc: Global, case: &str) -> Result<Report, Fail> {
    if case == "crossed" {
        return Ok(crossed(alloc)?);
    }
    Ok(Report {
        entries: List::new(alloc),
        pads: List::new(alloc),
        sinks: List::new(alloc),
        fault: fault(alloc, case)?,
    })
}

/// The text of the report of a row, by its first line.
fn text_of(alloc: Global, head: &str) -> Result<Text, Fail> {
    let (status, rest) = head.split_once(' ').unwrap_or((head, ""));
    let (quiet, case) = rest.split_once(' ').unwrap_or((rest, ""));
    let report = report(alloc, case)?;
    Ok(report_text(
        alloc,
        status.parse().unwrap_or(255),
        quiet == "quiet",
        &report,
    )?)
}

#[test]
fn writes_rows(rt: HostRuntime) -> Result<(), Fail> {
    let alloc = rt.alloc();
    for row in ROWS.split("\n\n") {
        let (head, want) = row.split_once('\n').unwrap_or((row, ""));
        let text = text_of(alloc, head)?;
        assert!(rt; text.as_str().strip_suffix('\n') == Some(want), "at {head}");
    }
    Ok(())
}
