//! Control's acts on tasks, and where their pads lead then.
ghost use Rattle.std.specs.Prelude.{◌≡◌, IfOk};
ghost use Rattle.el_set.specs.Gives.{source_items};

use el_set::{SinkElement, SourceElement, sink_of, source_of};
use el_settings::{FileSinkSettings, FileSrcSettings, Settings};
use flow_model::{TaskElement, TaskSource};
use gst_outside::{MemSink, MemSource, Sink, Source};
use gst_value::{List, Text};
use lane_core::{Inlet, MemInlet, MemLanes, MemOutlet, Outlet, memory_lane};
use net_task::Task;
use pad_core::Probe;
use std::alloc::Global;
use std::fmt::Write;
use std::test::Fail;
use task_edits::{NewLane, has_pad, link_over};
use task_elements::{StreamElement, StreamSource};
use task_pads::{Behind, Pad};
use task_parts::{Head, Part, SourceHead};

/// Each row: acts on tasks, each with the number of a pad, and then what came of them, and the pads of the sources, in order,
/// each with its number and where it leads.
const ACTS: &str = "\
probe.0 -> true / 0>1,0,0 64>1,0,0 128>1,0,0
probe.7 free.7 unlink.7 -> false false None / 0>1,0,0 64>1,0,0 128>1,0,0
unlink.0 -> >1,0,0 / 0. 64>1,0,0 128>1,0,0
unlink.64 probe.64 free.64 -> >1,0,0 true true / 0>1,0,0 64. 128>1,0,0
free.128 unlink.128 unlink.128 unlink.0 -> true >1,0,0 . >1,0,0 / 0. 64>1,0,0 128.";

fn put_behind<O: Outlet>(into: &mut String, behind: &Behind<O>) -> Result<(), Fail> {
    match behind {
        Behind::Nothing => into.push('.')?,
        Behind::Element { number, hint, pad } => write!(into, ">{number},{hint},{pad}")?,
        Behind::Lane {
            lane,
            element,
            pad,
            from,
            ..
        } => write!(into, "|{lane},{element},{pad},{from}")?,
    }
    Ok(())
}

/// The pad of the source of a task, and where it leads.
fn put_task<S: TaskSource, E: TaskElement, I: Inlet<Out = O>, O: Outlet<Lanes = I::Lanes>>(
    into: &mut String,
    task: &Task<S, E, I, O>,
) -> Result<(), Fail> {
    match task.head() {
        Head::Source(head) => {
            write!(into, " {}", head.pad().number())?;
            put_behind(into, head.pad().behind())
        }
        Head::Inlets(_) => Err("inlets")?,
    }
}

/// A task of a source of number 0 with this pad, which leads to the sink of number 1.
fn task_of<S: Source, K: Sink, I: Inlet<Out = O>, O: Outlet<Lanes = I::Lanes>>(
    alloc: Global,
    number: u32,
    source: SourceElement<S>,
    sink: SinkElement<K>,
) -> Result<Task<StreamSource<S>, StreamElement<K>, I, O>, Fail>
    requires fresh { source_items source ≡ 0 }
{
    let behind = Behind::Element {
        number: 1,
        hint: 0,
        pad: 0,
    };
    let pad = Pad::new(alloc, number, behind);
    let head = SourceHead::new(0, StreamSource::new(source), pad);
    let sink = Part::new(alloc, 1, StreamElement::Sink(sink), Vec::new(alloc));
    let mut parts = Vec::new(alloc);
    parts.push(sink)?;
    Ok(Task::new(Head::Source(head), parts))
}

/// A source that reads a file, two bytes at once.
fn source_with<S: Source>(alloc: Global, input: S) -> Result<SourceElement<S>, Fail>
    ensures { IfOk result (λ source. source_items source ≡ 0) }
{
    let reading = Settings::FileSrc(FileSrcSettings {
        location: Text::from_str(alloc, "a")?,
        blocksize: 2,
    });
    match source_of(&reading, None, Some(input), 0) {
        Some(source) => Ok(source),
        None => Err("no source")?,
    }
}

/// A sink that writes a file.
fn sink_with<K: Sink>(alloc: Global, output: K) -> Result<SinkElement<K>, Fail> {
    let writing = Settings::FileSink(FileSinkSettings {
        location: Text::from_str(alloc, "x")?,
        keep_flushed: false,
    });
    match sink_of(&writing, Some(output)) {
        Some(sink) => Ok(sink),
        None => Err("no sink")?,
    }
}

/// A file of six bytes that is read.
fn input(alloc: Global) -> Result<MemSource, Fail> {
    let mut bytes = List::new(alloc);
    for byte in b"sixsix" {
        bytes.push(alloc, *byte)?;
    }
    let location = Text::from_str(alloc, "a")?;
    Ok(MemSource::new(location, bytes, List::new(alloc), List::new(alloc)))
}

/// A file that is written, with room for eight bytes.
fn output(alloc: Global) -> Result<MemSink, Fail> {
    let location = Text::from_str(alloc, "x")?;
    let file = MemSink::new(alloc, location, 8, List::new(alloc), List::new(alloc))?;
    Ok(file)
}

/// A task with files in memory.
fn task_in(
    alloc: Global,
    number: u32,
) -> Result<Task<StreamSource<MemSource>, StreamElement<MemSink>, MemInlet, MemOutlet>, Fail> {
    let source = source_with(alloc, input(alloc)?)?;
    let sink = sink_with(alloc, output(alloc)?)?;
    task_of(alloc, number, source, sink)
}

/// Three tasks, with files in memory.
fn tasks_in(
    alloc: Global,
) -> Result<Vec<Task<StreamSource<MemSource>, StreamElement<MemSink>, MemInlet, MemOutlet>>, Fail> {
    let mut tasks = Vec::new(alloc);
    tasks.push(task_in(alloc, 0)?)?;
    tasks.push(task_in(alloc, 64)?)?;
    tasks.push(task_in(alloc, 128)?)?;
    Ok(tasks)
}

fn pad_of(name: &str) -> u32 {
    match name {
        "0" => 0,
        "64" => 64,
        "128" => 128,
        _ => 7,
    }
}

/// What comes of an act on the pad of a number.
fn put_act<S: TaskSource, E: TaskElement, I: Inlet<Out = O>, O: Outlet<Lanes = I::Lanes>>(
    into: &mut String,
    tasks: &mut Vec<Task<S, E, I, O>>,
    act: &str,
    pad: u32,
) -> Result<(), Fail> {
    match act {
        "probe" => {
            let probe = Probe {
                command: 5,
                buffers: 1,
            };
            write!(into, "{} ", net_edits::set_probe(tasks, pad, Some(probe)))?;
        }
        "free" => write!(into, "{} ", net_edits::set_probe(tasks, pad, None))?,
        "unlink" => {
            match net_edits::unlink(tasks, pad) {
                Some(back) => put_behind(into, &back)?,
                None => into.push_str("None")?,
            }
            into.push(' ')?;
        }
        _ => Err("an act")?,
    }
    Ok(())
}

/// What comes of acts on tasks, and where the pads of their sources lead then.
fn told<S: TaskSource, E: TaskElement, I: Inlet<Out = O>, O: Outlet<Lanes = I::Lanes>>(
    alloc: Global,
    tasks: &mut Vec<Task<S, E, I, O>>,
    acts: &str,
) -> Result<String, Fail> {
    let mut text = String::new(alloc);
    for word in acts.split_whitespace() {
        let (act, pad) = word.split_once('.').ok_or("a point")?;
        put_act(&mut text, tasks, act, pad_of(pad))?;
    }
    text.push('/')?;
    for task in tasks.iter() {
        put_task(&mut text, task)?;
    }
    Ok(text)
}

#[test]
fn acts_on_tasks(rt: HostRuntime) -> Result<(), Fail> {
    let alloc = rt.alloc();
    for row in ACTS.lines() {
        let (acts, wanted) = row.split_once(" -> ").ok_or("an arrow")?;
        let mut tasks = tasks_in(alloc)?;
        let answer = told(alloc, &mut tasks, acts)?;
        assert!(rt; answer.as_str() == wanted, "{row}: {answer}");
    }
    Ok(())
}

/// Where the pad of a number leads that is linked over a lane, and where it led before.
fn over<S: TaskSource, E: TaskElement, I: Inlet<Out = O>, O: Outlet<Lanes = I::Lanes>>(
    alloc: Global,
    task: Task<S, E, I, O>,
    pad: u32,
    outlet: O,
) -> Result<String, Fail> {
    let mut text = String::new(alloc);
    let lane = NewLane {
        lane: 3,
        element: 2,
        pad: 1,
        from: 0,
        outlet,
    };
    let there = has_pad(&task, pad);
    let (task, back) = link_over(task, pad, lane);
    write!(text, "{there} ")?;
    put_behind(&mut text, &back)?;
    put_task(&mut text, &task)?;
    Ok(text)
}

#[test]
fn a_link_over_a_lane(rt: HostRuntime) -> Result<(), Fail> {
    let alloc = rt.alloc();
    let mut lanes = MemLanes::new(alloc);
    let (outlet, _) = memory_lane(alloc, &mut lanes, 4)?;
    let told = over(alloc, task_in(alloc, 64)?, 64, outlet)?;
    assert_eq!(rt; told.as_str(), "true >1,0,0 64|3,2,1,0");
    let (outlet, _) = memory_lane(alloc, &mut lanes, 4)?;
    let told = over(alloc, task_in(alloc, 64)?, 65, outlet)?;
    assert_eq!(rt; told.as_str(), "false |3,2,1,0 64>1,0,0");
    Ok(())
}
