//! Rows of lines and commands, and what the commands make of their graphs.
use graph_core::{BuildFault, PadPlace, build};
use graph_edits::*;
use graph_pads::Direction;
use gst_value::{List, PadName, Prop};
use launch_text::parse as parse_line;
use script_text::{Act, Acts, Command, When, parse as parse_script};
use std::alloc::Global;
use std::fmt::Write;
use std::test::Fail;

/// Each row: a line; commands with bars between them; and behind an arrow a word for what came of each, and then the elements
/// in the forward order. These stand by their numbers, with a star where they are active, a minus where they were removed, and
/// the pads to which their source pads are linked.
const ROWS: &str = "\
filesrc name=f location=a ! filesink name=b location=b | -> / 0*>1.0 1*
filesrc name=f location=a ! filesink name=b location=b identity name=i | now f.src relink i.sink | now f.src relink b.sink -> done done / 0*>1.0 1* 2*
filesrc name=f location=a ! filesink name=b location=b identity name=i | now f.src relink i.sink -> done / 0*>2.0 1* 2*
filesrc name=f location=a ! filesink name=b location=b | now f.src relink b.sink | now f.src unlink | now f.src unlink | now f.src relink b.sink -> WasLinked done NoSuch done / 0*>1.0 1*
filesrc name=f location=a ! filesink name=b location=b | now f.src unlink eos | now f.src relink b.sink -> done AfterEos / 0* 1*
filesrc name=f location=a ! fakesink name=b fakesink name=c | now f.src unlink eos | now f.src relink c.sink | now f.src unlink | now f.src relink b.sink | now f.src relink c.sink -> done done done AfterEos done / 0*>2.0 1* 2*
filesrc name=f location=a ! identity name=a ! identity name=b ! filesink name=p location=p | now f.src relink p.sink | now b.src unlink | now f.src relink p.sink | now b.src relink a.sink | now a.src relink p.sink -> WasLinked done done WouldLoop WasLinked / 0*>3.0 1*>2.0 2* 3*
filesrc name=f location=a ! identity name=a ! identity name=b ! filesink name=p location=p | now a.src unlink | now f.src unlink | now b.src relink a.sink -> done done WouldLoop / 0* 1* 2*>3.0 3*
identity name=a identity name=b | now b.src relink a.sink | now a.src relink b.sink | now b.src unlink | now a.src relink a.sink -> done WouldLoop done WouldLoop / 1* 0*
filesrc location=a ! filesink name=b location=b | now add filesink name=c location=b | now add filesrc name=c location=b | now add filesrc name=c location=a -> LocationTaken LocationTaken done / 0*>1.0 1* 2
filesrc name=f location=a ! fakesink name=b | now add fakesink name=b | now add fakesink name=f | now add nosuch name=b | now add fakesink name=c -> NameTaken NameTaken NoSuch done / 0*>1.0 1* 2
fakesink | now add filesrc name=c location=a blocksize=0 | now add filesrc name=c blocksize=0 what=1 | now add filesink name=c | now add fakesink name=c.d -> BadValue NoSuch BadValue BadValue / 0*
fakesink name=k | now add concat name=c | now add interleave name=c | now add tee name=c | now c.src_0 relink k.sink | now add concat name=c -> NotPlain NotPlain done NoSuch NameTaken / 0* 1
filesrc name=f location=a ! fakesink name=b | now remove b | now remove f | now remove c | now add queue name=q | now remove q | now f.src relink q.sink | now remove q | now add fakesink name=q -> WasLinked WasLinked NoSuch done done NoSuch NoSuch NameTaken / 0*>1.0 1* 2-
filesrc name=f location=a ! fakesink name=b | now add filesink name=c location=c | now f.src unlink | now remove b | now remove c | now f.src relink b.sink | now add filesink name=d location=c -> done done done done NoSuch LocationTaken / 0* 1*- 2-
filesrc name=f location=a ! fakesink name=b | now add queue name=q | now add fakesink name=c | now f.src relink q.sink | now q.src relink b.sink | now q.src relink c.sink -> done done done done done / 0*>2.0 2*>3.0 1* 3*
fakesink name=b | now b.src unlink | now b.sink unlink | now x.src unlink | now b.src relink b.sink | now x.src remove b -> BadScript
fakesink name=b | now b.src unlink | now b.sink unlink | now x.src unlink | now b.src relink b.sink -> NoSuch NoSuch NoSuch NoSuch / 0*
ramptestsrc name=r ! fakesink name=b mulawdec name=d alawdec name=e mulawenc name=m | now r.src relink d.sink | now m.src relink e.sink | now m.src relink d.sink | now r.src relink m.sink -> NoFormat NoFormat done done / 0*>4.0 3* 1* 4*>2.0 2*";

/// Why a new element is not made, as a word.
fn unmade(fault: BuildFault) -> Result<&'static str, Fail> {
    match fault {
        BuildFault::NoSuch { .. } => Ok("Missing"),
        BuildFault::BadValue { .. } => Ok("BadValue"),
        BuildFault::NameTaken { .. } => Ok("NameTaken"),
        BuildFault::LocationTaken { .. } => Ok("LocationTaken"),
        BuildFault::TooMany { .. } => Ok("TooMany"),
        BuildFault::LinkRefused { .. } => Ok("LinkRefused"),
        BuildFault::OutOfMemory => Err("no memory")?,
    }
}

/// What comes of a link from the source pad of a place to a sink pad, as a word.
fn relink(
    alloc: Global,
    graph: &mut EditedGraph,
    when: &When,
    sink: &PadName,
) -> Result<&'static str, Fail> {
    let source = graph.source(alloc, when)?.ok_or("a source pad")?;
    let sink = graph
        .pad(alloc, Direction::Sink, sink)?
        .ok_or("a sink pad")?;
    if graph.is_ended(sink) {
        return Ok("AfterEos");
    }
    if graph.is_taken(sink) {
        return Ok("WasLinked");
    }
    if graph.loops(alloc, source, sink)? {
        return Ok("WouldLoop");
    }
    if !graph.have_format(alloc, source, sink)? {
        return Ok("NoFormat");
    }
    graph.unlink(source, false);
    match graph.link(alloc, source, sink)? {
        Linking::Linked => Ok("done"),
        Linking::Loops => Ok("Loops"),
    }
}

/// What comes of an element that is asked for, as a word.
fn add(
    alloc: Global,
    graph: &mut EditedGraph,
    kind: &str,
    props: &List<Prop>,
) -> Result<&'static str, Fail> {
    match graph.add(alloc, kind, props) {
        Ok(Adding::Added { .. }) => Ok("done"),
        Ok(Adding::NotPlain) => Ok("NotPlain"),
        Err(fault) => unmade(fault),
    }
}

/// What comes of an element of this name that is to be removed, as a word.
fn remove(graph: &mut EditedGraph, name: &str) -> Result<&'static str, Fail> {
    let element = graph.find(name).ok_or("an element")?;
    if graph.has_link(element) {
        return Ok("WasLinked");
    }
    graph.remove(element);
    Ok("done")
}

/// What comes of a command, as a word.
fn done(alloc: Global, graph: &mut EditedGraph, command: &Command) -> Result<&'static str, Fail> {
    if !graph.has_all(alloc, command)? {
        return Ok("NoSuch");
    }
    match &command.act {
        Act::Relink { sink } => relink(alloc, graph, &command.when, sink),
        Act::Unlink { eos } => {
            let source = graph.source(alloc, &command.when)?.ok_or("a source pad")?;
            graph.unlink(source, *eos);
            Ok("done")
        }
        Act::Add { kind, props } => add(alloc, graph, kind.as_str(), props),
        Act::Remove { element } => remove(graph, element.as_str()),
    }
}

fn put_element(into: &mut String, graph: &EditedGraph, element: u32) -> Result<(), Fail> {
    write!(into, " {element}")?;
    if graph.is_active(element) {
        into.push('*')?;
    }
    if !graph.is_there(element) {
        into.push('-')?;
    }
    for pad in 0..2 {
        if let Some(sink) = graph.sink_behind(PadPlace { element, pad }) {
            write!(into, ">{}.{}", sink.element, sink.pad)?;
        }
    }
    Ok(())
}

/// The graph of a line to which nothing was done yet.
fn unedited(alloc: Global, line: &str) -> Result<EditedGraph, Fail> {
    let tree = parse_line(alloc, line)?;
    match build(alloc, &tree) {
        Ok(graph) => Ok(EditedGraph::new(alloc, graph)?),
        Err(_) => Err("a line without a graph")?,
    }
}

/// The commands of a script, with line ends for its bars.
fn commands_of(alloc: Global, script: &str) -> Result<Option<List<Command>>, Fail> {
    let mut text = String::new(alloc);
    for line in script.split('|') {
        text.push_str(line)?;
        text.push('\n')?;
    }
    match parse_script(alloc, Acts::ALL, text.as_str()) {
        Ok(commands) => Ok(Some(commands)),
        Err(_) => Ok(None),
    }
}

/// What comes of the commands of a script, with a line's graph behind them.
fn told(alloc: Global, line: &str, script: &str) -> Result<String, Fail> {
    let mut text = String::new(alloc);
    let Some(commands) = commands_of(alloc, script)? else {
        text.push_str(" BadScript")?;
        return Ok(text);
    };
    let mut graph = unedited(alloc, line)?;
    for command in commands.as_slice() {
        write!(text, " {}", done(alloc, &mut graph, command)?)?;
    }
    text.push_str(" /")?;
    for element in graph.forward() {
        put_element(&mut text, &graph, *element)?;
    }
    Ok(text)
}

#[test]
fn rows_of_commands(rt: HostRuntime) -> Result<(), Fail> {
    let alloc = rt.alloc();
    for row in ROWS.lines() {
        let (asked, wanted) = row.split_once(" ->").ok_or("an arrow")?;
        let (line, script) = asked.split_once(" |").ok_or("a bar")?;
        let answer = told(alloc, line, script)?;
        assert!(rt; answer.as_str() == wanted, "{row}: {answer}");
    }
    Ok(())
}
