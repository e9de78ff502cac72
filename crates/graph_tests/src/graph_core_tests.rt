//! Rows of lines and their graphs.
use crate::lines::{same_text, sides_of};
use caps_text::print;
use graph_core::*;
use gst_value::PadName;
use launch_text::parse;
use pad_core::LinkReturn;
use std::alloc::Global;
use std::fmt::Write;
use std::test::Fail;

/// Each row: a line, and then its elements in the forward order with a star where they are live and the pads to which
/// their source pads are linked, or the fault.
const ROWS: &str = "\
filesrc location=a ! filesink location=b -> filesrc0*=filesink0.sink filesink0*
filesrc location=a ! nosuch -> NoSuch nosuch Kind
filesrc location=a what=1 ! nosuch -> NoSuch filesrc0 Property what
filesrc name=f blocksize=0 ! nosuch -> BadValue f blocksize
identity name=i.j -> BadValue i.j name
filesink -> BadValue filesink0 location
filesrc name=f location=a ! fakesink f. ! fakesink -> LinkRefused f.src fakesink1.sink -2
filesrc location=a ! fakesink filesink location=a -> LocationTaken a
filesink location=a filesrc location=a -> LocationTaken a
filesrc location=a ! filesink location=b filesrc location=a -> filesrc0*=filesink0.sink filesrc1* filesink0*
fakesink fakesink name=s fakesink fakesink name=fakesink3 -> fakesink0 s fakesink1 fakesink3
fakesink name=fakesink0 fakesink -> NameTaken fakesink0
fakesink fakesink name=fakesink0 location=a -> NoSuch fakesink0 Property location
( filesrc location=a ! ( identity ) ) -> BadLine
( filesrc location=a ( identity name=i ! fakesink ) ) filesrc0. ! i. -> filesrc0*=i.sink i*=fakesink0.sink fakesink0*
x. ! fakesink filesrc location=a name=x -> x*=fakesink0.sink fakesink0*
filesrc location=a ! y. -> NoSuch y Element
fakesink name=k k. ! fakesink -> NoSuch k SrcPad
filesrc location=a ! filesrc location=a -> NoSuch filesrc1 SinkPad
identity name=i i.src ! i.sink -> NoSuch i Order
identity name=i i.sink ! fakesink -> LinkRefused i.sink fakesink0.sink -3
identity name=i filesrc location=a ! i.src -> LinkRefused filesrc0.src i.src -3
identity name=i filesrc location=a ! i.other -> NoSuch i.other Pad
identity name=i i.src_0 ! fakesink -> NoSuch i.src_0 Pad
identity name=a ! identity name=b b. ! a. -> NoSuch b Order
capsfilter caps=audio/x-raw ! capsfilter caps=audio/x-wav -> LinkRefused capsfilter0.src capsfilter1.sink -4
capsfilter caps=audio/x-raw ! audio/x-wav;audio/x-raw ! fakesink -> capsfilter0=capsfilter1.sink capsfilter1=fakesink0.sink fakesink0
filesrc location=a ! audio/x-raw,rate= ! fakesink -> BadValue capsfilter0 caps
audioconvert -> audioconvert0[ANY]
filesrc location=a ! audioconvert ! audio/x-raw,rate=8000 ! fakesink -> filesrc0*=audioconvert0.sink audioconvert0*[audio/x-raw, rate=(int)8000]=capsfilter0.sink capsfilter0*=fakesink0.sink fakesink0*
audioconvert ! identity ! queue ! audio/x-raw,rate=8000 ! identity -> audioconvert0[audio/x-raw, rate=(int)8000]=identity0.sink identity0=queue0.sink queue0=capsfilter0.sink capsfilter0=identity1.sink identity1
audioconvert ! audio/x-raw,a=2;audio/x-raw,a=1 ! audio/x-raw,a=1;audio/x-raw,a=2;audio/x-raw,a=3 ! queue -> audioconvert0[audio/x-raw, a=(int)2; audio/x-raw, a=(int)1]=capsfilter0.sink capsfilter0=capsfilter1.sink capsfilter1=queue0.sink queue0
audioconvert ! audio/x-raw,a={1,2} ! audio/x-raw,a={2,3} ! audio/x-raw,a={1,3} ! queue -> audioconvert0[EMPTY]=capsfilter0.sink capsfilter0=capsfilter1.sink capsfilter1=capsfilter2.sink capsfilter2=queue0.sink queue0
audioconvert ! mulawenc -> audioconvert0[audio/x-raw, channels=(int)[ 1, 64 ], format=(string)S16LE, layout=(string)interleaved, rate=(int)[ 1, 768000 ]]=mulawenc0.sink mulawenc0
audioconvert ! audio/x-raw,rate=8000 ! audioconvert ! mulawenc ! wavenc -> audioconvert0[audio/x-raw, channels=(int)[ 1, 64 ], format=(string){ S8, U8, S16LE, S16BE, S24LE, S32LE }, layout=(string)interleaved, rate=(int)8000]=capsfilter0.sink capsfilter0=audioconvert1.sink audioconvert1[audio/x-raw, channels=(int)[ 1, 64 ], format=(string)S16LE, layout=(string)interleaved, rate=(int)[ 1, 768000 ]]=mulawenc0.sink mulawenc0=wavenc0.sink wavenc0
audioconvert ! wavenc -> audioconvert0[audio/x-raw, channels=(int)[ 1, 64 ], format=(string){ U8, S16LE, S24LE, S32LE }, layout=(string)interleaved, rate=(int)[ 1, 768000 ]; audio/x-mulaw, channels=(int)[ 1, 64 ], rate=(int)[ 1, 768000 ]; audio/x-alaw, channels=(int)[ 1, 64 ], rate=(int)[ 1, 768000 ]]=wavenc0.sink wavenc0
identity name=c queue name=q ! c. filesrc location=a ! q. -> filesrc0*=q.sink q*=c.sink c*
fakesink name=k filesrc location=a ! k. filesrc location=b ! k. -> LinkRefused filesrc1.src k.sink -2
tee -> tee0
filesrc location=a ! tee name=t ! fakesink t. ! fakesink -> filesrc0*=t.sink t*=fakesink0.sink=fakesink1.sink fakesink0* fakesink1*
tee name=t t.src_0 ! fakesink t.src_1 ! fakesink t. ! fakesink -> t=fakesink0.sink=fakesink1.sink=fakesink2.sink fakesink0 fakesink1 fakesink2
t. ! fakesink t.src_1 ! fakesink filesrc location=a ! tee name=t -> filesrc0*=t.sink t*=fakesink0.sink=fakesink1.sink fakesink0* fakesink1*
tee name=t t.src_5 ! fakesink -> NoSuch t.src_5 Pad
tee name=t t.src_1 ! fakesink -> NoSuch t.src_1 Pad
tee name=t ! fakesink t.src_01 ! fakesink -> NoSuch t.src_01 Pad
tee name=t t.src ! fakesink -> NoSuch t.src Pad
tee name=t t.sink ! fakesink -> LinkRefused t.sink fakesink0.sink -3
tee name=t filesrc location=a ! t.src_0 -> LinkRefused filesrc0.src t.src_0 -3
tee name=t ! fakesink t.src_0 ! fakesink -> LinkRefused t.src_0 fakesink1.sink -2
tee name=t filesrc location=a ! t. filesrc location=b ! t. -> LinkRefused filesrc1.src t.sink -2
filesrc location=a ! c. filesrc location=b ! c. concat name=c ! fakesink -> filesrc0*=c.sink_0 filesrc1*=c.sink_1 c*=fakesink0.sink fakesink0*
concat name=c queue ! c.sink_0 filesrc location=b ! c.sink_1 -> queue0=c.sink_0 filesrc0*=c.sink_1 c*
concat name=c ! fakesink c. ! fakesink -> LinkRefused c.src fakesink1.sink -2
concat name=c filesrc location=a ! c.sink_1 -> NoSuch c.sink_1 Pad
concat name=c filesrc location=a ! c. filesrc location=b ! c.sink_0 -> LinkRefused filesrc1.src c.sink_0 -2
concat name=c c.sink_0 ! fakesink -> LinkRefused c.sink_0 fakesink0.sink -3
interleave name=v ramptestsrc ! v. audioconvert ! v.sink_1 -> ramptestsrc0*=v.sink_0 audioconvert0[audio/x-raw, channels=(int)1, format=(string){ S8, U8, S16LE, S16BE, S24LE, S32LE }, layout=(string)interleaved, rate=(int)[ 1, 768000 ]]=v.sink_1 v*
interleave name=v wavenc ! v.sink_0 -> LinkRefused wavenc0.src v.sink_0 -4
interleave name=v ! fakesink v.sink ! fakesink -> NoSuch v.sink Pad
filesrc location=a ! tee name=t ! c. t. ! concat name=c ! fakesink t. ! c. -> filesrc0*=t.sink t*=c.sink_0=c.sink_1=c.sink_2 c*=fakesink0.sink fakesink0*
tee name=t ! concat name=c ! t. -> NoSuch c Order
tee name=t ! concat name=c t. ! queue ! c. c. ! identity ! t. -> NoSuch identity0 Order
audioconvert ! tee -> audioconvert0[ANY]=tee0.sink tee0
audioconvert ! concat ! audio/x-raw,rate=8000 ! fakesink -> audioconvert0[ANY]=concat0.sink_0 concat0=capsfilter0.sink capsfilter0=fakesink0.sink fakesink0
audioconvert ! tee name=t ! audio/x-raw,a={1,2} ! fakesink t. ! audio/x-raw,a={2,3} ! fakesink -> audioconvert0[audio/x-raw, a=(int)2]=t.sink t=capsfilter0.sink=capsfilter1.sink capsfilter0=fakesink0.sink fakesink0 capsfilter1=fakesink1.sink fakesink1
audioconvert ! tee name=t ! audio/x-raw,a=2;audio/x-raw,a=1 ! queue t. ! identity t. ! queue ! audio/x-raw,a=1;audio/x-raw,a=2 ! queue -> audioconvert0[audio/x-raw, a=(int)2; audio/x-raw, a=(int)1]=t.sink t=capsfilter0.sink=identity0.sink=queue1.sink capsfilter0=queue0.sink queue0 identity0 queue1=capsfilter1.sink capsfilter1=queue2.sink queue2
audioconvert ! audio/x-raw,b=1 ! tee name=t ! tee name=u ! audio/x-raw,a={1,2} ! queue t. ! mulawenc u. ! audio/x-raw,a={2,3} ! queue -> audioconvert0[audio/x-raw, a=(int)2, b=(int)1, channels=(int)[ 1, 64 ], format=(string)S16LE, layout=(string)interleaved, rate=(int)[ 1, 768000 ]]=capsfilter0.sink capsfilter0=t.sink t=u.sink=mulawenc0.sink u=capsfilter1.sink=capsfilter2.sink capsfilter1=queue0.sink queue0 mulawenc0 capsfilter2=queue1.sink queue1";

fn put_what(into: &mut String, what: &What) -> Result<(), Fail> {
    match what {
        What::Kind => into.push_str("Kind")?,
        What::Property(name) => write!(into, "Property {}", name.as_str())?,
        What::Element => into.push_str("Element")?,
        What::Pad => into.push_str("Pad")?,
        What::SrcPad => into.push_str("SrcPad")?,
        What::SinkPad => into.push_str("SinkPad")?,
        What::Order => into.push_str("Order")?,
    }
    Ok(())
}

fn put_pad(into: &mut String, name: &PadName) -> Result<(), Fail> {
    write!(into, "{}.{}", name.element.as_str(), name.pad.as_str())?;
    Ok(())
}

fn put_link_fault(
    into: &mut String,
    a: &PadName,
    b: &PadName,
    ret: LinkReturn,
) -> Result<(), Fail> {
    into.push_str("LinkRefused ")?;
    put_pad(into, a)?;
    into.push(' ')?;
    put_pad(into, b)?;
    write!(into, " {}", ret.code())?;
    Ok(())
}

fn put_fault(into: &mut String, fault: &BuildFault) -> Result<(), Fail> {
    match fault {
        BuildFault::NoSuch { name, what } => {
            write!(into, "NoSuch {} ", name.as_str())?;
            put_what(into, what)?;
        }
        BuildFault::BadValue { name, property } => {
            write!(into, "BadValue {} {}", name.as_str(), property.as_str())?;
        }
        BuildFault::NameTaken { name } => write!(into, "NameTaken {}", name.as_str())?,
        BuildFault::LocationTaken { location } => {
            write!(into, "LocationTaken {}", location.as_str())?;
        }
        BuildFault::TooMany { count } => write!(into, "TooMany {count}")?,
        BuildFault::LinkRefused { a, b, ret } => put_link_fault(into, a, b, *ret)?,
        BuildFault::OutOfMemory => into.push_str("OutOfMemory")?,
    }
    Ok(())
}

fn put_element(alloc: Global, into: &mut String, graph: &Graph, element: u32) -> Result<(), Fail> {
    let Some(name) = graph.name(element) else {
        return Err("an element")?;
    };
    into.push_str(name)?;
    if graph.live(element) {
        into.push('*')?;
    }
    put_allowed(alloc, into, graph, element)?;
    for pad in 0..graph.source_pads(element) {
        put_link(alloc, into, graph, PadPlace { element, pad })?;
    }
    Ok(())
}

/// The pad to which a source pad is linked.
fn put_link(alloc: Global, into: &mut String, graph: &Graph, source: PadPlace) -> Result<(), Fail> {
    let Some(sink) = graph.sink_behind(source) else {
        return Ok(());
    };
    let Some(name) = graph.sink_name(alloc, sink)? else {
        return Err("a sink")?;
    };
    into.push('=')?;
    put_pad(into, &name)
}

/// What a converter is set to put out, which is what its source pad is allowed.
fn put_allowed(alloc: Global, into: &mut String, graph: &Graph, element: u32) -> Result<(), Fail> {
    if graph.source_pads(element) == 0 || element >= graph.count() {
        return Ok(());
    }
    let Some(caps) = graph.settings(element).allowed() else {
        return Ok(());
    };
    let set = print(alloc, caps)?;
    let allowed = graph.allowed(alloc, PadPlace { element, pad: 0 })?;
    write!(into, "[{}]", set.as_str())?;
    if set.as_str() != print(alloc, &allowed)?.as_str() {
        into.push_str("!")?;
    }
    Ok(())
}

fn put_graph(alloc: Global, into: &mut String, graph: &Graph) -> Result<(), Fail> {
    for element in graph.forward() {
        if !into.is_empty() {
            into.push(' ')?;
        }
        put_element(alloc, into, graph, *element)?;
    }
    Ok(())
}

fn told(alloc: Global, line: &str) -> Result<String, Fail> {
    let mut text = String::new(alloc);
    match parse(alloc, line) {
        Ok(tree) => match build(alloc, &tree) {
            Ok(graph) => put_graph(alloc, &mut text, &graph)?,
            Err(fault) => put_fault(&mut text, &fault)?,
        },
        Err(_) => text.push_str("BadLine")?,
    }
    Ok(text)
}

/// A line of so many sinks.
fn sinks(alloc: Global, count: u32) -> Result<String, Fail> {
    let mut line = String::new(alloc);
    for _ in 0..count {
        line.push_str("fakesink ")?;
    }
    Ok(line)
}

/// Puts the caps of raw audio that has this field, with the numbers from 0 on.
fn put_numbered(line: &mut String, field: &str, count: u32) -> Result<(), Fail> {
    for number in 0..count {
        write!(line, "audio/x-raw,{field}={number};")?;
    }
    Ok(())
}

/// A line of an element of this name that is linked so many times, and of what stands behind it.
fn fan(alloc: Global, element: &str, count: u32, link: &str, behind: &str) -> Result<String, Fail> {
    let mut line = String::new(alloc);
    line.push_str(element)?;
    for _ in 0..count {
        write!(line, " {link}")?;
    }
    line.push_str(behind)?;
    Ok(line)
}

/// A line of an element and two filters. So many times eight structures are in both.
fn filters(alloc: Global, first: &str, count: u32, behind: &str) -> Result<String, Fail> {
    let mut line = String::new(alloc);
    write!(line, "{first} ! ")?;
    put_numbered(&mut line, "a", count)?;
    line.push_str("audio/x-wav ! ")?;
    put_numbered(&mut line, "b", 8)?;
    write!(line, "audio/x-mulaw ! {behind}")?;
    Ok(line)
}

/// A line of a converter and a tee with two filters behind it. So many times eight structures are in both.
fn branches(alloc: Global, count: u32) -> Result<String, Fail> {
    let mut line = String::new(alloc);
    line.push_str("audioconvert ! tee name=t ! ")?;
    put_numbered(&mut line, "a", count)?;
    line.push_str("audio/x-wav ! fakesink t. ! ")?;
    put_numbered(&mut line, "b", 8)?;
    line.push_str("audio/x-mulaw ! fakesink")?;
    Ok(line)
}

/// Each row: how a long line is made, with bars between its parts, and what is told of it.
const LONG: &str = "\
filters|audioconvert|8|fakesink -> audioconvert0[audio/x-raw, a=(int)0, b=(int)0;..
filters|audioconvert|9|fakesink -> TooMany 65
filters|audioconvert|9|k. -> NoSuch k Element
filters|identity|9|fakesink -> identity0=capsfilter0.sink..
branches||9 -> TooMany 65
branches||8 -> audioconvert0[audio/x-raw, a=(int)0, b=(int)0;..
fan|tee name=t|64|t. ! fakesink -> t=fakesink0.sink=fakesink1.sink=..
fan|tee name=t|65|t. ! fakesink -> TooMany 65
fan|tee name=t|64|t. ! fakesink| t.src_64 ! fakesink  -> TooMany 65
fan|concat name=c|64|queue ! c. -> .. queue63=c.sink_63 c
fan|concat name=c|65|queue ! c. -> TooMany 65
sinks||256 -> .. fakesink255
sinks||257 -> TooMany 257";

/// The line that is made of the parts of a row.
fn line_by(alloc: Global, row: &str) -> Result<String, Fail> {
    let mut parts = row.split('|');
    let kind = parts.next().unwrap_or("");
    let first = parts.next().unwrap_or("");
    let count = parts.next().unwrap_or("").parse().unwrap_or(0);
    let link = parts.next().unwrap_or("");
    match kind {
        "filters" => filters(alloc, first, count, link),
        "branches" => branches(alloc, count),
        "sinks" => sinks(alloc, count),
        _ => fan(alloc, first, count, link, parts.next().unwrap_or("")),
    }
}

/// Converters with too many caps, pads of 64 links, and lines of many elements.
#[test]
fn long_lines(rt: HostRuntime) -> Result<(), Fail> {
    let alloc = rt.alloc();
    for row in LONG.lines() {
        let (given, wanted) = sides_of(row);
        let line = line_by(alloc, given)?;
        same_text(
            &rt,
            told(alloc, line.as_str())?.as_str(),
            wanted.trim_start(),
        );
    }
    Ok(())
}

#[test]
fn rows(rt: HostRuntime) -> Result<(), Fail> {
    let alloc = rt.alloc();
    for row in ROWS.lines() {
        let (line, wanted) = sides_of(row);
        same_text(&rt, told(alloc, line)?.as_str(), wanted.trim_start());
    }
    Ok(())
}
