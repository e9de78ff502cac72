//! Rows of lines and the bags of their graphs.
use crate::lines::{graph_of, same_text, sides_of};
use graph_core::Graph;
use graph_parts::*;
use std::alloc::Global;
use std::fmt::Write;
use std::test::Fail;

/// Each row: a line, and then its bags. A source stands before a colon, and an element that is fed from inlets before a
/// bar; then the elements in the order in which their pads are tried. Behind each is where its pads lead; of an element of
/// several sink pads the number of the pad stands behind a comma.
const ROWS: &str = "\
fakesink ->
filesrc location=a -> [filesrc0.:]
filesrc location=a ! filesink location=b -> [filesrc0>filesink0: filesink0]
filesrc location=a ! identity ! capsfilter caps=a/b ! identity -> [filesrc0>identity0: identity1. capsfilter0>identity1 identity0>capsfilter0]
filesrc location=a ! queue ! identity ! queue ! queue ! fakesink -> [filesrc0|queue0:] [queue0| identity0|queue1 queue0>identity0] [queue1| queue1|queue2] [queue2| fakesink0 queue2>fakesink0]
queue ! fakesink filesrc location=a ! identity -> [queue0| fakesink0 queue0>fakesink0] [filesrc0>identity0: identity0.]
identity ! fakesink filesrc location=a -> [filesrc0.:]
identity name=i ! fakesink queue name=q ! i. filesrc location=a ! q. -> [q| fakesink0 i>fakesink0 q>i] [filesrc0|q:]
identity ! queue ! identity -> [queue0| identity1. queue0>identity1]
tee ->
filesrc location=a ! tee name=t ! filesink location=b t. ! fakesink -> [filesrc0>t: filesink0 fakesink0 t>filesink0>fakesink0]
filesrc location=a ! tee name=t ! queue ! fakesink t. ! identity -> [filesrc0>t: identity0. t|queue0>identity0] [queue0| fakesink0 queue0>fakesink0]
filesrc location=a ! tee name=t ! fakesink t. ! tee name=u ! fakesink u. ! queue -> [filesrc0>t: fakesink0 fakesink1 u>fakesink1|queue0 t>fakesink0>u] [queue0| queue0.]
filesrc location=a ! tee name=t ! concat name=c ! fakesink t. ! identity ! c. -> [filesrc0>t: identity0|c,1 t|c,0>identity0] [c| fakesink0 c>fakesink0]
concat name=c ! fakesink filesrc location=a ! c. filesrc location=b ! queue ! c. -> [c| fakesink0 c>fakesink0] [filesrc0|c,0:] [filesrc1|queue0:] [queue0| queue0|c,1]
concat name=c filesrc location=a ! interleave name=v ! c. ramptestsrc ! v. -> [c| c.] [filesrc0|v,0:] [v| v|c] [ramptestsrc0|v,1:]
concat name=c identity ! c. -> [c| c.]";

fn put_name(into: &mut String, graph: &Graph, element: u32) -> Result<(), Fail> {
    let Some(name) = graph.name(element) else {
        return Err("an element that is not there")?;
    };
    into.push_str(name)?;
    Ok(())
}

fn put_pad(into: &mut String, graph: &Graph, pad: BagPad) -> Result<(), Fail> {
    match pad.leads {
        BagLink::Nothing => into.push('.')?,
        BagLink::Element { element, .. } => {
            into.push('>')?;
            put_name(into, graph, element)?;
        }
        BagLink::Lane { element, pad } => {
            into.push('|')?;
            put_name(into, graph, element)?;
            if graph.sink_pads(element) > 1 {
                write!(into, ",{pad}")?;
            }
        }
    }
    Ok(())
}

fn put_element(into: &mut String, graph: &Graph, own: &BagElement) -> Result<(), Fail> {
    put_name(into, graph, own.element)?;
    for pad in own.pads.as_slice() {
        put_pad(into, graph, *pad)?;
    }
    Ok(())
}

fn put_head(into: &mut String, graph: &Graph, head: &BagHead) -> Result<(), Fail> {
    match head {
        BagHead::Source(own) => {
            put_element(into, graph, own)?;
            into.push(':')?;
        }
        BagHead::Inlets(element) => {
            put_name(into, graph, *element)?;
            into.push('|')?;
        }
    }
    Ok(())
}

fn put_bag(into: &mut String, graph: &Graph, bag: &Bag) -> Result<(), Fail> {
    into.push_str(" [")?;
    put_head(into, graph, &bag.head)?;
    for own in bag.elements.as_slice() {
        into.push(' ')?;
        put_element(into, graph, own)?;
    }
    into.push(']')?;
    Ok(())
}

/// The bags of the graph of a line.
fn row_of(alloc: Global, line: &str) -> Result<String, Fail> {
    let graph = graph_of(alloc, line)?;
    let mut row = String::new(alloc);
    for bag in bags_of(alloc, &graph)?.as_slice() {
        put_bag(&mut row, &graph, bag)?;
    }
    Ok(row)
}

#[test]
fn bags_of_lines(rt: HostRuntime) -> Result<(), Fail> {
    let alloc = rt.alloc();
    for row in ROWS.lines() {
        let (line, bags) = sides_of(row);
        same_text(&rt, row_of(alloc, line)?.as_str(), bags);
    }
    Ok(())
}
