//! Rows of lines and the tasks of their graphs, without their elements.
use crate::lines::{graph_of, same_text, sides_of};
use graph_tasks::*;
use lane_core::{Inlet, Outlet};
use std::alloc::Global;
use std::fmt::Write;
use std::test::Fail;
use task_pads::{Behind, Pad};

/// Each row: a line, and then its tasks. A source stands before a colon with its pad; an element that is fed from inlets
/// stands before a bar, with its hint and the number of its rows; then the elements with their pads. A pad has its
/// number, and where it leads: `>` to an element, its hint and its pad, `|` over the lane of a number to an element and its pad.
const ROWS: &str = "\
fakesink ->
filesrc location=a -> [0 0.:]
filesrc location=a ! filesink location=b -> [0 0>1,0,0: 1]
filesrc location=a ! identity ! capsfilter caps=a/b ! identity -> [0 0>1,2,0: 3 192. 2 128>3,0,0 1 64>2,1,0]
filesrc location=a ! queue ! identity ! queue ! queue ! fakesink -> [0 0|64,1,0,0:] [1,1,1| 2 128|192,3,0,0 1 64>2,0,0] [3,0,1| 3 192|256,4,0,0] [4,1,1| 5 4 256>5,0,0]
identity ! queue ! identity -> [1,1,1| 2 128. 1 64>2,0,0]
queue name=b ! fakesink filesrc location=a ! queue name=a ! b. -> [0,1,1| 1 0 0>1,0,0] [2 128|192,3,0,0:] [3,0,1| 3 192|0,0,0,0]
filesrc location=a ! tee name=t ! filesink location=b t. ! fakesink -> [0 0>1,2,0: 2 3 1 64>2,0,0 65>3,1,0]
filesrc location=a ! tee name=t ! fakesink t. ! tee name=u ! fakesink u. ! queue -> [0 0>1,3,0: 2 4 3 192>4,1,0 193|320,5,0,0 1 64>2,0,0 65>3,2,0] [5,0,1| 5 320.]
filesrc location=a ! tee name=t ! concat name=c ! fakesink t. ! identity ! c. -> [0 0>1,1,0: 4 256|129,2,1,0 1 64|128,2,0,0 65>4,0,0] [2,1,2| 3 2 128>3,0,0]
concat name=c ! fakesink filesrc location=a ! c. filesrc location=b ! queue ! c. -> [0,1,2| 1 0 0>1,0,0] [2 128|0,0,0,0:] [3 192|256,4,0,0:] [4,0,1| 4 256|1,0,1,0]
concat name=c filesrc location=a ! interleave name=v ! c. ramptestsrc ! v. -> [0,0,1| 0 0.] [1 64|128,2,0,0:] [2,0,2| 2 128|0,0,0,0] [3 192|129,2,1,0:]
concat ! fakesink -> [0,1,0| 1 0 0>1,0,0]";

fn put_behind<O: Outlet>(into: &mut String, behind: &Behind<O>) -> Result<(), Fail> {
    match behind {
        Behind::Nothing => into.push('.')?,
        Behind::Element { number, hint, pad } => write!(into, ">{number},{hint},{pad}")?,
        Behind::Lane {
            lane,
            element,
            pad,
            from,
            ..
        } => write!(into, "|{lane},{element},{pad},{from}")?,
    }
    Ok(())
}

fn put_pad<O: Outlet>(into: &mut String, pad: &Pad<O>) -> Result<(), Fail> {
    write!(into, " {}", pad.number())?;
    put_behind(into, pad.behind())
}

fn put_head<I: Inlet<Out = O>, O: Outlet<Lanes = I::Lanes>>(
    into: &mut String,
    head: &WiredHead<I, O>,
) -> Result<(), Fail> {
    match head {
        WiredHead::Source { number, pad } => {
            write!(into, "{number}")?;
            put_pad(into, pad)?;
            into.push(':')?;
        }
        WiredHead::Inlets { number, hint, rows } => {
            write!(into, "{number},{hint},{}|", rows.len())?;
        }
    }
    Ok(())
}

fn put_task<I: Inlet<Out = O>, O: Outlet<Lanes = I::Lanes>>(
    into: &mut String,
    task: &WiredTask<I, O>,
) -> Result<(), Fail> {
    into.push_str(" [")?;
    put_head(into, &task.head)?;
    for part in task.parts.iter() {
        write!(into, " {}", part.number)?;
        for pad in part.pads.as_slice() {
            put_pad(into, pad)?;
        }
    }
    into.push(']')?;
    Ok(())
}

/// The tasks of a line.
fn row_of(alloc: Global, line: &str) -> Result<String, Fail> {
    let graph = graph_of(alloc, line)?;
    let mut row = String::new(alloc);
    for task in wire(alloc, &graph)?.tasks.iter() {
        put_task(&mut row, task)?;
    }
    Ok(row)
}

#[test]
fn tasks_of_lines(rt: HostRuntime) -> Result<(), Fail> {
    let alloc = rt.alloc();
    for row in ROWS.lines() {
        let (line, tasks) = sides_of(row);
        same_text(&rt, row_of(alloc, line)?.as_str(), tasks);
    }
    Ok(())
}
