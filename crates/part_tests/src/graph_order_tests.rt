//! Rows of links.
use graph_order::*;
use std::alloc::Global;
use std::fmt::Write;
use std::process::Abort;
use std::test::Fail;

/// Each row: how many elements there are, links in their order, and then those of them that loop and the order in
/// the end.
const ROWS: &str = "\
4 | 0-1 1-2 2-3 -> : 0 1 2 3
4 | 3-2 2-1 1-0 -> : 3 2 1 0
3 | 0-0 -> 0-0 : 0 1 2
3 | 0-1 1-2 2-0 -> 2-0 : 0 1 2
3 | 2-0 0-1 1-2 -> 1-2 : 2 0 1
4 | 1-0 2-0 3-1 0-3 -> 0-3 : 2 3 1 0
5 | 4-0 0-3 3-2 2-4 1-4 -> 2-4 : 1 4 0 3 2
1 | -> : 0";

/// Makes a link of a row, and tells where it loops.
fn make(alloc: Global, order: &mut Order, text: &str, told: &mut String) -> Result<(), Fail> {
    let (from, to) = text.split_once("-").ok_or("a dash")?;
    let (from, to) = (from.parse::<u32>()?, to.parse::<u32>()?);
    let count = order.forward().len();
    if from as usize >= count || to as usize >= count {
        Err("an element")?;
    }
    if order.link(alloc, from, to)? == Linking::Loops {
        write!(told, "{from}-{to} ")?;
    }
    Ok(())
}

/// An order of so many elements.
fn elements(alloc: Global, count: u32) -> Result<Order, Fail> {
    let mut order = Order::new(alloc);
    for _ in 0..count {
        if order.forward().len() > 99 {
            Err("a small row")?;
        }
        order.add()?;
    }
    Ok(order)
}

/// What a row comes to.
fn told(alloc: Global, row: &str) -> Result<String, Fail> {
    let (count, links) = row.split_once(" |").ok_or("a bar")?;
    let mut order = elements(alloc, count.parse::<u32>()?)?;
    let mut told = String::new(alloc);
    for link in links.split_whitespace() {
        make(alloc, &mut order, link, &mut told)?;
    }
    told.push(':')?;
    for element in order.forward() {
        write!(told, " {element}")?;
    }
    Ok(told)
}

fn check_row(rt: &impl Abort, alloc: Global, line: &str) -> Result<(), Fail> {
    let (row, wanted) = line.split_once(" -> ").ok_or("an arrow")?;
    assert_eq!(rt; told(alloc, row)?.as_str(), wanted);
    Ok(())
}

#[test]
fn rows(rt: HostRuntime) -> Result<(), Fail> {
    let alloc = rt.alloc();
    for line in ROWS.lines() {
        check_row(&rt, alloc, line)?;
    }
    Ok(())
}

#[test]
fn a_link_is_made_once(rt: HostRuntime) -> Result<(), Fail> {
    let alloc = rt.alloc();
    let mut order = elements(alloc, 3)?;
    if order.forward().len() != 3 {
        Err("three elements")?;
    }
    assert_eq!(rt; order.link_once(alloc, 0, 1)?, Linking::Linked);
    assert_eq!(rt; order.link_once(alloc, 1, 2)?, Linking::Linked);
    assert_eq!(rt; order.link_once(alloc, 0, 1)?, Linking::Linked);
    assert_eq!(rt; order.links().len(), 2);
    assert_eq!(rt; order.link_once(alloc, 2, 0)?, Linking::Loops);
    assert_eq!(rt; order.links().len(), 2);
    Ok(())
}
