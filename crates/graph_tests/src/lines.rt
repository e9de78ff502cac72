//! Rows that begin with a line, and its graph.
use graph_core::{Graph, build};
use launch_text::parse;
use std::alloc::Global;
use std::process::Abort;
use std::test::Fail;

pub(crate) fn graph_of(alloc: Global, line: &str) -> Result<Graph, Fail> {
    let tree = parse(alloc, line)?;
    match build(alloc, &tree) {
        Ok(graph) => Ok(graph),
        Err(_) => Err("a line without a graph")?,
    }
}

/// The line of a row, and what stands behind its arrow, from the arrow on.
pub(crate) fn sides_of(row: &str) -> (&str, &str) {
    match row.split_once(" ->") {
        Some(sides) => sides,
        None => (row, ""),
    }
}

/// What is told of a row, and what is to be told of it: all of it, or where two points stand before or behind it how it ends or begins.
pub(crate) fn same_text(rt: &impl Abort, told: &str, wanted: &str) {
    let same = if let Some(first) = wanted.strip_suffix("..") {
        told.starts_with(first)
    } else if let Some(last) = wanted.strip_prefix("..") {
        told.ends_with(last)
    } else {
        told == wanted
    };
    assert!(rt; same, "{told}, and not {wanted}");
}
