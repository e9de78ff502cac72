//! A table of lines, and the limits.
use crate::rows::same_text;
use launch_text::{LineFault, LineKind, Part, parse, print};
use std::alloc::Global;
use std::fmt::Write;
use std::process::Abort;
use std::test::Fail;

/// What a line gives: its printed tree, or the place and the kind of its fault.
fn read(alloc: Global, line: &str) -> Result<String, Fail> {
    let mut told = String::new(alloc);
    match parse(alloc, line) {
        Ok(tree) => told.push_str(print(alloc, &tree)?.as_str())?,
        Err(LineFault::BadLine { place, kind }) => write!(told, "{place} {}", word_of(kind))?,
        Err(LineFault::OutOfMemory) => told.push_str("memory")?,
    }
    Ok(told)
}

fn word_of(kind: LineKind) -> &'static str {
    match kind {
        LineKind::EmptyLink => "EmptyLink",
        LineKind::TrailingLink => "TrailingLink",
        LineKind::Unclosed => "Unclosed",
        LineKind::BadRef => "BadRef",
        LineKind::CapsEnd => "CapsEnd",
        LineKind::Deep => "Deep",
        LineKind::Empty => "Empty",
        LineKind::BadName => "BadName",
        LineKind::TooLong => "TooLong",
    }
}

/// Lines, each with the line that its tree is printed as.
const GOOD: &str = r#"a -> a
  a  ->  a
a b -> a b
filesrc location=x ! identity ! filesink location=y -> filesrc location=x ! identity ! filesink location=y
a ! b c ! d -> a ! b c ! d
a x=1 y=2 ! b -> a x=1 y=2 ! b
a x= y=2 -> a x="" y=2
a x= -> a x=""
a x="" -> a x=""
a x="b c" -> a x=b\ c
a x=b\ c -> a x=b\ c
a x="b\"c\\d" -> a x=b\"c\\d
a x=b"c d"e -> a x=bc\ de
a x=\! -> a x=!
a x=y=z -> a x=y=z
a x=( -> a x=(
a x=é -> a x=é
a x=\é -> a x=é
a x-1=v X9=w -> a x-1=v X9=w
0-_a -> 0-_a
- -> -
x. ! a -> x. ! a
a ! x. -> a ! x.
x.src ! y.sink -> x.src ! y.sink
A_b-9.src_0 ! a -> A_b-9.src_0 ! a
a ! x. b ! y. c -> a ! x. b ! y. c
a name=t ! b t. ! c -> a name=t ! b t. ! c
a ! x/y ! b -> a ! x/y ! b
a ! audio/x-raw, rate=(int)44100 ! b -> a ! audio/x-raw,\ rate=(int)44100 ! b
a ! audio/x-raw,   channels=1 ! b -> a ! audio/x-raw,\ channels=1 ! b
a ! audio/x-raw,\ channels=1 ! b -> a ! audio/x-raw,\ channels=1 ! b
a ! x/y, s="p q" ! b -> a ! x/y,\ s="p\ q" ! b
a ! x/y, s="p\ q" ! b -> a ! x/y,\ s="p\ q" ! b
a ! x/y\\ z ! b -> a ! x/y\\\ z ! b
a ! x/y ( ) !! ! b -> a ! x/y\ (\ )\ !! ! b
a ! !/x ! b -> a ! !/x ! b
a ! "p q"/x ! b -> a ! "p\ q"/x ! b
a ! x/y ! z/w ! b -> a ! x/y ! z/w ! b
a ! x/y ! b. -> a ! x/y ! b.
a. ! x/y ! b -> a. ! x/y ! b
a ! b.c/d ! e -> a ! b.c/d ! e
( a ) -> ( a )
( a ! b ) c -> ( a ! b ) c
a ( b ( c ) d ) e -> a ( b ( c ) d ) e
( a x=1 ) ( b ) -> ( a x=1 ) ( b )
( a ! b. ) -> ( a ! b. )
( ( a ) ) -> ( ( a ) )
( a ! x/y ) ! b ) -> ( a ! x/y\ ) ! b )
( ( ( ( ( ( ( ( ( ( ( ( ( ( ( ( a ) ) ) ) ) ) ) ) ) ) ) ) ) ) ) ) -> ( ( ( ( ( ( ( ( ( ( ( ( ( ( ( ( a ) ) ) ) ) ) ) ) ) ) ) ) ) ) ) )
"#;

/// Lines, each with its fault.
const BAD: &str = r#" -> 0 Empty
   -> 2 Empty
% -> 0 BadName
( -> 1 Unclosed
( ) -> 2 Empty
) -> 0 Empty
( ( ) ) -> 4 Empty
( ) a -> 2 BadName
() -> 1 BadName
! -> 0 EmptyLink
! a -> 0 EmptyLink
a ! -> 3 TrailingLink
a !  -> 4 TrailingLink
a ! ! -> 5 EmptyLink
a ! ! b -> 5 EmptyLink
a ! ) -> 5 TrailingLink
( a ! ) -> 7 TrailingLink
( a ! -> 5 TrailingLink
( ! a -> 2 EmptyLink
a ! x/y ! -> 9 TrailingLink
a ! x/y ! ! -> 11 EmptyLink
a ! x/y ! ! b -> 11 EmptyLink
a !! b -> 3 BadName
a! b -> 1 BadName
a ) -> 2 BadName
( a ) ) -> 6 BadName
( a ) ! b -> 6 BadName
( a -> 3 Unclosed
( a ) ( -> 7 Unclosed
( A -> 3 Unclosed
A -> 1 BadName
A b -> 1 BadName
aB -> 2 BadName
a B -> 3 BadName
a b% -> 3 BadName
é -> 0 BadName
a "b" -> 2 BadName
a \b -> 2 BadName
a x_y=1 -> 5 BadName
a =1 -> 2 BadName
x=1 -> 1 BadName
a ! x=1 -> 5 BadName
a ! x=1/2 -> 5 BadName
a ! "p q=1" -> 8 BadName
a ! "p q -> 8 Unclosed
a ! p"q=r -> 7 BadName
a x="b -> 6 Unclosed
a x=b\ -> 6 Unclosed
a x="b\" -> 8 Unclosed
a x="b c d -> 10 Unclosed
a x%="b -> 3 BadName
x. -> 2 BadRef
x. a -> 3 BadRef
x. !a -> 4 BadRef
( x. ) -> 5 BadRef
( x. -> 4 Unclosed
a x. -> 4 BadRef
a ! x. ! b -> 7 BadRef
a ! x. !b -> 7 BadName
x. ! y. ! b -> 8 BadRef
x.y.z -> 3 BadName
x.% -> 2 BadName
.x -> 0 BadName
a ! .x -> 6 BadName
a ! x.y.z -> 9 BadName
a ! x.y.z b -> 9 BadName
a ! B -> 5 BadName
a ! B c -> 5 BadName
( a ! B -> 7 Unclosed
a ! % -> 5 BadName
a ! ( b ) -> 5 BadName
x/y ! a -> 1 CapsEnd
%/y -> 0 CapsEnd
a x/y ! b -> 3 CapsEnd
a x/y=z ! b -> 3 CapsEnd
a ! x/y -> 7 CapsEnd
a ! x/y b -> 9 CapsEnd
a ! x/y  -> 8 CapsEnd
( a ! x/y ) -> 11 Unclosed
a ! x/y z="q -> 12 Unclosed
( x/y ! a -> 3 CapsEnd
( ( ( ( ( ( ( ( ( ( ( ( ( ( ( ( ( a ) ) ) ) ) ) ) ) ) ) ) ) ) ) ) ) ) -> 32 Deep
( ( ( ( ( ( ( ( ( ( ( ( ( ( ( ( a ( -> 34 Deep
"#;

fn check_line(rt: &impl Abort, alloc: Global, line: &str, wanted: &str) -> Result<(), Fail> {
    same_text(rt, line, read(alloc, line)?.as_str(), wanted);
    Ok(())
}

#[test]
fn good_lines(rt: HostRuntime) -> Result<(), Fail> {
    let alloc = rt.alloc();
    for row in GOOD.lines() {
        let (line, wanted) = row.split_once(" -> ").unwrap_or((row, ""));
        check_line(&rt, alloc, line, wanted.trim())?;
        check_line(&rt, alloc, wanted, wanted.trim())?;
    }
    Ok(())
}

#[test]
fn lines_with_white_space(rt: HostRuntime) -> Result<(), Fail> {
    let alloc = rt.alloc();
    check_line(&rt, alloc, "\ta\n!\tb\n", "a ! b")?;
    check_line(&rt, alloc, "a x=\"p\tq\nr\"", "a x=p\\\tq\\\nr")?;
    check_line(&rt, alloc, "a x=p\\\tq", "a x=p\\\tq")?;
    check_line(
        &rt,
        alloc,
        "a ! x/y\t\"p\tq\"\n! b",
        "a ! x/y\\ \"p\tq\" ! b",
    )?;
    check_line(&rt, alloc, "a\rb", "1 BadName")
}

#[test]
fn bad_lines(rt: HostRuntime) -> Result<(), Fail> {
    let alloc = rt.alloc();
    for row in BAD.lines() {
        let (line, wanted) = row.split_once(" -> ").unwrap_or((row, ""));
        check_line(&rt, alloc, line, wanted)?;
    }
    Ok(())
}

/// A line of so many bytes.
fn line_of(alloc: Global, length: usize) -> Result<String, Fail> {
    let mut line = String::new(alloc);
    for _ in 0..length {
        line.push('a')?;
    }
    Ok(line)
}

#[test]
fn longest_line(rt: HostRuntime) -> Result<(), Fail> {
    let alloc = rt.alloc();
    let whole = line_of(alloc, 65_536)?;
    check_line(&rt, alloc, whole.as_str(), whole.as_str())?;
    let more = line_of(alloc, 65_537)?;
    check_line(&rt, alloc, more.as_str(), "65536 TooLong")
}

/// How many nodes the chain has, where the part is a chain.
fn nodes_of(part: &Part) -> usize {
    match part {
        Part::Chain(chain) => chain.nodes.as_slice().len(),
        Part::Bin(_) => 0,
    }
}

#[test]
fn trees(rt: HostRuntime) -> Result<(), Fail> {
    let alloc = rt.alloc();
    let Ok(tree) = parse(alloc, "a x=1 ! b c ( d ! e. )") else {
        return Err("a line")?;
    };
    let mut counts = String::new(alloc);
    for part in tree.parts.as_slice() {
        write!(counts, "{} ", nodes_of(part))?;
    }
    assert_eq!(rt; counts.as_str(), "2 1 0 ");
    Ok(())
}
