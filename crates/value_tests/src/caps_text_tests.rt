//! A table of texts, and the limits.
use crate::rows::{check_rows, number_of, parts_of, same_text};
use caps_text::{CapsTextFault, parse, print};
use std::alloc::Global;
use std::fmt::Write;
use std::test::Fail;

/// What a text gives: the printed caps, the place of refusal, or the count.
fn read(alloc: Global, text: &str) -> Result<String, Fail> {
    let mut told = String::new(alloc);
    match parse(alloc, text) {
        Ok(caps) => told.push_str(print(alloc, &caps)?.as_str())?,
        Err(CapsTextFault::BadCaps { place }) => write!(told, "bad {place}")?,
        Err(CapsTextFault::TooMany { count }) => write!(told, "more {count}")?,
        Err(CapsTextFault::OutOfMemory) => told.push_str("memory")?,
    }
    Ok(told)
}

/// Caps texts, each with what it gives: the printed caps, or `bad` and the place of refusal.
const TEXTS: &str = r#"ANY -> ANY
EMPTY -> EMPTY
a/b -> a/b
ANY/x -> ANY/x
EMPTY/x, a=1 -> EMPTY/x, a=(int)1
audio/x-raw, rate=[ 8000, 48000 ], format={ S16LE, U8 } -> audio/x-raw, format=(string){ S16LE, U8 }, rate=(int)[ 8000, 48000 ]
audio/x-raw,rate=44100 -> audio/x-raw, rate=(int)44100
a/b  ,  r  =  (int)  1  ;  c/d -> a/b, r=(int)1; c/d
a-+._9/Z-+._0 -> a-+._9/Z-+._0
a/b, X-_9=1 -> a/b, X-_9=(int)1
a/b, x=a,b=2 -> a/b, b=(int)2, x=(string)a
a/b, x=-5 -> a/b, x=(int)-5
a/b, x=007 -> a/b, x=(int)7
a/b, x=-0 -> a/b, x=(int)0
a/b, x=2147483647 -> a/b, x=(int)2147483647
a/b, x=-2147483648 -> a/b, x=(int)-2147483648
a/b, x=2147483648 -> a/b, x=(string)2147483648
a/b, x=-2147483649 -> a/b, x=(string)-2147483649
a/b, x=- -> a/b, x=(string)-
a/b, x=+5 -> a/b, x=(string)+5
a/b, x=5x -> a/b, x=(string)5x
a/b, x=1/2 -> a/b, x=(fraction)1/2
a/b, x=2/4 -> a/b, x=(fraction)1/2
a/b, x=1/-2 -> a/b, x=(fraction)-1/2
a/b, x=0/5 -> a/b, x=(fraction)0/1
a/b, x=-6/-4 -> a/b, x=(fraction)3/2
a/b, x=007/010 -> a/b, x=(fraction)7/10
a/b, x=1/2/3 -> a/b, x=(string)1/2/3
a/b, x=1/ -> a/b, x=(string)1/
a/b, x=/1 -> a/b, x=(string)/1
a/b, x=1/2147483648 -> a/b, x=(string)1/2147483648
a/b, x=1/0 -> bad 10
a/b, x=1/0x -> a/b, x=(string)1/0x
a/b, x=1/0, y=1 -> bad 10
a/b, x=1/-2147483648 -> bad 20
a/b, x=2/-2147483648 -> a/b, x=(fraction)-1/1073741824
a/b, x=-2147483648/-1 -> bad 21
a/b, x=true, y=false -> a/b, x=(boolean)true, y=(boolean)false
a/b, x=TRUE -> a/b, x=(string)TRUE
a/b, x=_+.:/- -> a/b, x=(string)_+.:/-
a/b, x="two words" -> a/b, x=(string)"two words"
a/b, x="a\"b\\c" -> a/b, x=(string)"a\"b\\c"
a/b, x="pla\in" -> a/b, x=(string)plain
a/b, x="" -> a/b, x=(string)""
a/b, x="5" -> a/b, x=(string)5
a/b, x="é" -> a/b, x=(string)"é"
a/b, x="\é, y=1; c/d" -> a/b, x=(string)"é, y=1; c/d"
a/b, x="abc -> bad 11
a/b, x="a\ -> bad 10
a/b, x="a"b -> bad 10
a/b, x=a"b" -> bad 8
a/b, x=(int)5 -> a/b, x=(int)5
a/b, x=(string)5 -> a/b, x=(string)5
a/b, x=(string)true -> a/b, x=(string)true
a/b, x=(string)"a b" -> a/b, x=(string)"a b"
a/b, x=(boolean)true -> a/b, x=(boolean)true
a/b, x=(fraction)3/6 -> a/b, x=(fraction)1/2
a/b, x=(int)00000000000001 -> a/b, x=(int)1
a/b, x=(int)-2147483648 -> a/b, x=(int)-2147483648
a/b, x=( int)5 -> bad 8
a/b, x=(int )5 -> bad 11
a/b, x=(int) -> bad 12
a/b, x=(int)x -> bad 12
a/b, x=(int)5x -> bad 13
a/b, x=(int)"5" -> bad 12
a/b, x=(int)- -> bad 13
a/b, x=(int)-x -> bad 13
a/b, x=(int)+5 -> bad 12
a/b, x=(int)1/2 -> bad 13
a/b, x=(int)2147483648 -> bad 21
a/b, x=(int)-2147483649 -> bad 22
a/b, x=(string) -> bad 15
a/b, x=(string), y=1 -> bad 15
a/b, x=(boolean)tru -> bad 19
a/b, x=(boolean)trux -> bad 19
a/b, x=(boolean)truex -> bad 20
a/b, x=(boolean)falsy -> bad 20
a/b, x=(boolean)1 -> bad 16
a/b, x=(fraction)5 -> bad 18
a/b, x=(fraction)1/0 -> bad 20
a/b, x=(fraction)1/0, y=1 -> bad 20
a/b, x=(fraction)1/00 -> bad 21
a/b, x=(fraction)1/02 -> a/b, x=(fraction)1/2
a/b, x=(fraction)1/2147483648 -> bad 28
a/b, x=(fraction)1/-2147483648 -> bad 29
a/b, x=(fraction)2/-2147483648 -> a/b, x=(fraction)-1/1073741824
a/b, x=(fraction)-2147483648/-1 -> bad 31
a/b, x=(fraction)-2147483648/-2147483647 -> bad 39
a/b, x=(fraction)-2147483648/-2147483646 -> a/b, x=(fraction)1073741824/1073741823
a/b, x=(float)1 -> bad 9
a/b, x=(x)1 -> bad 8
a/b, x=(in)5 -> bad 10
a/b, x=() -> bad 8
a/b, x=[ 1, 2 ] -> a/b, x=(int)[ 1, 2 ]
a/b, x=[1,2] -> a/b, x=(int)[ 1, 2 ]
a/b, x=(int)[  -5  ,  -3  ] -> a/b, x=(int)[ -5, -3 ]
a/b, x=[ 5, 5 ] -> a/b, x=(int)5
a/b, x=[ 0, -0 ] -> a/b, x=(int)0
a/b, x=[ -2147483648, 2147483647 ] -> a/b, x=(int)[ -2147483648, 2147483647 ]
a/b, x=[ 5, 0000000000005 ] -> a/b, x=(int)5
a/b, x=[ 2, 1 ] -> bad 13
a/b, x=[ 2, 10 ] -> a/b, x=(int)[ 2, 10 ]
a/b, x=[ 5, -1 ] -> bad 12
a/b, x=[ 0, -1 ] -> bad 13
a/b, x=[ -5, -7 ] -> bad 14
a/b, x=[ 2147483647, 3 ] -> bad 21
a/b, x=[ 2147483647, 2147483646 ] -> bad 30
a/b, x=[ 1000000000, 3 ] -> bad 21
a/b, x=[ 1 2 ] -> bad 11
a/b, x=[ 1, 2 -> bad 13
a/b, x=[ 1 ] -> bad 11
a/b, x=[ a, b ] -> bad 9
a/b, x=[ 1, 2, 3 ] -> bad 13
a/b, x=[ 1/2, 3/4 ] -> bad 10
a/b, x=[ 99999999999, 1 ] -> bad 18
a/b, x=(string)[ 1, 2 ] -> bad 15
a/b, x={ 1, 2 } -> a/b, x=(int){ 1, 2 }
a/b, x={1} -> a/b, x=(int)1
a/b, x={ a } -> a/b, x=(string)a
a/b, x={ 1, 1, 2, 1 } -> a/b, x=(int){ 1, 2 }
a/b, x={ 2, 2 } -> a/b, x=(int)2
a/b, x={ 1, [ 3, 4 ] } -> a/b, x=(int){ 1, [ 3, 4 ] }
a/b, x={ [ 3, 4 ], 1 } -> a/b, x=(int){ [ 3, 4 ], 1 }
a/b, x={ [ 3, 3 ], 3 } -> a/b, x=(int)3
a/b, x={ [ 1, 2 ], [ 1, 2 ] } -> a/b, x=(int)[ 1, 2 ]
a/b, x={ a, 1, true } -> a/b, x=(string){ a, 1, true }
a/b, x={ "a b", c } -> a/b, x=(string){ "a b", c }
a/b, x={ "1", 2 } -> a/b, x=(string){ 1, 2 }
a/b, x={ true, false } -> a/b, x=(boolean){ true, false }
a/b, x={ 1/2, 2/4 } -> a/b, x=(fraction)1/2
a/b, x=(string){ 1, 2 } -> a/b, x=(string){ 1, 2 }
a/b, x=(boolean){ true } -> a/b, x=(boolean)true
a/b, x={ 1, a } -> bad 12
a/b, x={ 1, 2x } -> bad 13
a/b, x={ true, maybe } -> bad 15
a/b, x={ 1/2, 1 } -> bad 15
a/b, x={ } -> bad 9
a/b, x={ 1, } -> bad 12
a/b, x={ 1 2 } -> bad 11
a/b, x={ 1, 2 -> bad 13
a/b, x={ { 1 } } -> bad 9
a/b, x={ (int)1 } -> bad 9
a/b, x=(int){ 1, (int)2 } -> bad 17
a/b, x=(fraction){ 1/2, [ 1, 2 ] } -> bad 24
a/b, x={ "a", b"c" } -> bad 15
a/b; c/d -> a/b; c/d
a/b;c/d -> a/b; c/d
a/b; a/b -> a/b; a/b
a/b, x=1; c/d, x=2 -> a/b, x=(int)1; c/d, x=(int)2
a/b; -> bad 4
;a/b -> bad 0
a/b;;c/d -> bad 4
a/b; ANY -> bad 8
a/b; ANY; c/d -> bad 8
a/b, x=1; -> bad 9
 -> bad 0
a -> bad 1
a/ -> bad 2
/b -> bad 0
a/b/c -> bad 3
a b/c -> bad 1
a/ b -> bad 2
 a/b -> bad 0
a/b  -> bad 4
a/b x -> bad 4
a:b/c -> bad 1
é/b -> bad 0
a/bé -> bad 3
ANYx -> bad 4
ANY  -> bad 3
ANY, a=1 -> bad 3
ANY; a/b -> bad 3
any -> bad 3
a/b, -> bad 4
a/b,, x=1 -> bad 4
a/b, 1x=2 -> bad 5
a/b, -x=2 -> bad 5
a/b, x -> bad 6
a/b, x= -> bad 7
a/b, x y=1 -> bad 7
a/b, x:=1 -> bad 6
a/b, x==1 -> bad 7
a/b, x=1, x=2 -> bad 11
a/b, x=1, x -> bad 11
a/b, x=1, x2=2 -> a/b, x=(int)1, x2=(int)2
a/b, x=1, y=2, x=3 -> bad 16
a/b, x=1; c/d, x=1, x=2 -> bad 21
a/b, x=1 y=2 -> bad 9
a/b, x=1, -> bad 9
a/b, x=1  -> bad 9
"#;

/// Two calls: what a text gives, and where it is read what its printed text gives.
fn read_again(alloc: Global, text: &str) -> Result<String, Fail> {
    let told = read(alloc, text)?;
    if told.starts_with("bad") {
        return Ok(told);
    }
    read(alloc, told.as_str())
}

#[test]
fn texts(rt: HostRuntime) -> Result<(), Fail> {
    check_rows(&rt, rt.alloc(), TEXTS, read)?;
    check_rows(&rt, rt.alloc(), TEXTS, read_again)
}

/// Each row: how many numbers; between bars what stands before them, what before and behind each, and what behind all; and what the text gives, of
/// which no more than two letters are told where it is read.
const NUMBERED: &str = "\
64|a/b|, x|=1| -> a/
65|a/b|, x|=1| -> more 65
64|a/b, x={0|, ||} -> a/
65|a/b, x={0|, ||} -> more 65
63|a/a|; a/b|| -> a/
64|a/a|; a/b|| -> more 65
65|a/b|, x|=1|! -> more 65
65|a/b, x=(int){0|, ||x } -> bad 264
65|a/b, x=(int){0|, || x } -> more 65
64|a/b|, x|=1|!, y=1 -> bad 441";

/// The numbers from 0 on, each between two texts.
fn put_numbers(into: &mut String, count: i32, before: &str, behind: &str) -> Result<(), Fail> {
    for number in 0..count {
        write!(into, "{before}{number}{behind}")?;
    }
    Ok(())
}

/// The text that a row stands for.
fn numbered(alloc: Global, row: &str) -> Result<String, Fail> {
    let (count, rest) = parts_of(row, "|");
    let (before, rest) = parts_of(rest, "|");
    let (left, rest) = parts_of(rest, "|");
    let (right, behind) = parts_of(rest, "|");
    let mut text = String::from_str(alloc, before)?;
    put_numbers(&mut text, number_of(count), left, right)?;
    text.push_str(behind)?;
    Ok(text)
}

fn told_of_numbers(alloc: Global, row: &str) -> Result<String, Fail> {
    let mut told = read(alloc, numbered(alloc, row)?.as_str())?;
    if told.starts_with("a/") {
        told.truncate(2);
    }
    Ok(told)
}

#[test]
fn limits(rt: HostRuntime) -> Result<(), Fail> {
    check_rows(&rt, rt.alloc(), NUMBERED, told_of_numbers)
}

#[test]
fn no_tab(rt: HostRuntime) -> Result<(), Fail> {
    same_text(
        &rt,
        "a tab",
        read(rt.alloc(), "a/b,\tx=1")?.as_str(),
        "bad 4",
    );
    Ok(())
}
