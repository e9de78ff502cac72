//! Rows of scripts, and the commands that they say or the line that is wrong.
use crate::rows::same_text;
use script_text::*;
use std::alloc::Global;
use std::fmt::Write;
use std::process::Abort;
use std::test::Fail;

/// Each row: a text with bars for line ends and `~` for a byte that is no UTF-8, and behind `=>` its commands, or the
/// line at fault.
const ROWS: &str = "\
at i.src 5 relink q.sink => at i.src 5 relink q.sink
 => nothing
at i.src 5 unlink|now i.src unlink eos| => at i.src 5 unlink; now i.src unlink eos
now i.src relink q.sink => now i.src relink q.sink
now add queue name=q => now add queue name=<q>
at i.src 3 add queue name=q max-size-buffers=4 => at i.src 3 add queue name=<q> max-size-buffers=<4>
now remove q|at i.src 3 remove e_1-B => now remove q; at i.src 3 remove e_1-B
# a comment||   |now remove e => now remove e
# a comment||   |now| => line 4 BadAct
  now   remove  e  => now remove e
 # no comment => line 1 BadWhen
now remove e\r| => line 1 BadAct
\r|now remove e => line 1 BadWhen
now\tremove e => line 1 BadWhen
now remove e\0 => line 1 BadAct
now add queue name=a\0b => now add queue name=<a\0b>
now add queue name=\"a  b\" x=c\\ d y=\\\"e\\\\ => now add queue name=<a  b> x=<c d> y=<\"e\\>
now add queue name=a\"b|now => line 1 BadAct
now add queue name=a\\ => line 1 BadAct
now add queue \"name=q\" => line 1 BadAct
now add queue name= => now add queue name=<>
now add queue name=ä => now add queue name=<ä>
now add queue x=1 => line 1 BadAct
now add queue => line 1 BadAct
now add Queue name=q => line 1 BadAct
now add => line 1 BadAct
now add queue name=q =1 => line 1 BadAct
now add queue name=q a_b=1 => line 1 BadAct
at i.src 007 unlink => at i.src 7 unlink
at i.src 9223372036854775807 unlink => at i.src 9223372036854775807 unlink
at i.src 9223372036854775808 unlink => line 1 BadNumber
at i.src 99999999999999999999999 unlink => line 1 BadNumber
at i.src +1 unlink => line 1 BadNumber
at i.src 1x unlink => line 1 BadNumber
at i.src => line 1 BadNumber
at => line 1 BadWhen
at isrc 1 unlink => line 1 BadWhen
at i. 1 unlink => line 1 BadWhen
at .src 1 unlink => line 1 BadWhen
at i.s.t 1 unlink => line 1 BadWhen
at \"i.src\" 1 unlink => line 1 BadWhen
now i. unlink => line 1 BadWhen
At i.src 1 unlink => line 1 BadWhen
at i.src 1 => line 1 BadAct
at i.src 1 flip q.sink => line 1 BadAct
at i.src 1 relink => line 1 BadAct
at i.src 1 relink q.sink r.sink => line 1 BadAct
at i.src 1 relink q => line 1 BadAct
at i.src 1 unlink now => line 1 BadAct
at i.src 1 unlink eos eos => line 1 BadAct
now remove => line 1 BadAct
now remove a b => line 1 BadAct
now remove ä => line 1 BadAct
now i.src => line 1 BadAct
now unlink eos => line 1 NeedsPad
now i.src add queue name=q => line 1 StrayPad
now i.src remove q => line 1 StrayPad
now remove e|at i.src 5 unlink|at i.src 4 unlink => line 3 Backwards
at i.src 5 unlink|at i.src 5 relink q.sink => at i.src 5 unlink; at i.src 5 relink q.sink
at i.src 5 unlink|at j.src 4 unlink|at i.sink 3 unlink => at i.src 5 unlink; at j.src 4 unlink; at i.sink 3 unlink
at i.src 5 unlink|at i.src 9 unlink|at i.src 7 unlink => line 3 Backwards
at i.src 5 unlink|at i.src 4 flip => line 2 BadAct
at isrc x flip => line 1 BadWhen
at i.src x flip => line 1 BadNumber
now relink q => line 1 BadAct
now flip|at => line 1 BadAct
now remove ~ => line 1 NotText
now remove e|# ~| => line 2 NotText
now flip|~ => line 1 BadAct";

/// The same where no act can be done.
const IDLE_ROWS: &str = "\
# a comment||   | => nothing
now i.src unlink => line 1 BadAct
# a comment|at i.src 5 unlink eos => line 2 BadAct
now i.src relink q.sink => line 1 BadAct
now add queue name=q => line 1 BadAct
now remove q => line 1 BadAct
now unlink => line 1 BadAct
now i.src remove q => line 1 BadAct
at isrc x relink b.sink => line 1 BadWhen
at i.src x relink b.sink => line 1 BadNumber
now flip => line 1 BadAct";

/// The bytes for which the text of a row stands.
fn bytes_of(alloc: Global, text: &str) -> Result<Vec<u8>, Fail> {
    let mut bytes = Vec::new(alloc);
    for byte in text.bytes() {
        let byte = match byte {
            b'|' => b'\n',
            b'~' => 0xff,
            other => other,
        };
        bytes.push(byte)?;
    }
    Ok(bytes)
}

fn put_when(into: &mut String, when: &When) -> Result<(), Fail> {
    match when {
        When::At { pad, buffers } => write!(into, "at {pad} {buffers}")?,
        When::NowPad { pad } => write!(into, "now {pad}")?,
        When::Now => write!(into, "now")?,
    }
    Ok(())
}

fn put_act(into: &mut String, act: &Act) -> Result<(), Fail> {
    match act {
        Act::Relink { sink } => write!(into, " relink {sink}")?,
        Act::Unlink { eos: false } => write!(into, " unlink")?,
        Act::Unlink { eos: true } => write!(into, " unlink eos")?,
        Act::Add { kind, props } => {
            write!(into, " add {}", kind.as_str())?;
            for prop in props.as_slice() {
                write!(into, " {}=<{}>", prop.name.as_str(), prop.value.as_str())?;
            }
        }
        Act::Remove { element } => write!(into, " remove {}", element.as_str())?,
    }
    Ok(())
}

fn put_commands(into: &mut String, commands: &[Command]) -> Result<(), Fail> {
    if commands.is_empty() {
        into.push_str("nothing")?;
    }
    for (place, command) in commands.iter().enumerate() {
        if place > 0 {
            into.push_str("; ")?;
        }
        put_when(into, &command.when)?;
        put_act(into, &command.act)?;
    }
    Ok(())
}

/// The answer as a row of text.
fn told(alloc: Global, acts: Acts, bytes: &[u8]) -> Result<String, Fail> {
    let mut row = String::new(alloc);
    match read(alloc, acts, bytes) {
        Ok(commands) => put_commands(&mut row, commands.as_slice())?,
        Err(ScriptFault::BadScript { line, kind }) => write!(row, "line {line} {kind:?}")?,
        Err(ScriptFault::OutOfMemory) => row.push_str("no memory")?,
    }
    Ok(row)
}

/// So many lines with a command, as a row of text.
fn told_of_lines(alloc: Global, count: usize) -> Result<String, Fail> {
    let mut bytes = Vec::new(alloc);
    for _ in 0..count {
        bytes.extend_from_slice(b"now remove e\n")?;
    }
    match read(alloc, Acts::ALL, bytes.as_slice()) {
        Ok(commands) => Ok(format!(in alloc; "{}", commands.as_slice().len())?),
        Err(fault) => Ok(format!(in alloc; "{fault}")?),
    }
}

/// A comment of so many bytes, as a row of text.
fn told_of_bytes(alloc: Global, count: usize) -> Result<String, Fail> {
    let bytes = vec![in alloc; b'#'; count]?;
    told(alloc, Acts::ALL, bytes.as_slice())
}

/// Checks rows where these acts can be done.
fn check_all(rt: &impl Abort, alloc: Global, acts: Acts, rows: &str) -> Result<(), Fail> {
    for row in rows.split('\n') {
        let (text, wanted) = row.split_once(" => ").unwrap_or((row, ""));
        let bytes = bytes_of(alloc, text)?;
        same_text(
            rt,
            row,
            told(alloc, acts, bytes.as_slice())?.as_str(),
            wanted,
        );
    }
    Ok(())
}

#[test]
fn rows(rt: HostRuntime) -> Result<(), Fail> {
    let alloc = rt.alloc();
    check_all(&rt, alloc, Acts::ALL, ROWS)?;
    check_all(&rt, alloc, Acts::NONE, IDLE_ROWS)
}

#[test]
fn one_command(rt: HostRuntime) -> Result<(), Fail> {
    let commands = parse(rt.alloc(), Acts::ALL, "now remove e")?;
    assert!(rt; commands.as_slice().len() == 1);
    Ok(())
}

#[test]
fn lengths(rt: HostRuntime) -> Result<(), Fail> {
    let alloc = rt.alloc();
    let most = told_of_lines(alloc, 4096)?;
    same_text(&rt, "4096 lines", most.as_str(), "4096");
    let more = told_of_lines(alloc, 4097)?;
    same_text(
        &rt,
        "4097 lines",
        more.as_str(),
        "line 4097 of the script: TooLong",
    );
    let most = told_of_bytes(alloc, 1_048_576)?;
    same_text(&rt, "a MiB", most.as_str(), "nothing");
    let more = told_of_bytes(alloc, 1_048_577)?;
    same_text(&rt, "a MiB and a byte", more.as_str(), "line 0 TooLong");
    Ok(())
}
