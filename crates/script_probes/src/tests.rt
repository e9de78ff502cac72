//! Rows of commands, and which of them stop.
use super::*;
use gst_value::{PadName, Text};
use script_text::{Act, Command, When};
use std::alloc::Global;
use std::fmt::Write;
use std::test::Fail;

/// Each row: commands by their pads and numbers of buffers, at a pad or anywhere where there is none; pads with how many
/// commands are answered; and the command that stops there with its number of buffers.
const ROWS: &str = "\
i.src 5 => i.src 0, i.src 0, i.sink 0, j.src 0, i.src 1, i.src 9 => 0 at 5, 0 at 5, none, none, none, none
 => i.src 0 => none
i.src 5; i.src 5 => i.src 0, i.src 1, i.src 1, i.src 2 => 0 at 5, 1 at 5, 1 at 5, none
i.src 9; i.src 7; i.src 8 => i.src 0, i.src 1, i.src 2, i.src 3 => 1 at 7, 1 at 7, 2 at 8, none
i.src 9; i.src 7; i.src 8 => i.src 2, i.src 2, i.src 3 => 2 at 8, 2 at 8, none
i.src 4; j.src 1; i.src 3; j.src 2; i.src 4 => i.src 0, j.src 0, i.src 1, j.src 2, i.src 3, j.src 4, i.src 5 => 2 at 3, 1 at 1, 2 at 3, 3 at 2, 4 at 4, none, none
now; i.src; i.src 0 => i.src 0, i.src 1, i.src 2, i.src 3 => 2 at 0, 2 at 0, 2 at 0, none
now; i.src => i.src 0 => none
a.bc 1; ab.c 2 => ab.c 0, a.bc 0, a.b 0, abc. 0, .abc 0 => 1 at 2, 0 at 1, none, none, none
i.src 18446744073709551615 => i.src 0, i.src 4294967295 => 0 at 18446744073709551615, none";

fn pad_of(alloc: Global, text: &str) -> Result<PadName, Fail> {
    let (element, pad) = text.split_once('.').ok_or("a pad")?;
    Ok(PadName {
        element: Text::from_str(alloc, element)?,
        pad: Text::from_str(alloc, pad)?,
    })
}

fn command_of(alloc: Global, text: &str) -> Result<Command, Fail> {
    let when = match text.split_once(' ') {
        Some((pad, buffers)) => When::At {
            pad: pad_of(alloc, pad)?,
            buffers: buffers.parse::<u64>()?,
        },
        None if text == "now" => When::Now,
        None => When::NowPad {
            pad: pad_of(alloc, text)?,
        },
    };
    Ok(Command {
        when,
        act: Act::Unlink { eos: false },
    })
}

fn commands_of(alloc: Global, text: &str) -> Result<Vec<Command>, Fail> {
    let mut commands = Vec::new(alloc);
    if text.is_empty() {
        return Ok(commands);
    }
    for word in text.split("; ") {
        commands.push(command_of(alloc, word)?)?;
    }
    Ok(commands)
}

/// The answer at a pad as text.
fn told(
    probes: &mut ScriptProbes,
    pad: &PadName,
    answered: u32,
    into: &mut String,
) -> Result<(), Fail> {
    match probes.probe(pad, answered) {
        Some(stop) => write!(into, "{} at {}", stop.command, stop.buffers)?,
        None => into.push_str("none")?,
    }
    Ok(())
}

/// The answers to all questions of a row.
fn answers(alloc: Global, commands: &[Command], questions: &str) -> Result<String, Fail> {
    if commands.len() > 4096 {
        return Err("too many commands")?;
    }
    let mut probes = ScriptProbes::new(alloc, commands)?;
    let mut row = String::new(alloc);
    for question in questions.split(", ") {
        if !row.is_empty() {
            row.push_str(", ")?;
        }
        let (pad, answered) = question.split_once(' ').ok_or("a question")?;
        told(
            &mut probes,
            &pad_of(alloc, pad)?,
            answered.parse::<u32>()?,
            &mut row,
        )?;
    }
    Ok(row)
}

/// 4,096 commands at one pad, whose numbers fall.
fn falling(alloc: Global) -> Result<Vec<Command>, Fail> {
    let mut commands = Vec::new(alloc);
    for place in 0..4096_u64 {
        commands.push(Command {
            when: When::At {
                pad: pad_of(alloc, "i.src")?,
                buffers: 4096 - place,
            },
            act: Act::Unlink { eos: true },
        })?;
    }
    Ok(commands)
}

#[test]
fn rows(rt: HostRuntime) -> Result<(), Fail> {
    let alloc = rt.alloc();
    for row in ROWS.split('\n') {
        let (commands, rest) = row.split_once(" => ").ok_or("a row")?;
        let (questions, wanted) = rest.split_once(" => ").ok_or("a row")?;
        let commands = commands_of(alloc, commands)?;
        let answer = answers(alloc, commands.as_slice(), questions)?;
        assert!(rt; answer.as_str() == wanted, "{row}: {answer}");
    }
    let commands = falling(alloc)?;
    let answer = answers(
        alloc,
        commands.as_slice(),
        "i.src 0, i.src 1, i.src 4095, i.src 4096",
    )?;
    assert_eq!(rt; answer.as_str(), "4095 at 1, 4095 at 1, 4095 at 1, none");
    Ok(())
}
