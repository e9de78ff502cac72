//! Why words ask for no run.
ghost use Rattle.std.specs.Prelude.{◌≡◌};
ghost use Rattle.line_read.specs.Refusals.{reported, status_of, wanting};

use graph_core::BuildFault;
use launch_text::LineFault;
use run_report::Fault;
use run_words::WordsFault;

/// The status of a report where the program does not take the words, or where no line is among them.
const BAD_WORDS: u8 = 1;

/// The status of a report where the text of the line is none.
const BAD_LINE: u8 = 2;

/// The status of a report where the line asks for what is not there or cannot be made.
const BAD_ELEMENT: u8 = 3;

/// The status of a report where the line asks for a link that cannot be made.
const LINK_REFUSED: u8 = 4;

/// The status of a report for which there was no memory.
const OUT_OF_MEMORY: u8 = 13;

/// Why words ask for no run.
#[derive(Drop)]
pub struct Refusal {
    /// The status of the report: 1 for the words, 2 for the text of the line, 3 and 4 for its graph, 5 for the text of the
    /// script, 6 and 7 for its file, and 13 for want of memory.
    pub status: u8,
    /// The fault of the report. It is `Nothing` for want of memory, and there alone.
    pub fault: Fault,
}

/// The refusal for want of memory.
pub(crate) fn wanting() -> Refusal
    ensures { result ≡ wanting }
{
    Refusal {
        status: OUT_OF_MEMORY,
        fault: Fault::Nothing,
    }
}

impl From<WordsFault> for Refusal {
    ghost use Rattle.std.specs.Prelude.{◌≡◌};
    ghost use Rattle.line_read.specs.Refusals.{words_refusal};

    ghost from_gives = { λ fault refusal. refusal ≡ words_refusal fault };

    fn from(fault: WordsFault) -> Refusal {
        match fault {
            WordsFault::Words => Refusal {
                status: BAD_WORDS,
                fault: Fault::Words,
            },
            WordsFault::NoLine => Refusal {
                status: BAD_WORDS,
                fault: Fault::NoLine,
            },
            WordsFault::OutOfMemory => wanting(),
        }
    }
}

impl From<LineFault> for Refusal {
    ghost use Rattle.std.specs.Prelude.{◌≡◌};
    ghost use Rattle.line_read.specs.Refusals.{line_refusal};

    ghost from_gives = { λ fault refusal. refusal ≡ line_refusal fault };

    fn from(fault: LineFault) -> Refusal {
        match fault {
            LineFault::BadLine { place, kind } => Refusal {
                status: BAD_LINE,
                fault: Fault::BadLine { place, kind },
            },
            LineFault::OutOfMemory => wanting(),
        }
    }
}

impl From<BuildFault> for Refusal {
    ghost use Rattle.std.specs.Prelude.{◌≡◌};
    ghost use Rattle.line_read.specs.Refusals.{graph_refusal};

    ghost from_gives = { λ fault refusal. refusal ≡ graph_refusal fault };

    fn from(fault: BuildFault) -> Refusal {
        Refusal {
            status: status_of(&fault),
            fault: reported(fault),
        }
    }
}

/// The status of a report where a line has no graph.
fn status_of(fault: &BuildFault) -> u8
    ensures { result ≡ status_of fault.now }
{
    match fault {
        BuildFault::NoSuch { .. }
        | BuildFault::BadValue { .. }
        | BuildFault::NameTaken { .. }
        | BuildFault::LocationTaken { .. }
        | BuildFault::TooMany { .. } => BAD_ELEMENT,
        BuildFault::LinkRefused { .. } => LINK_REFUSED,
        BuildFault::OutOfMemory => OUT_OF_MEMORY,
    }
}

/// Why a line has no graph, as a report tells it.
fn reported(fault: BuildFault) -> Fault
    ensures { result ≡ reported fault }
{
    match fault {
        BuildFault::NoSuch { name, what } => Fault::NoSuch { name, what },
        BuildFault::BadValue { name, property } => Fault::BadValue { name, property },
        BuildFault::NameTaken { name } => Fault::NameTaken { name },
        BuildFault::LocationTaken { location } => Fault::LocationTaken { location },
        BuildFault::TooMany { count } => Fault::TooMany { count },
        BuildFault::LinkRefused { a, b, ret } => Fault::LinkRefused { a, b, ret },
        BuildFault::OutOfMemory => Fault::Nothing,
    }
}
