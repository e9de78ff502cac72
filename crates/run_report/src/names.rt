//! The words that stand for statuses, kinds of faults and reasons in a report's text.
ghost use Rattle.std.specs.Prelude.{◌≡◌};
ghost use Rattle.run_report.specs.Names.{line_kind_name, reason_name, refused_name, script_kind_name, status_name, stream_kind_name, what_name};

use crate::report::Fault;
use flow_model::StreamKind;
use graph_core::What;
use launch_text::LineKind;
use script_text::{Reason, ScriptKind};

/// The name of a status. That of status 3 is told by the fault.
pub(crate) fn status_name(status: u8, fault: &Fault) -> &'static str
    ensures { result.now ≡ status_name status fault.now }
{
    match status {
        0 => "Eos",
        1 => "BadWords",
        2 => "BadLine",
        3 => refused_name(fault),
        4 => "LinkRefused",
        5 => "BadScript",
        6 => "OpenFault",
        7 => "ReadFault",
        8 => "WriteFault",
        9 => "BadStream",
        10 => "NotNegotiated",
        11 => "NotLinked",
        12 => "Stalled",
        13 => "OutOfMemory",
        14 => "ReportFault",
        15 => "TooLong",
        _ => "Unknown",
    }
}

/// The name of status 3.
fn refused_name(fault: &Fault) -> &'static str
    ensures { result.now ≡ refused_name fault.now }
{
    match fault {
        Fault::NoSuch { .. } => "NoSuch",
        Fault::BadValue { .. } => "BadValue",
        Fault::NameTaken { .. } => "NameTaken",
        Fault::LocationTaken { .. } => "LocationTaken",
        Fault::TooMany { .. } => "TooMany",
        _ => "Unknown",
    }
}

/// The word for what does not exist. A property is called by its name.
pub(crate) fn what_name(what: &What) -> &str
    ensures { result.now ≡ what_name what.now }
{
    match what {
        What::Kind => "Kind",
        What::Property(property) => property.as_str(),
        What::Element => "Element",
        What::Pad => "Pad",
        What::SrcPad => "SrcPad",
        What::SinkPad => "SinkPad",
        What::Order => "Order",
    }
}

/// The word for what is wrong with a launch line.
pub(crate) fn line_kind_name(kind: LineKind) -> &'static str
    ensures { result.now ≡ line_kind_name kind }
{
    match kind {
        LineKind::EmptyLink => "EmptyLink",
        LineKind::TrailingLink => "TrailingLink",
        LineKind::Unclosed => "Unclosed",
        LineKind::BadRef => "BadRef",
        LineKind::CapsEnd => "CapsEnd",
        LineKind::Deep => "Deep",
        LineKind::Empty => "Empty",
        LineKind::BadName => "BadName",
        LineKind::TooLong => "TooLong",
    }
}

/// The word for what is wrong with a line of a script.
pub(crate) fn script_kind_name(kind: ScriptKind) -> &'static str
    ensures { result.now ≡ script_kind_name kind }
{
    match kind {
        ScriptKind::NotText => "NotText",
        ScriptKind::TooLong => "TooLong",
        ScriptKind::BadWhen => "BadWhen",
        ScriptKind::BadNumber => "BadNumber",
        ScriptKind::BadAct => "BadAct",
        ScriptKind::NeedsPad => "NeedsPad",
        ScriptKind::StrayPad => "StrayPad",
        ScriptKind::Backwards => "Backwards",
        ScriptKind::AtInPause => "AtInPause",
        ScriptKind::EndsPaused => "EndsPaused",
    }
}

/// The word for what is wrong with the bytes of a stream.
pub(crate) fn stream_kind_name(kind: StreamKind) -> &'static str
    ensures { result.now ≡ stream_kind_name kind }
{
    match kind {
        StreamKind::NotRiff => "NotRiff",
        StreamKind::NotWave => "NotWave",
        StreamKind::NoFmt => "NoFmt",
        StreamKind::BadFmt => "BadFmt",
        StreamKind::TagUnknown => "TagUnknown",
        StreamKind::HeadTooLong => "HeadTooLong",
        StreamKind::Short => "Short",
        StreamKind::SplitFrame => "SplitFrame",
        StreamKind::TooLarge => "TooLarge",
    }
}

/// The word for why a command was refused.
pub(crate) fn reason_name(reason: &Reason) -> &'static str
    ensures { result.now ≡ reason_name reason.now }
{
    match reason {
        Reason::NoSuch => "NoSuch",
        Reason::BadValue => "BadValue",
        Reason::NameTaken => "NameTaken",
        Reason::LocationTaken => "LocationTaken",
        Reason::TooMany { .. } => "TooMany",
        Reason::NotPeer => "NotPeer",
        Reason::NotPlain => "NotPlain",
        Reason::AfterEos => "AfterEos",
        Reason::WasLinked => "WasLinked",
        Reason::WouldLoop => "WouldLoop",
        Reason::FedElsewhere => "FedElsewhere",
        Reason::NoFormat => "NoFormat",
        Reason::NotReady { .. } => "NotReady",
        Reason::NotSeekable => "NotSeekable",
        Reason::BeyondEnd => "BeyondEnd",
    }
}
