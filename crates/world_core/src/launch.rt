//! The top call.
ghost use Rattle.std.specs.Prelude.{◌≡◌, ◌≢◌, ◌<◌, ◌⊎◌, ◌^◌, ℕ, All, false, true, List, [], map, string_bytes, OnOk, OnErr};
ghost use Rattle.edit_core.specs.Deciding.{names_its_pad};
ghost use Rattle.gst_outside.specs.Causes.{Rose};
ghost use Rattle.run_report.specs.ReportText.{report_lines};
ghost use Rattle.turn_order.specs.declared.order.Order.TheVariants as orders;
ghost use Rattle.world_core.specs.Turned.{RanByTurns};
ghost use Rattle.world_core.specs.World.{IsBuilt, IsUnwritten};
ghost use Rattle.run_report.specs.declared.report.Fault.TheVariants as faults;
ghost use Rattle.world_core.specs.declared.launch.Untaken.TheVariants.{NotText};
ghost use Rattle.world_core.specs.Headline.{EndsBy, HasGone, HasRun, IsReported, IsRun, IsUntouched, Wrote, WrotePart, is_quiet, world_end};

use crate::outcome::{Outcome, report_text};
use crate::{WorldEnd, run_script, run_turns};
use flow_model::{TaskElement, TaskSource};
use gst_outside::{Clock, Failed, Files, Sink, TaskGate};
use gst_value::{List, OutOfMemory};
use lane_core::{Inlet, MemInlet, MemOutlet, Outlet};
use line_read::{Refusal, Request, read_commands, read_request};
use run_report::{Fault, Report, no_memory};
use script_text::Command;
use std::alloc::Global;
use std::sync::Wait;
use std::thread::Threads;
use task_elements::{StreamElement, StreamSource};
use turn_order::Order;

const BAD_WORDS: u8 = 1;

const OUT_OF_MEMORY: u8 = 13;

const REPORT_FAULT: u8 = 14;

/// How a call ended, and whether its report is to be short.
struct Ended {
    end: WorldEnd,
    quiet: bool,
}

/// The end of a call that ran no line.
fn not_begun(alloc: Global, refusal: Refusal) -> WorldEnd
    ensures status { result.status ≡ refusal.status }
    ensures fault { result.report.fault ≡ refusal.fault }
    ensures entries { result.report.entries ≡ [] }
    ensures pads { result.report.pads ≡ [] }
    ensures sinks { result.report.sinks ≡ [] }
{
    WorldEnd {
        status: refusal.status,
        report: Report {
            entries: List::new(alloc),
            pads: List::new(alloc),
            sinks: List::new(alloc),
            fault: refusal.fault,
        },
    }
}

/// Runs the line of a request by turns that are drawn from its order, as these commands edit it.
fn run_commands<F: Files>(
    alloc: Global,
    request: Request,
    commands: List<Command>,
    files: &mut F,
) -> WorldEnd
    requires built { IsBuilt request.graph }
    ensures ended { result.status ≢ 13 → All (λ c. names_its_pad c ≡ true) commands
        → EndsBy request.graph commands (F.seen files.old) (F.seen files.new) result }
    ensures turned { result.status ≢ 13 → result.status ≢ 6 → commands ≡ []
        → RanByTurns ⟦<StreamSource<F::Src> as TaskSource>⟧ ⟦<StreamElement<F::Snk> as TaskElement>⟧ ⟦<MemInlet as Inlet>⟧ ⟦<MemOutlet as Outlet>⟧
        F.Src.Source F.Snk.Sink request.graph (orders.Drawn request.order) (F.seen files.old) result }
    ensures status { result.status ≢ 14 }
    ensures given_back { (F.seen files.old).ends < 2 ^ 63 → (F.seen files.new).ends ≡ (F.seen files.old).ends }
    ensures inputs { (l : List ℕ) → (F.seen files.new).input l ≡ (F.seen files.old).input l }
    ensures others { (l : List ℕ) → IsUnwritten request.graph l → (F.seen files.new).output l ≡ (F.seen files.old).output l }
{
    let order = Order::Drawn(request.order);
    if commands.as_slice().is_empty() {
        return run_turns(alloc, request.graph, files, order);
    }
    run_script(alloc, request.graph, commands, files, order)
}

/// Reads the script of a request and runs its line, by turns that are drawn from the order of the words.
fn run_request<F: Files>(alloc: Global, request: Request, files: &mut F) -> WorldEnd
    requires built { IsBuilt request.graph }
    ensures reported { result.status ≢ 13 → IsRun request (F.seen files.old) (F.seen files.new) result }
    ensures turned { result.status ≢ 13 → result.status ≢ 6 → HasRun request (F.seen files.old) (F.seen files.new) (λ begun.
        RanByTurns ⟦<StreamSource<F::Src> as TaskSource>⟧ ⟦<StreamElement<F::Snk> as TaskElement>⟧ ⟦<MemInlet as Inlet>⟧ ⟦<MemOutlet as Outlet>⟧
        F.Src.Source F.Snk.Sink request.graph (orders.Drawn request.order) begun result) }
    ensures status { result.status ≢ 14 }
    ensures given_back { (F.seen files.old).ends < 2 ^ 63 → (F.seen files.new).ends ≡ (F.seen files.old).ends }
    ensures inputs { (l : List ℕ) → (F.seen files.new).input l ≡ (F.seen files.old).input l }
    ensures others { (l : List ℕ) → IsUnwritten request.graph l → (F.seen files.new).output l ≡ (F.seen files.old).output l }
{
    match read_commands(alloc, &request, files) {
        Ok(commands) => run_commands(alloc, request, commands, files),
        Err(refusal) => not_begun(alloc, refusal),
    }
}

/// Reads the words and runs their line, by turns that are drawn from the order of the words.
fn run_words<F: Files>(alloc: Global, words: &[String], files: &mut F) -> Ended
    ensures reported { result.end.status ≢ 13 → IsReported (map string_bytes words.now) (F.seen files.old) (F.seen files.new) result.end }
    ensures turned { result.end.status ≢ 13 → result.end.status ≢ 6
        → HasGone (map string_bytes words.now) (F.seen files.old) (F.seen files.new) (λ request begun.
        RanByTurns ⟦<StreamSource<F::Src> as TaskSource>⟧ ⟦<StreamElement<F::Snk> as TaskElement>⟧ ⟦<MemInlet as Inlet>⟧ ⟦<MemOutlet as Outlet>⟧
        F.Src.Source F.Snk.Sink request.graph (orders.Drawn request.order) begun result.end) }
    ensures status { result.end.status ≢ 14 }
    ensures text { report_lines result.end.status result.quiet result.end.report
        ≡ report_lines result.end.status (is_quiet (map string_bytes words.now)) result.end.report }
    ensures given_back { (F.seen files.old).ends < 2 ^ 63 → (F.seen files.new).ends ≡ (F.seen files.old).ends }
    ensures inputs { (l : List ℕ) → (F.seen files.new).input l ≡ (F.seen files.old).input l }
    ensures others { (l : List ℕ) → IsUntouched (map string_bytes words.now) l → (F.seen files.new).output l ≡ (F.seen files.old).output l }
{
    match read_request(alloc, words) {
        Ok(request) => Ended {
            quiet: request.quiet,
            end: run_request(alloc, request, files),
        },
        Err(refusal) => Ended {
            end: not_begun(alloc, refusal),
            quiet: false,
        },
    }
}

/// Writes a text from place 0 on.
fn write_text<O: Sink>(out: &mut O, text: &[u8]) -> Result<(), Failed>
    ensures whole { OnOk result (Wrote text.now (O.bytes out.old) (O.bytes out.new)) }
    ensures part { OnErr result (WrotePart text.now (O.bytes out.old) (O.bytes out.new)) }
    ensures cause { OnErr result (Rose (O.faults out.old) (O.faults out.new)) }
{
    let mut done = 0;
    while done < text.len() {
        done += out.write_at(done as u64, &text[done..])?;
    }
    Ok(())
}

/// Writes the text of an outcome. Where there is no memory for it the outcome is that.
fn write_report<O: Sink>(
    alloc: Global,
    outcome: &mut Outcome,
    quiet: bool,
    out: &mut O,
) -> Result<(), Failed>
    ensures whole { OnOk result (Wrote (report_lines outcome.new.reported quiet outcome.new.report) (O.bytes out.old) (O.bytes out.new)) }
    ensures part { OnErr result (WrotePart (report_lines outcome.new.reported quiet outcome.new.report) (O.bytes out.old) (O.bytes out.new)) }
    ensures cause { OnErr result (Rose (O.faults out.old) (O.faults out.new)) }
    ensures stays { outcome.new.reported ≢ 13 → outcome.new ≡ outcome.old }
    ensures status { outcome.old.status ≡ outcome.old.reported → outcome.new.status ≡ outcome.new.reported }
    ensures before { outcome.new.out_before ≡ outcome.old.out_before }
{
    match report_text(alloc, outcome, quiet) {
        Ok(text) => write_text(out, text.as_str().as_bytes()),
        Err(OutOfMemory) => {
            outcome.status = OUT_OF_MEMORY;
            outcome.reported = OUT_OF_MEMORY;
            write_text(out, no_memory().as_bytes())
        }
    }
}

/// Writes the report of an end, and gives the outcome of the call.
fn tell<O: Sink>(alloc: Global, ended: Ended, out: &mut O) -> Outcome
    requires { ended.end.status ≢ 14 }
    ensures before { result.out_before ≡ O.faults out.old }
    ensures after { result.out_after ≡ O.faults out.new }
    ensures reported { result.reported ≢ 13 → world_end result ≡ ended.end }
    ensures status { (result.status ≡ result.reported) ⊎ ((result.status ≡ 14) × Rose (O.faults out.old) (O.faults out.new)) }
    ensures whole { result.status ≢ 14 → Wrote (report_lines result.reported ended.quiet result.report) (O.bytes out.old) (O.bytes out.new) }
    ensures part { result.status ≡ 14 → WrotePart (report_lines result.reported ended.quiet result.report) (O.bytes out.old) (O.bytes out.new) }
{
    let Ended { end, quiet } = ended;
    let out_before = out.faults();
    let mut outcome = Outcome {
        status: end.status,
        reported: end.status,
        out_before,
        out_after: out_before,
        report: end.report,
    };
    match write_report(alloc, &mut outcome, quiet, out) {
        Ok(()) => {
            outcome.out_after = out.faults();
            outcome
        }
        Err(Failed) => {
            outcome.status = REPORT_FAULT;
            outcome.out_after = out.faults();
            outcome
        }
    }
}

/// Why a program's words could not be taken from the system.
pub enum Untaken {
    /// One of them is no text in UTF-8.
    NotText,
    /// There is no memory for them.
    OutOfMemory,
}

/// What words that could not be taken are refused with: such words are none that the command takes.
fn untaken_refusal(untaken: Untaken) -> Refusal
    ensures text { untaken ≡ NotText → (result.status ≡ 1) × (result.fault ≡ faults.Words) }
    ensures memory { untaken ≢ NotText → result.status ≡ 13 }
{
    match untaken {
        Untaken::NotText => Refusal {
            status: BAD_WORDS,
            fault: Fault::Words,
        },
        Untaken::OutOfMemory => Refusal {
            status: OUT_OF_MEMORY,
            fault: Fault::Nothing,
        },
    }
}

/// Writes the report of a call whose words could not be taken: that of words that the command does not take, or that of
/// want of memory.
pub fn refuse<O: Sink>(alloc: Global, untaken: Untaken, out: &mut O) -> Outcome
    ensures refused { result.reported ≢ 13 → (untaken ≡ NotText) × (result.reported ≡ 1) × (result.report.fault ≡ faults.Words) }
    ensures counts { result.reported ≢ 13 → (result.report.entries ≡ []) × (result.report.pads ≡ []) × (result.report.sinks ≡ []) }
    ensures status { (result.status ≡ result.reported) ⊎ ((result.status ≡ 14) × Rose result.out_before result.out_after) }
    ensures before { result.out_before ≡ O.faults out.old }
    ensures after { result.out_after ≡ O.faults out.new }
    ensures text { result.status ≢ 14 → Wrote (report_lines result.reported false result.report) (O.bytes out.old) (O.bytes out.new) }
    ensures text_part { result.status ≡ 14 → WrotePart (report_lines result.reported false result.report) (O.bytes out.old) (O.bytes out.new) }
{
    let end = not_begun(alloc, untaken_refusal(untaken));
    tell(alloc, Ended { end, quiet: false }, out)
}

/// Runs the launch line that the words spell, and writes its report to `out`.
///
/// The words are `[--script FILE] [--threads on|off] [--order N] [--quiet] WORD...`. The WORDs are joined by one space
/// each, and a space inside of a WORD gets a backslash. The tasks take turns on one thread, drawn from N, with both
/// values of `--threads`. The script is read behind the line's graph, before a file of the line is opened. Of its acts
/// `relink`, `unlink`, `unlink eos` and `remove` are done; `add` and each other one is refused with status 5, and its line is
/// named.
///
/// The status is that of the run, which is 12 where no task can go on and the next command waits, or tasks do. It is 1 where
/// the words are not taken or have no line, 2 where they spell no line, 3 and 4 where the line has no graph, 5 where the
/// script's text is none, 6 and 7 where its file could not be opened or read, 13 where memory is wanting, and 14 where the
/// report could not be written; `reported` is then the status whose place 14 took.
pub fn run<H: Threads + Wait + Copy + Send + 'static, F: Files, C: Clock, G: TaskGate, O: Sink>(
    _rt: &H,
    alloc: Global,
    words: &[String],
    files: &mut F,
    _clock: &mut C,
    _gate: &G,
    out: &mut O,
) -> Outcome
    ensures headline { result.reported ≢ 13
        → IsReported (map string_bytes words.now) (F.seen files.old) (F.seen files.new) (world_end result) }
    ensures turned { result.reported ≢ 13 → result.reported ≢ 6
        → HasGone (map string_bytes words.now) (F.seen files.old) (F.seen files.new) (λ request begun.
        RanByTurns ⟦<StreamSource<F::Src> as TaskSource>⟧ ⟦<StreamElement<F::Snk> as TaskElement>⟧ ⟦<MemInlet as Inlet>⟧ ⟦<MemOutlet as Outlet>⟧
        F.Src.Source F.Snk.Sink request.graph (orders.Drawn request.order) begun (world_end result)) }
    ensures status { (result.status ≡ result.reported) ⊎ ((result.status ≡ 14) × Rose result.out_before result.out_after) }
    ensures before { result.out_before ≡ O.faults out.old }
    ensures after { result.out_after ≡ O.faults out.new }
    ensures text { result.status ≢ 14
        → Wrote (report_lines result.reported (is_quiet (map string_bytes words.now)) result.report) (O.bytes out.old) (O.bytes out.new) }
    ensures text_part { result.status ≡ 14
        → WrotePart (report_lines result.reported (is_quiet (map string_bytes words.now)) result.report) (O.bytes out.old) (O.bytes out.new) }
    ensures clock { C.reads _clock.new ≡ C.reads _clock.old }
    ensures given_back { (F.seen files.old).ends < 2 ^ 63 → (F.seen files.new).ends ≡ (F.seen files.old).ends }
    ensures inputs { (l : List ℕ) → (F.seen files.new).input l ≡ (F.seen files.old).input l }
    ensures others { (l : List ℕ) → IsUntouched (map string_bytes words.now) l → (F.seen files.new).output l ≡ (F.seen files.old).output l }
{
    let ended = run_words(alloc, words, files);
    tell(alloc, ended, out)
}
