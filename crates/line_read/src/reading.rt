//! Reads a program's words, the line that they make, and its graph.
ghost use Rattle.std.specs.Prelude.{◌≡◌, ◌≢◌, map, IfOk, IfErr};
ghost use Rattle.std.specs.String.{string_bytes};
ghost use Rattle.line_read.specs.Requests.{IsRequest};
ghost use Rattle.line_read.specs.Refusals.{IsRefusal, IsRefusalStatus};

use crate::refusal::Refusal;
use crate::request::Request;
use graph_core::build;
use launch_text::parse;
use run_report::Fault;
use run_words::read_words;
use std::alloc::Global;

/// The run for which the program's words ask, which do not have its name among them. The words are read, then the text
/// of the line that they make, and then its graph is built; the first fault is answered.
pub fn read_request(alloc: Global, words: &[String]) -> Result<Request, Refusal>
    ensures request { IfOk result (IsRequest (map string_bytes words.now)) }
    ensures refusal { IfErr result (λ refusal. refusal.status ≢ 13 → IsRefusal (map string_bytes words.now) refusal) }
    ensures statuses { IfErr result (λ refusal. IsRefusalStatus refusal.status) }
    ensures memory { IfErr result (λ refusal. refusal.status ≡ 13 → refusal.fault ≡ Fault.Nothing) }
{
    let options = read_words(alloc, words)?;
    let tree = parse(alloc, options.line.as_str())?;
    let graph = build(alloc, &tree)?;
    Ok(Request {
        script: options.script,
        threads: options.threads,
        order: options.order,
        quiet: options.quiet,
        graph,
    })
}
