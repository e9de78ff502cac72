//! Words ask for one run, or are refused for one fault.
ghost use Rattle.line_read.specs.Laws.{NeverBoth, OneRefusal, OneRequest};

/// Words ask for a run or are refused and not both, and of either they have one. So `read_request` gives a run exactly
/// where the words ask for one, and a refusal exactly where it is theirs, unless memory is wanting.
pub fn one_answer()
    ensures both { NeverBoth }
    ensures refusal { OneRefusal }
    ensures request { OneRequest }
{
    graph_core::one_answer();
}
