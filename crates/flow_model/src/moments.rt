//! The middle of a run as a moment, by the numbers of elements and source pads, and the laws of what moves it.
//!
//! A moment is the graph with all that was done to it, what crossed each source pad, what each element took, and what
//! waits at pads and in inlets. An element stands there where all that it owes for what it took has crossed or waits, and
//! all that its links gave it was taken or waits in its inlets. A step of a task is one move of the moment, and an act of
//! control is one function of it; each keeps every element standing, also in other tasks. Where all elements stand, the
//! histories are those of the evaluation of the graph.
//!
//! What a task asks of the elements and of the source that it moves items between stands here as traits.

ghost use Rattle.flow_model.specs.Pad.{SourceEnds};
ghost use Rattle.flow_model.specs.Step.{PassingKeeps, SendingKeeps, LeavingKeeps, TakingKeeps};
ghost use Rattle.flow_model.specs.Edit.{UnlinkingKeeps, LinkingKeeps, LinkingOverKeeps, ActingKeeps, EndingKeeps, EndingOverKeeps};
ghost use Rattle.flow_model.specs.Seek.{SeekingKeeps};
ghost use Rattle.flow_model.specs.Single.{SingleInOrder, SingleGrows, SingleEnds};
ghost use Rattle.flow_model.specs.Opening.{OpeningStands};
ghost use Rattle.flow_model.specs.Whole.{StandingBegins, FaultBegins, MomentIsEval, FaultIsEval, EndIsWhole};
ghost use Rattle.flow_model.specs.Over.{EosComes};
ghost use Rattle.flow_model.specs.Kept.{FaultKept, OthersMayMove, TasksTogether};

/// When a run begins every element stands, in each graph to which nothing was done.
///
/// Nothing has crossed a pad, and at the pad of a source all waits that the source is to give.
pub fn openings_stand()
    ensures { OpeningStands }
{}

/// Where an element stands, all is there that the evaluation needs of it, also behind a fault that gave up what waited
/// at its pads or stood in its inlets.
///
/// The rule of the element has to owe for what it took a beginning of what it owes for more.
pub fn elements_begin()
    ensures standing { StandingBegins }
    ensures behind_fault { FaultBegins }
{}

/// At any moment the histories are those of the evaluation of the graph, cut at their lengths.
///
/// It needs of each element only that what crossed its pads is what it owes for what it took, and that it took
/// beginnings of what its links give. So it holds behind a fault too, whatever the fault gave up.
pub fn moments_are_eval()
    ensures running { MomentIsEval }
    ensures behind_fault { FaultIsEval }
{}

/// Where nothing waits at a pad and nothing stands in an inlet, the histories are those of the whole evaluation, and
/// each element, a sink too, took all that it is given there.
pub fn ends_are_whole()
    ensures { EndIsWhole }
{}

/// What a task tells of its elements stays, whatever other tasks do.
pub fn others_may_move()
    ensures { OthersMayMove }
{}

/// A task that kept its elements keeps what crossed their pads and what they took behind a fault, whatever it gave up.
pub fn faults_keep()
    ensures { FaultKept }
{}

/// Tasks that ran beside each other make one moment.
///
/// Where each task keeps its elements, and the head of each took beginnings of what its links give, what is needed of
/// each element for the evaluation holds at the moment of all of them.
pub fn tasks_come_together()
    ensures { TasksTogether }
{}

/// Each move of a run keeps every element standing.
///
/// An item crosses a pad inside a task, into a lane or to nobody, and the head of a task takes from an inlet.
pub fn steps_keep()
    ensures passing { PassingKeeps }
    ensures sending { SendingKeeps }
    ensures leaving { LeavingKeeps }
    ensures taking { TakingKeeps }
{}

/// Each act of control keeps every element standing.
///
/// A link is undone or made, inside a task or over a lane; it is undone with EOS; the element behind it is drained or
/// set; and a seek flushes the graph.
pub fn acts_keep()
    ensures unlinking { UnlinkingKeeps }
    ensures linking { LinkingKeeps }
    ensures linking_over { LinkingOverKeeps }
    ensures acting { ActingKeeps }
    ensures ending { EndingKeeps }
    ensures ending_over { EndingOverKeeps }
    ensures seeking { SeekingKeeps }
{}

/// When a run is over, EOS has come to each sink pad of each live element.
pub fn eos_comes()
    ensures { EosComes }
{}

/// An element with one sink pad meets what the moves and a seek ask of its rule.
///
/// What it puts out for more calls is what it owes more in its last section, a flush ends that section and owes nothing
/// anew, and for what it took it owes a beginning of what it owes for more.
pub fn single_elements_owe()
    ensures in_order { SingleInOrder }
    ensures fed { SingleGrows }
    ensures flushed { SingleEnds }
{}

/// A source meets what a seek asks of its rule, where it owes the sections so far as before and one more.
pub fn sources_owe()
    ensures { SourceEnds }
{}
