//! The moments of a graph's run: their plan, the moment at which the run begins, where source pads lead there, what the
//! rules of its elements owe, and the evaluation of the graph by a moment.
//!
//! The plan of a moment is that of the graph, except that a number without a source pad belongs to no element, and that a
//! sink owes nothing: so an element stands there by its pads alone. At each source pad both plans have the same history.
ghost use Rattle.graph_parts.specs.MomentLaws.{PadsHaveNumbers, NumbersHavePads, TightIsAlike};
ghost use Rattle.graph_parts.specs.MomentLaws.{MomentStarts, MomentStands, SourcesWait, BehaviorsAreTold, MomentGoes, OrdersAreWhole};
ghost use Rattle.graph_parts.specs.MomentLaws.{LinksLead, UnlinkedLead, RulesGoOn, OwesNoneAtFirst, SectionsAreOne, SectionsArePlain, OwesNoneBehind};
ghost use Rattle.graph_parts.specs.MomentLaws.{MomentIsGraph, EndIsGraph};

/// Each source pad of a graph has a number of its own, and each number that belongs to an element is that of a pad.
pub fn pads_have_numbers()
    ensures numbers { PadsHaveNumbers }
    ensures pads { NumbersHavePads }
{}

/// At each source pad the plan of a moment and that of the graph have the same history, cut at the counts or whole.
pub fn plans_are_alike()
    ensures { TightIsAlike }
{}

/// When the run of a graph begins nothing was done to it, every element stands, and at the pad of each source waits what
/// it is to give.
pub fn runs_begin()
    ensures untouched { MomentStarts }
    ensures standing { MomentStands }
    ensures waiting { SourcesWait }
{}

/// At a moment an element that is no source does what its settings say: it owes by their rule, and answers to one item more
/// as they do. So the moment of a run tells the fault of an element at an item.
pub fn behaviors_are_told()
    ensures { BehaviorsAreTold }
{}

/// The order of a graph has each of its elements, and in it each link of a moment's plan goes forward.
pub fn orders_go_forward()
    ensures whole { OrdersAreWhole }
    ensures forward { MomentGoes }
{}

/// A source pad leads to the sink pad that it is linked to, and nowhere where it is not linked.
pub fn links_lead()
    ensures linked { LinksLead }
    ensures unlinked { UnlinkedLead }
{}

/// For whatever an element took it owes in sections without FLUSH_STOP and with nothing behind an EOS, and nothing for nothing.
/// Where no link makes a sink pad of it, that begins what it owes for more.
pub fn rules_owe()
    ensures in_order { RulesGoOn }
    ensures first { OwesNoneAtFirst }
    ensures sections { SectionsAreOne }
    ensures sections_plain { SectionsArePlain }
    ensures behind { OwesNoneBehind }
{}

/// The histories of a moment are those of the evaluation of the graph: cut at their lengths at any moment, also behind a
/// fault, and whole where every element stands and nothing waits.
pub fn moments_are_of_the_graph()
    ensures running { MomentIsGraph }
    ensures ended { EndIsGraph }
{}
