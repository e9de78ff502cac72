//! Laws of the bags of a graph. Each function does nothing: its contract is the law.
ghost use Rattle.graph_parts.specs.BagLaws.{BagsAreApart, BagsAreClosed, HeadsHaveBags, LooseHaveBags, BagsAreThere, BagsHavePads};

/// An element of the graph stands in one bag at the most.
pub fn bags_are_apart()
    ensures apart { BagsAreApart }
    ensures there { BagsAreThere }
{}

/// Over no lane an element of a bag leads to elements of that bag alone, and the pads that a bag tells are the graph's.
pub fn bags_are_closed()
    ensures closed { BagsAreClosed }
    ensures pads { BagsHavePads }
{}

/// Each source and each element that is fed from inlets is the head of a bag, so that each lane leads to a head; and so is each loose
/// element, where these have bags.
pub fn heads_have_bags()
    ensures heads { HeadsHaveBags }
    ensures loose { LooseHaveBags }
{}
