//! Laws of the ends of a graph's elements. Each function does nothing: its contract is the law.
ghost use Rattle.graph_parts.specs.Files.{AllArePresent, EndsStayOpened, HaveOneWriter, KnownArePresent, NoSinkIsAt, OneSinkIsAt, WritersReadNot};

use gst_outside::Files;

/// A location that an element of a line writes is opened by no other element of that line, neither to write it nor to
/// read it.
pub fn locations_have_one_writer()
    ensures writers { HaveOneWriter }
    ensures readers { WritersReadNot }
{}

/// Of ends that are where they were opened, one is a sink at a location that an element writes, and none at another.
/// Each end that is known of an element is among those that are there, and there are as many as were opened.
pub fn ends_are_where_they_were_opened()
    ensures one_sink { OneSinkIsAt }
    ensures no_sink { NoSinkIsAt }
    ensures is_present { KnownArePresent }
    ensures same_count { AllArePresent }
{}

/// Where the ends that openings give were opened by some files, so were ends that are where these were opened.
pub fn ends_stay_opened<F: Files>()
    ensures { (files : F) → EndsStayOpened (F.opened files) }
{}
