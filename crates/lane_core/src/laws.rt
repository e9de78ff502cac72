//! Laws of lanes that a table tells. Each function does nothing: its contract is the law.
ghost use Rattle.lane_core.specs.Laws.{PutKeepsBetween, TakeKeepsBetween, MeetKeepsBetween, PutKeepsOthers, TakeKeepsOthers, MeetKeepsOthers, NewLaneKeepsOthers, NewLaneKeepsRoom, NewLaneKeepsLanes, NewLaneIsEmpty, NewLaneHasRoom, NewLaneIsApart, PutKeepsLanes, TakeKeepsLanes, MeetKeepsLanes, PutKeepsRoom, PutKeepsOtherRoom, TakeKeepsRoom, MeetKeepsRoom, PutByLane, EmptyByLane};

/// After a put, what was sent is still what was received and then what the lane holds.
pub fn put_keeps_between()
    ensures { PutKeepsBetween }
{}

/// After a take, what was sent is still what was received and then what the lane holds.
pub fn take_keeps_between()
    ensures { TakeKeepsBetween }
{}

/// After a meeting, what was received is what was sent, and the lane is empty.
pub fn meet_keeps_between()
    ensures { MeetKeepsBetween }
{}

/// A put changes no other lane.
pub fn put_keeps_others()
    ensures { PutKeepsOthers }
{}

/// A take changes no other lane.
pub fn take_keeps_others()
    ensures { TakeKeepsOthers }
{}

/// A meeting changes no other lane.
pub fn meet_keeps_others()
    ensures { MeetKeepsOthers }
{}

/// A new lane changes no other.
pub fn new_lane_keeps_others()
    ensures { NewLaneKeepsOthers }
{}

/// With a new lane, each other has its room and holds no more than were sent.
pub fn new_lane_keeps_room()
    ensures { NewLaneKeepsRoom }
{}

/// A new lane takes no lane from the table.
pub fn new_lane_keeps_lanes()
    ensures { NewLaneKeepsLanes }
{}

/// The place of a new lane is no earlier lane's.
pub fn new_lane_is_apart()
    ensures { NewLaneIsApart }
{}

/// A new lane has its room.
pub fn new_lane_has_room()
    ensures { NewLaneHasRoom }
{}

/// A new lane stands between empty lists.
pub fn new_lane_is_empty()
    ensures { NewLaneIsEmpty }
{}

/// A put takes no lane from the table.
pub fn put_keeps_lanes()
    ensures { PutKeepsLanes }
{}

/// A take takes no lane from the table.
pub fn take_keeps_lanes()
    ensures { TakeKeepsLanes }
{}

/// A meeting takes no lane from the table.
pub fn meet_keeps_lanes()
    ensures { MeetKeepsLanes }
{}

/// After a put, a lane has its room and holds no more than were sent.
pub fn put_keeps_room()
    ensures { PutKeepsRoom }
{}

/// After a put, each other lane has its room and holds no more than were sent.
pub fn put_keeps_other_room()
    ensures { PutKeepsOtherRoom }
{}

/// After a take, each lane has its room and holds no more than were sent.
pub fn take_keeps_room()
    ensures { TakeKeepsRoom }
{}

/// After a meeting, each lane has its room and holds no more than were sent.
pub fn meet_keeps_room()
    ensures { MeetKeepsRoom }
{}

/// By the lane itself: an item is stored where it holds fewer than its limit, and else comes back.
pub fn put_by_lane()
    ensures { PutByLane }
{}

/// By the lane itself: a refused take found no item in it.
pub fn empty_by_lane()
    ensures { EmptyByLane }
{}
