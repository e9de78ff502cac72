//! What holds of the stops of a script.
ghost use Rattle.script_probes.specs.Laws.{OneStop, StandsLater};

/// At each pad one probe is next, or none. What stands for commands when some are answered does so when more are.
pub fn one_stop()
    ensures one { OneStop }
    ensures later { StandsLater }
{}
