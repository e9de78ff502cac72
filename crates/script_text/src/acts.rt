//! What acts a run can do.
ghost use Rattle.std.specs.Prelude.{◌≡◌};
ghost use Rattle.script_text.specs.Commands.{does};

use crate::command::Act;

/// What acts a run can do. A line that says another one is `BadAct`.
#[derive(Clone, Copy, Debug, PartialEq, Eq)]
pub struct Acts {
    pub relink: bool,
    pub unlink: bool,
    pub add: bool,
    pub remove: bool,
}

impl Acts {
    /// Every act that there is.
    pub const ALL: Acts = Acts {
        relink: true,
        unlink: true,
        add: true,
        remove: true,
    };

    /// No act.
    pub const NONE: Acts = Acts {
        relink: false,
        unlink: false,
        add: false,
        remove: false,
    };

    /// Whether the act is one of them.
    pub(crate) fn does(self, act: &Act) -> bool
        ensures { result ≡ does self act.now }
    {
        match act {
            Act::Relink { .. } => self.relink,
            Act::Unlink { .. } => self.unlink,
            Act::Add { .. } => self.add,
            Act::Remove { .. } => self.remove,
        }
    }
}
