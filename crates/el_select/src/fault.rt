//! Why a pad is not selected.
use gst_value::OutOfMemory;
use thiserror::Error;

/// Why a pad is not selected.
#[derive(Error, Debug, Clone, Copy, PartialEq, Eq)]
pub enum SelectFault {
    /// EOS was passed on since the last flush.
    #[error("the selector has passed EOS on")]
    AfterEos,
    /// Memory is wanting.
    #[error("out of memory")]
    OutOfMemory,
}

impl From<OutOfMemory> for SelectFault {
    ghost use Rattle.std.specs.Prelude.{◌≡◌};
    ghost use Rattle.el_select.specs.declared.fault.SelectFault.TheVariants.{OutOfMemory as NoMemory};

    ghost from_gives = { λ _ fault. fault ≡ NoMemory };

    fn from(_refused: OutOfMemory) -> SelectFault {
        SelectFault::OutOfMemory
    }
}
