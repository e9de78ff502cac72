//! Elements that cut a stream of raw audio anew.
#![tactic(auto)]

mod pieces;
mod put_out;
pub mod raw_parse;
pub mod split;
mod timing;
mod waiting;

pub use raw_parse::RawParse;
pub use split::Split;
