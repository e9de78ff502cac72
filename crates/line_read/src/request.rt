//! A run for which words ask.
use graph_core::Graph;
use gst_value::Text;

/// A run for which words ask.
#[derive(Drop)]
pub struct Request {
    /// The location of the script's file, where the words name one.
    pub script: Option<Text>,
    /// Whether tasks are to have threads of their own.
    pub threads: bool,
    /// The number from which the turns of tasks without threads are drawn.
    pub order: u64,
    /// Whether the report is to be short.
    pub quiet: bool,
    /// The graph of the line.
    pub graph: Graph,
}
