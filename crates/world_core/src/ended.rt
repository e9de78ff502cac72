//! How a run ended.
use run_report::Report;

/// How a run of a line ended: the status of its report, and the report.
#[derive(Drop)]
pub struct WorldEnd {
    pub status: u8,
    pub report: Report,
}
