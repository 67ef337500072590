//! What came of messages.
use crate::lane::Lane;
use omission_explainer::ReportRow;

/// What came of the message of a sender to a node in a round that the node closed.
#[derive(Clone, Copy, PartialEq, Eq, Debug)]
pub(crate) enum Hearing {
    Heard,
    Omitted,
    /// The sender had no message.
    Silent,
    /// The sender stopped in an earlier round.
    Gone,
}

impl Hearing {
    /// What came of the message of the node on this lane, by the row of its receiver.
    pub(crate) fn of(row: &ReportRow, sender: &Lane) -> Hearing {
        if row.heard.contains(sender.node) {
            return Hearing::Heard;
        }
        if row.silent.contains(sender.node) {
            return Hearing::Silent;
        }
        if sender.closed.saturating_add(1) < u64::from(row.round) {
            return Hearing::Gone;
        }
        Hearing::Omitted
    }
}
