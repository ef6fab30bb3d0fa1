//! What holds of each row that a gauge reads.
use q_device::{Row, Totals};

/// The row of a device at which nothing has arrived.
pub const NO_ROW: Row = Row {
    arrived: NONE,
    sent: NONE,
    refused: NONE,
    dropped: NONE,
    queued: NONE,
    marked: NONE,
};

const NONE: Totals = Totals {
    packets: 0,
    bytes: 0,
};

/// Whether arrived is sent, refused, dropped and queued together, in packets and in bytes.
pub fn is_balanced(row: &Row) -> bool {
    let packets = row
        .sent
        .packets
        .saturating_add(row.refused.packets)
        .saturating_add(row.dropped.packets)
        .saturating_add(row.queued.packets);
    let bytes = row
        .sent
        .bytes
        .saturating_add(row.refused.bytes)
        .saturating_add(row.dropped.bytes)
        .saturating_add(row.queued.bytes);
    row.arrived == Totals { packets, bytes }
}

/// Whether nothing that a row counts is less than in the row before; what is queued may be.
pub fn is_not_lower(before: &Row, row: &Row) -> bool {
    reaches(&row.arrived, &before.arrived)
        && reaches(&row.sent, &before.sent)
        && reaches(&row.refused, &before.refused)
        && reaches(&row.dropped, &before.dropped)
        && reaches(&row.marked, &before.marked)
}

fn reaches(totals: &Totals, before: &Totals) -> bool {
    totals.packets >= before.packets && totals.bytes >= before.bytes
}
