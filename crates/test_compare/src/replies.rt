//! Replies that are the same.

use base_values::Row;
use server_model::Reply;

/// Whether two lists have the same rows.
fn are_the_same_rows(rows: &[Row], others: &[Row]) -> bool {
    rows.len() == others.len()
        && rows
            .iter()
            .zip(others)
            .all(|(row, other)| row.cmp(other).is_eq())
}

fn is_the_same(reply: &Reply, other: &Reply) -> bool {
    match (reply, other) {
        (Reply::Ok(count), Reply::Ok(other)) => count == other,
        (Reply::Error(number), Reply::Error(other)) => number == other,
        (Reply::Rows(rows), Reply::Rows(others)) => {
            are_the_same_rows(rows.as_slice(), others.as_slice())
        }
        _ => false,
    }
}

/// Whether two lists have the same replies.
pub(crate) fn are_the_same(replies: &[Reply], others: &[Reply]) -> bool {
    replies.len() == others.len()
        && replies
            .iter()
            .zip(others)
            .all(|(reply, other)| is_the_same(reply, other))
}
