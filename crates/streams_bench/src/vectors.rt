//! The vectors: texts that the layer has to compute, and how it computes them.
ghost use Rattle.std.specs.Prelude.{◌≡◌, ◌+◌, IfOk, OnOk, vec_len};

pub mod autoclaim;
pub mod info;
pub mod pending;
pub mod rows;
pub mod status;

use redis_streams::{
    StreamAutoClaimReply, StreamClaimReply, StreamInfoConsumersReply, StreamInfoGroupsReply,
    StreamInfoStreamReply, StreamInfoStreamReplyWithIdempotency, StreamPendingCountReply,
    StreamPendingReply, StreamRangeReply, StreamReadReply, XAckDelStatusCode, XDelExStatusCode,
};
use std::alloc::{AllocError, Global};
use test_notation::vectors::config::push_config_rows;
use test_notation::vectors::options::{add, claim, config, read, trim};
use test_notation::vectors::{Row, push_options_rows, push_reply_rows};

/// Returns a row for each vector, in ascending order. It fails only if memory runs out.
pub fn vector_rows(alloc: Global) -> Result<Vec<Row>, AllocError>
    ensures { IfOk result (λ rows. vec_len rows ≡ 89) }
{
    let mut rows = Vec::new(alloc);
    push_options(alloc, &mut rows)?;
    push_replies(alloc, &mut rows)?;
    push_keyword_options(alloc, &mut rows)?;
    push_odd_replies(alloc, &mut rows)?;
    Ok(rows)
}

/// Adds the vectors of options, v01 to v35.
fn push_options(alloc: Global, rows: &mut Vec<Row>) -> Result<(), AllocError>
    ensures { OnOk result (vec_len rows.new ≡ vec_len rows.old + 35) }
{
    push_options_rows(alloc, rows, &trim::trim_vectors(alloc)?)?;
    push_options_rows(alloc, rows, &trim::maxlen_vectors())?;
    push_options_rows(alloc, rows, &add::trimmed_vectors())?;
    push_options_rows(alloc, rows, &add::idempotent_vectors(alloc)?)?;
    push_options_rows(alloc, rows, &add::full_vectors(alloc)?)?;
    push_config_rows(alloc, rows, &config::accepted_vectors())?;
    push_config_rows(alloc, rows, &config::refused_vectors())?;
    push_options_rows(alloc, rows, &claim::autoclaim_vectors())?;
    push_options_rows(alloc, rows, &claim::claim_vectors(alloc)?)?;
    push_options_rows(alloc, rows, &read::read_vectors(alloc)?)?;
    push_options_rows(alloc, rows, &read::nack_vectors())
}

/// Adds the vectors of options whose texts spell keywords, or whose names are odd, v66 to v69.
fn push_keyword_options(alloc: Global, rows: &mut Vec<Row>) -> Result<(), AllocError>
    ensures { OnOk result (vec_len rows.new ≡ vec_len rows.old + 4) }
{
    push_options_rows(alloc, rows, &add::keyword_vectors(alloc)?)?;
    push_options_rows(alloc, rows, &claim::keyword_vectors(alloc)?)?;
    push_options_rows(alloc, rows, &read::names_vectors(alloc)?)
}

/// Adds the vectors of replies, v36 to v65.
fn push_replies(alloc: Global, rows: &mut Vec<Row>) -> Result<(), AllocError>
    ensures { OnOk result (vec_len rows.new ≡ vec_len rows.old + 30) }
{
    push_reply_rows::<StreamRangeReply>(alloc, rows, &rows::range_vectors())?;
    push_reply_rows::<StreamClaimReply>(alloc, rows, &rows::claim_vectors())?;
    push_reply_rows::<StreamReadReply>(alloc, rows, &rows::read_vectors())?;
    push_reply_rows::<StreamAutoClaimReply>(alloc, rows, &autoclaim::autoclaim_vectors())?;
    push_reply_rows::<StreamPendingReply>(alloc, rows, &pending::summary_vectors())?;
    push_reply_rows::<StreamPendingCountReply>(alloc, rows, &pending::entry_vectors())?;
    push_reply_rows::<StreamInfoStreamReply>(alloc, rows, &info::stream_vectors())?;
    push_reply_rows::<StreamInfoStreamReplyWithIdempotency>(
        alloc,
        rows,
        &info::idempotency_vectors(),
    )?;
    push_reply_rows::<StreamInfoConsumersReply>(alloc, rows, &info::consumer_vectors())?;
    push_reply_rows::<StreamInfoGroupsReply>(alloc, rows, &info::group_vectors())?;
    push_reply_rows::<XDelExStatusCode>(alloc, rows, &status::deletion_vectors())?;
    push_reply_rows::<XAckDelStatusCode>(alloc, rows, &status::acknowledgement_vectors())
}

/// Adds the vectors of odd replies, v70 to v89.
fn push_odd_replies(alloc: Global, rows: &mut Vec<Row>) -> Result<(), AllocError>
    ensures { OnOk result (vec_len rows.new ≡ vec_len rows.old + 20) }
{
    push_reply_rows::<StreamRangeReply>(alloc, rows, &rows::odd_range_vectors())?;
    push_reply_rows::<StreamReadReply>(alloc, rows, &rows::odd_read_vectors())?;
    push_reply_rows::<StreamAutoClaimReply>(alloc, rows, &autoclaim::odd_autoclaim_vectors())?;
    push_reply_rows::<StreamPendingCountReply>(alloc, rows, &pending::odd_entry_vectors())?;
    push_reply_rows::<StreamInfoStreamReply>(alloc, rows, &info::odd_stream_vectors())?;
    push_reply_rows::<StreamInfoStreamReply>(alloc, rows, &info::radix_tree_vectors())
}
