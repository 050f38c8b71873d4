//! The figures of streams in the OpenMetrics format.
ghost use Rattle.std.specs.Prelude.{◌≡◌, ◌++◌, IfOk, OnOk, decimal, flat_map};
ghost use Rattle.stream_top.specs.Metrics.{consumer_number, consumer_samples, group_number, group_samples};
ghost use Rattle.stream_top.specs.Metrics.{head_text, help_text, is_time, label_byte, label_text, labelled};
ghost use Rattle.stream_top.specs.Metrics.{metric_text, name_text, number_text, of_consumers, of_groups};
ghost use Rattle.stream_top.specs.Metrics.{of_streams, sample_text, seconds_text, stream_number};
ghost use Rattle.stream_top.specs.Metrics.{stream_samples, text_of_metrics};

use crate::figures::{ConsumerFigures, GroupFigures, StreamFigures};
use itoa::Buffer;
use std::alloc::{AllocError, Global};

/// A metric of streams, of groups or of consumers.
#[derive(Clone, Copy)]
pub enum Metric {
    Length,
    LastGenerated,
    Lag,
    Pending,
    LastDelivered,
    OldestPending,
    MaxDeliveries,
    ConsumerPending,
    ConsumerIdle,
}

/// Returns the text: all metrics with their samples, and the end.
#[tactic(auto, unfolding(crate::specs::Metrics::text_of_metrics))]
pub fn metrics_text(alloc: Global, streams: &[StreamFigures]) -> Result<Vec<u8>, AllocError>
    ensures { IfOk result (λ text. text.items ≡ text_of_metrics streams.now) }
{
    let mut out = Vec::with_capacity(alloc, 1024)?;
    push_of_streams(alloc, &mut out, streams)?;
    push_of_groups(alloc, &mut out, streams)?;
    push_of_consumers(alloc, &mut out, streams)?;
    out.extend_from_slice(b"# EOF\n")?;
    Ok(out)
}

/// Appends the metrics of streams.
fn push_of_streams(
    alloc: Global,
    out: &mut Vec<u8>,
    streams: &[StreamFigures],
) -> Result<(), AllocError>
    ensures { OnOk result (out.new.items ≡ out.old.items ++ of_streams streams.now) }
{
    push_metric(alloc, out, Metric::Length, streams)?;
    push_metric(alloc, out, Metric::LastGenerated, streams)
}

/// Appends the metrics of groups.
fn push_of_groups(
    alloc: Global,
    out: &mut Vec<u8>,
    streams: &[StreamFigures],
) -> Result<(), AllocError>
    ensures { OnOk result (out.new.items ≡ out.old.items ++ of_groups streams.now) }
{
    push_metric(alloc, out, Metric::Lag, streams)?;
    push_metric(alloc, out, Metric::Pending, streams)?;
    push_metric(alloc, out, Metric::LastDelivered, streams)?;
    push_metric(alloc, out, Metric::OldestPending, streams)?;
    push_metric(alloc, out, Metric::MaxDeliveries, streams)
}

/// Appends the metrics of consumers.
fn push_of_consumers(
    alloc: Global,
    out: &mut Vec<u8>,
    streams: &[StreamFigures],
) -> Result<(), AllocError>
    ensures { OnOk result (out.new.items ≡ out.old.items ++ of_consumers streams.now) }
{
    push_metric(alloc, out, Metric::ConsumerPending, streams)?;
    push_metric(alloc, out, Metric::ConsumerIdle, streams)
}

/// Appends a metric: its head and its samples.
#[tactic(auto, unfolding(crate::specs::Metrics::metric_text))]
fn push_metric(
    alloc: Global,
    out: &mut Vec<u8>,
    metric: Metric,
    streams: &[StreamFigures],
) -> Result<(), AllocError>
    ensures { OnOk result (out.new.items ≡ out.old.items ++ metric_text metric streams.now) }
{
    push_head(out, metric)?;
    push_streams(alloc, out, metric, streams)
}

/// Appends the head of a metric: the type, the unit if it is a time, and the description.
#[tactic(auto, unfolding(crate::specs::Metrics::head_text))]
fn push_head(out: &mut Vec<u8>, metric: Metric) -> Result<(), AllocError>
    ensures { OnOk result (out.new.items ≡ out.old.items ++ head_text metric) }
{
    push_row(out, b"# TYPE ", metric, b" gauge\n")?;
    if is_time_of(metric) {
        push_row(out, b"# UNIT ", metric, b" seconds\n")?;
    }
    push_row(out, b"# HELP ", metric, describe_metric(metric).as_bytes())
}

/// Appends the name of a metric between two texts.
fn push_row(
    out: &mut Vec<u8>,
    before: &[u8],
    metric: Metric,
    after: &[u8],
) -> Result<(), AllocError>
    ensures { OnOk result (out.new.items ≡ out.old.items ++ (before.now ++ (name_text metric ++ after.now))) }
{
    out.extend_from_slice(before)?;
    out.extend_from_slice(name_metric(metric).as_bytes())?;
    out.extend_from_slice(after)
}

/// Appends the samples of the streams, in order.
fn push_streams(
    alloc: Global,
    out: &mut Vec<u8>,
    metric: Metric,
    streams: &[StreamFigures],
) -> Result<(), AllocError>
    ensures { OnOk result (out.new.items ≡ out.old.items ++ flat_map (stream_samples metric) streams.now) }
{
    for stream in streams {
        push_stream(alloc, out, metric, stream)?;
    }
    Ok(())
}

/// Appends the samples of a stream.
#[tactic(auto, unfolding(crate::specs::Metrics::stream_samples))]
fn push_stream(
    alloc: Global,
    out: &mut Vec<u8>,
    metric: Metric,
    stream: &StreamFigures,
) -> Result<(), AllocError>
    ensures { OnOk result (out.new.items ≡ out.old.items ++ stream_samples metric stream.now) }
{
    let labels = add_label(alloc, b"", b"stream=\"", &stream.key)?;
    push_sample(out, metric, &labels, find_stream_number(metric, stream))?;
    push_groups(alloc, out, metric, &labels, &stream.groups)
}

/// Appends the samples of the groups, in order. `above` are the labels of their stream.
fn push_groups(
    alloc: Global,
    out: &mut Vec<u8>,
    metric: Metric,
    above: &[u8],
    groups: &[GroupFigures],
) -> Result<(), AllocError>
    ensures { OnOk result (out.new.items
        ≡ out.old.items ++ flat_map (group_samples metric above.now) groups.now) }
{
    for group in groups {
        push_group(alloc, out, metric, above, group)?;
    }
    Ok(())
}

/// Appends the samples of a group. `above` are the labels of its stream.
#[tactic(auto, unfolding(crate::specs::Metrics::group_samples))]
fn push_group(
    alloc: Global,
    out: &mut Vec<u8>,
    metric: Metric,
    above: &[u8],
    group: &GroupFigures,
) -> Result<(), AllocError>
    ensures { OnOk result (out.new.items ≡ out.old.items ++ group_samples metric above.now group.now) }
{
    let labels = add_label(alloc, above, b",group=\"", &group.name)?;
    push_sample(out, metric, &labels, find_group_number(metric, group))?;
    push_consumers(alloc, out, metric, &labels, &group.consumers)
}

/// Appends the samples of the consumers, in order. `above` are the labels of their group.
fn push_consumers(
    alloc: Global,
    out: &mut Vec<u8>,
    metric: Metric,
    above: &[u8],
    consumers: &[ConsumerFigures],
) -> Result<(), AllocError>
    ensures { OnOk result (out.new.items
        ≡ out.old.items ++ flat_map (consumer_samples metric above.now) consumers.now) }
{
    for consumer in consumers {
        push_consumer(alloc, out, metric, above, consumer)?;
    }
    Ok(())
}

/// Appends the sample of a consumer. `above` are the labels of its group.
#[tactic(auto, unfolding(crate::specs::Metrics::consumer_samples))]
fn push_consumer(
    alloc: Global,
    out: &mut Vec<u8>,
    metric: Metric,
    above: &[u8],
    consumer: &ConsumerFigures,
) -> Result<(), AllocError>
    ensures { OnOk result (out.new.items
        ≡ out.old.items ++ consumer_samples metric above.now consumer.now) }
{
    let labels = add_label(alloc, above, b",consumer=\"", &consumer.name)?;
    push_sample(out, metric, &labels, find_consumer_number(metric, consumer))
}

/// Returns the labels, and one more label that begins with `begin` and has the value `name`.
#[tactic(auto, unfolding(crate::specs::Metrics::labelled))]
fn add_label(alloc: Global, labels: &[u8], begin: &[u8], name: &str) -> Result<Vec<u8>, AllocError>
    ensures { IfOk result (λ all. all.items ≡ labelled labels.now begin.now name.now) }
{
    let mut all = Vec::new(alloc);
    all.extend_from_slice(labels)?;
    all.extend_from_slice(begin)?;
    push_label(&mut all, name.as_bytes())?;
    all.push(b'"')?;
    Ok(all)
}

/// Appends the text of a label.
fn push_label(out: &mut Vec<u8>, text: &[u8]) -> Result<(), AllocError>
    ensures { OnOk result (out.new.items ≡ out.old.items ++ label_text text.now) }
{
    for byte in text {
        push_label_byte(out, *byte)?;
    }
    Ok(())
}

/// Appends a byte of a label. The byte 0 is written as a text, so that no reader has to accept it.
fn push_label_byte(out: &mut Vec<u8>, byte: u8) -> Result<(), AllocError>
    ensures { OnOk result (out.new.items ≡ out.old.items ++ label_byte byte) }
{
    match byte {
        b'\\' => out.extend_from_slice(b"\\\\"),
        b'"' => out.extend_from_slice(b"\\\""),
        b'\n' => out.extend_from_slice(b"\\n"),
        0 => out.extend_from_slice(b"\\\\x00"),
        _ => Ok(out.push(byte)?),
    }
}

/// Appends a sample, or nothing if there is no number.
#[tactic(auto, unfolding(crate::specs::Metrics::sample_text))]
fn push_sample(
    out: &mut Vec<u8>,
    metric: Metric,
    labels: &[u8],
    number: Option<usize>,
) -> Result<(), AllocError>
    ensures { OnOk result (out.new.items ≡ out.old.items ++ sample_text metric labels.now number) }
{
    let Some(number) = number else {
        return Ok(());
    };
    out.extend_from_slice(name_metric(metric).as_bytes())?;
    out.push(b'{')?;
    out.extend_from_slice(labels)?;
    out.extend_from_slice(b"} ")?;
    push_number(out, metric, number)?;
    Ok(out.push(b'\n')?)
}

/// Appends the number of a sample: a count, or milliseconds converted to seconds.
fn push_number(out: &mut Vec<u8>, metric: Metric, number: usize) -> Result<(), AllocError>
    ensures { OnOk result (out.new.items ≡ out.old.items ++ number_text metric number) }
{
    if is_time_of(metric) {
        push_seconds(out, number)
    } else {
        push_count(out, number)
    }
}

/// Appends a count.
fn push_count(out: &mut Vec<u8>, count: usize) -> Result<(), AllocError>
    ensures { OnOk result (out.new.items ≡ out.old.items ++ decimal count) }
{
    out.extend_from_slice(Buffer::new().format::<usize>(count).as_bytes())
}

/// Appends milliseconds as seconds, with three digits after the point.
#[tactic(auto, unfolding(crate::specs::Metrics::seconds_text))]
fn push_seconds(out: &mut Vec<u8>, milliseconds: usize) -> Result<(), AllocError>
    ensures { OnOk result (out.new.items ≡ out.old.items ++ seconds_text milliseconds) }
{
    push_count(out, milliseconds / 1000)?;
    out.push(b'.')?;
    push_count(out, milliseconds / 100 % 10)?;
    push_count(out, milliseconds / 10 % 10)?;
    push_count(out, milliseconds % 10)
}

/// Returns the name of a metric.
fn name_metric(metric: Metric) -> &'static str
    ensures { result.now ≡ name_text metric }
{
    match metric {
        Metric::Length => "redis_stream_length",
        Metric::LastGenerated => "redis_stream_last_generated_timestamp_seconds",
        Metric::Lag => "redis_stream_group_lag",
        Metric::Pending => "redis_stream_group_pending",
        Metric::LastDelivered => "redis_stream_group_last_delivered_timestamp_seconds",
        Metric::OldestPending => "redis_stream_group_oldest_pending_seconds",
        Metric::MaxDeliveries => "redis_stream_group_max_deliveries",
        Metric::ConsumerPending => "redis_stream_consumer_pending",
        Metric::ConsumerIdle => "redis_stream_consumer_idle_seconds",
    }
}

/// Returns the description of a metric, for people.
fn describe_metric(metric: Metric) -> &'static str
    ensures { result.now ≡ help_text metric }
{
    match metric {
        Metric::Length => " Entries in the stream.\n",
        Metric::LastGenerated => " Time in the id that was generated last.\n",
        Metric::Lag => " Entries that the group has not read yet.\n",
        Metric::Pending => " Entries that were delivered and not acknowledged.\n",
        Metric::LastDelivered => " Time in the id that was delivered last.\n",
        Metric::OldestPending => " Time since that in the id of the first pending entry.\n",
        Metric::MaxDeliveries => " Deliveries of the pending entry that has most of them.\n",
        Metric::ConsumerPending => " Entries that are pending for the consumer.\n",
        Metric::ConsumerIdle => " Time since the consumer was seen.\n",
    }
}

/// Whether a metric is a time, measured in milliseconds.
fn is_time_of(metric: Metric) -> bool
    ensures { result ≡ is_time metric }
{
    match metric {
        Metric::LastGenerated
        | Metric::LastDelivered
        | Metric::OldestPending
        | Metric::ConsumerIdle => true,
        _ => false,
    }
}

/// Returns the number for a stream, if the metric is one of streams.
fn find_stream_number(metric: Metric, stream: &StreamFigures) -> Option<usize>
    ensures { result ≡ stream_number metric stream.now }
{
    match metric {
        Metric::Length => Some(stream.length),
        Metric::LastGenerated => stream.last_time,
        _ => None,
    }
}

/// Returns the number for a group, if the metric is one of groups.
fn find_group_number(metric: Metric, group: &GroupFigures) -> Option<usize>
    ensures { result ≡ group_number metric group.now }
{
    match metric {
        Metric::Lag => group.lag,
        Metric::Pending => Some(group.pending),
        Metric::LastDelivered => group.last_time,
        Metric::OldestPending => group.oldest_pending,
        Metric::MaxDeliveries => Some(group.deliveries),
        _ => None,
    }
}

/// Returns the number for a consumer, if the metric is one of consumers.
fn find_consumer_number(metric: Metric, consumer: &ConsumerFigures) -> Option<usize>
    ensures { result ≡ consumer_number metric consumer.now }
{
    match metric {
        Metric::ConsumerPending => Some(consumer.pending),
        Metric::ConsumerIdle => Some(consumer.idle),
        _ => None,
    }
}
