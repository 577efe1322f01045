//! What readers ask of a snapshot, and how the answers are written.

use flow_disk::{Faults, SealedFile};
use flow_measure::{Flow, Row};
use flow_scripts::{Question, Span};
use flow_snapshot::Snapshot;
use std::alloc::{AllocError, Global};

/// All seconds.
const ALL: Span = Span {
    from: 0,
    to: 1 << 32,
};

/// A protocol, or a dash where there is none.
fn protocol_text(alloc: Global, protocol: Option<u8>) -> Result<String, AllocError> {
    match protocol {
        Some(number) => format!(in alloc; "{number}"),
        None => "-".to_string(alloc),
    }
}

/// A row: the start, domain and protocol, its sums, and its width where that isn't the narrow one.
fn row_text(alloc: Global, row: &Row, narrow: u32) -> Result<String, AllocError> {
    let protocol = protocol_text(alloc, row.key.protocol)?;
    let (key, sums) = (row.key, row.sums);
    let mut text = format!(in alloc;
        "{} {} {protocol} {} {} {}",
        key.start, key.domain, sums.flows, sums.octets, sums.packets
    )?;
    if row.width != narrow {
        text.push_str(&format!(in alloc; " {}", row.width)?)?;
    }
    Ok(text)
}

/// A flow: the start, domain and protocol, its octets and its packets.
fn flow_text(alloc: Global, flow: &Flow) -> Result<String, AllocError> {
    let protocol = protocol_text(alloc, flow.protocol)?;
    format!(in alloc;
        "{} {} {protocol} {} {}",
        flow.start, flow.domain, flow.octets, flow.packets
    )
}

/// Adds a text after others.
fn add_text(texts: &mut String, text: &str) -> Result<(), AllocError> {
    if !texts.is_empty() {
        texts.push_str("; ")?;
    }
    texts.push_str(text)
}

/// Rows, one after the other, or that there are none.
fn rows_text(alloc: Global, rows: &[Row], narrow: u32) -> Result<String, AllocError> {
    if rows.is_empty() {
        return "none".to_string(alloc);
    }
    let mut texts = String::new(alloc);
    for row in rows {
        add_text(&mut texts, row_text(alloc, row, narrow)?.as_str())?;
    }
    Ok(texts)
}

/// Flows, one after the other, or that there are none.
fn flows_text(alloc: Global, flows: &[Flow]) -> Result<String, AllocError> {
    if flows.is_empty() {
        return "none".to_string(alloc);
    }
    let mut texts = String::new(alloc);
    for flow in flows {
        add_text(&mut texts, flow_text(alloc, flow)?.as_str())?;
    }
    Ok(texts)
}

/// The totals of a span, where narrow intervals have this width.
fn totals<S: SealedFile>(
    alloc: Global,
    snapshot: &Snapshot<S>,
    narrow: u32,
    span: Span,
) -> Result<String, AllocError> {
    match snapshot.totals(alloc, span.from, span.to, &mut Faults::new()) {
        Ok(rows) => rows_text(alloc, &rows, narrow),
        Err(refused) => format!(in alloc; "{refused}"),
    }
}

/// The flows of a span.
fn flows<S: SealedFile>(
    alloc: Global,
    snapshot: &Snapshot<S>,
    span: Span,
) -> Result<String, AllocError> {
    match snapshot.flows(alloc, span.from, span.to, &mut Faults::new()) {
        Ok(flows) => flows_text(alloc, &flows),
        Err(refused) => format!(in alloc; "{refused}"),
    }
}

/// Nothing where octets are those that are wanted, else their digits.
pub(crate) fn difference(
    alloc: Global,
    octets: &[u8],
    wanted: &[u8],
) -> Result<String, AllocError> {
    if octets == wanted {
        return Ok(String::new(alloc));
    }
    hex::encode(alloc, octets)
}

/// Nothing where a message has these octets, else its digits.
fn message<S: SealedFile>(
    alloc: Global,
    snapshot: &Snapshot<S>,
    n: u64,
    wanted: &[u8],
) -> Result<String, AllocError> {
    match snapshot.message(alloc, n, &mut Faults::new()) {
        Ok(Some(octets)) => difference(alloc, &octets, wanted),
        Ok(None) => "none".to_string(alloc),
        Err(refused) => format!(in alloc; "{refused}"),
    }
}

/// How many messages there are, and the numbers of the last ones that were rolled, and rolled by wide intervals.
fn counts<S: SealedFile>(alloc: Global, snapshot: &Snapshot<S>) -> Result<String, AllocError> {
    let (position, cut) = (snapshot.position(), snapshot.cut());
    let second = snapshot.second_cut();
    format!(in alloc; "{position} {cut} {second}")
}

/// The counts of a snapshot and all its totals, where narrow intervals have this width.
pub(crate) fn summary<S: SealedFile>(
    alloc: Global,
    snapshot: &Snapshot<S>,
    narrow: u32,
) -> Result<String, AllocError> {
    let counts = counts(alloc, snapshot)?;
    let totals = totals(alloc, snapshot, narrow, ALL)?;
    format!(in alloc; "{counts}: {totals}")
}

/// What a snapshot answers of an archive whose narrow intervals have this width.
pub(crate) fn asked<S: SealedFile>(
    alloc: Global,
    snapshot: &Snapshot<S>,
    narrow: u32,
    question: &Question,
) -> Result<String, AllocError> {
    match question {
        Question::Totals(span) => totals(alloc, snapshot, narrow, *span),
        Question::Flows(span) => flows(alloc, snapshot, *span),
        Question::Message(n, octets) => message(alloc, snapshot, *n, octets.as_slice()),
        Question::Counts => counts(alloc, snapshot),
        Question::Summary => summary(alloc, snapshot, narrow),
    }
}
