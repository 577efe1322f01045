//! Lines of flows.

ghost use Rattle.std.specs.Prelude.{◌≡◌, ◌≤◌, ◌+◌, ◌++◌, OnOk, IfOk, IfErr, vec_len, vec_capacity};
ghost use Rattle.std.specs.List.{flat_map};
ghost use Rattle.std.specs.Io.KnownBytes.{Appends};
ghost use Rattle.flow_report.specs.ArchiveLines.{flow_line, flow_names, flows_text};
ghost use Rattle.flow_report.specs.Formats.{heading};
ghost use Rattle.flow_report.specs.Telling.{Tells, TellsFront};
ghost use Rattle.flow_report.specs.Writing.{AppendsFront, IsCut};

use crate::format::{Format, Layout};
use crate::output::{HeldText, MOST_HELD};
use crate::patient::WriteFailed;
use crate::text_error::TextError;
use crate::values::{put_last, put_opening, put_protocol, put_text, put_time, put_value};
use flow_measure::Flow;
use std::alloc::{AllocError, Global};
use std::io::Write;
use std::marker::Model;

/// The line of a flow, where there is room: START DOMAIN PROTOCOL OCTETS PACKETS.
#[tactic(auto, unfolding(crate::specs::ArchiveLines::flow_line))]
fn put_flow(line: &mut Vec<u8>, format: Format, flow: Flow)
    requires { vec_len line.old + 428 ≤ vec_capacity line.old }
    ensures text { line.new.items ≡ line.old.items ++ flow_line format flow }
    ensures room { vec_capacity line.old ≤ vec_capacity line.new }
{
    put_opening(line, format);
    put_time(line, format, "start", flow.start);
    put_value(line, format, "domain", flow.domain);
    put_protocol(line, format, flow.protocol);
    put_value(line, format, "octets", flow.octets);
    put_last(line, format, "packets", flow.packets);
}

/// Appends the heading of flows, where there is room: in CSV the names of their values.
fn put_flows_heading(line: &mut Vec<u8>, format: Format)
    requires { vec_len line.old + 428 ≤ vec_capacity line.old }
    ensures text { line.new.items ≡ line.old.items ++ heading format.layout flow_names }
    ensures len { vec_len line.new ≤ vec_len line.old + 428 }
    ensures room { vec_capacity line.old ≤ vec_capacity line.new }
{
    if let Layout::Csv = format.layout {
        put_text(line, "start,domain,protocol,octets,packets\n");
    }
}

impl HeldText {
    ghost use Rattle.std.specs.Prelude.{◌≡◌, ◌≤◌, OnOk, IfErr, vec_capacity};
    ghost use Rattle.flow_measure.specs.declared.flow.Flow.{Flow};
    ghost use Rattle.flow_report.specs.ArchiveLines.{flow_line};
    ghost use Rattle.flow_report.specs.Telling.{Tells, TellsFront};

    /// Takes the line of a flow, once there is room: where there is much text, that is written first.
    fn put_flow<W: Write>(
        &mut self,
        output: &mut W,
        format: Format,
        flow: Flow,
    ) -> Result<(), WriteFailed>
        requires { 65964 ≤ vec_capacity self.old.text }
        ensures told { OnOk result
            (Tells (W.contents output.old) self.old.text.items (W.contents output.new) self.new.text.items
            (flow_line format flow)) }
        ensures room { 65964 ≤ vec_capacity self.new.text }
        ensures front { IfErr result
            (λ _. TellsFront (W.contents output.old) self.old.text.items (W.contents output.new)
            (flow_line format flow)) }
    {
        if self.text.len() >= MOST_HELD {
            self.flush(output)?;
        }
        put_flow(&mut self.text, format, flow);
        Ok(())
    }
}

/// Takes the lines of flows, as they are made: no memory is taken but for the text that is held.
fn tell_flows<W: Write>(
    flows: &[Flow],
    format: Format,
    lines: &mut HeldText,
    output: &mut W,
) -> Result<(), WriteFailed>
    requires { 65964 ≤ vec_capacity lines.old.text }
    ensures told { OnOk result
        (Tells (W.contents output.old) lines.old.text.items (W.contents output.new) lines.new.text.items
        (flat_map (flow_line format) flows.now)) }
    ensures room { 65964 ≤ vec_capacity lines.new.text }
    ensures front { IfErr result
        (λ _. TellsFront (W.contents output.old) lines.old.text.items (W.contents output.new)
        (flat_map (flow_line format) flows.now)) }
{
    for flow in flows {
        lines.put_flow(output, format, *flow)?;
    }
    Ok(())
}

/// Lines of flows on their way to a writer, with their heading: START DOMAIN PROTOCOL OCTETS PACKETS of each. Some 64
/// KiB of them are held, and written once there are more.
#[derive(Drop)]
pub struct FlowLines {
    lines: HeldText,
    format: Format,
}

impl Model for FlowLines {
    ghost use Rattle.std.specs.Prelude.{◌≤◌, vec_capacity};
    ghost use Rattle.flow_report.specs.ArchiveLines.{FlowText};

    ghost Value = { FlowText };

    ghost view = { λ l. record { format = l.format; held = l.lines.text.items } };

    ghost invariant = { λ l. 65964 ≤ vec_capacity l.lines.text };
}

impl FlowLines {
    /// Of no flows: the heading is held, which in CSV names the values.
    pub fn new(alloc: Global, format: Format) -> Result<Self, AllocError>
        ensures { IfOk result (λ l. l ≡ record { format = format; held = heading format.layout flow_names }) }
    {
        let mut lines = HeldText::new(alloc)?;
        put_flows_heading(&mut lines.text, format);
        Ok(FlowLines { lines, format })
    }

    /// Takes the lines of flows. After an `Err` the writer has a prefix of what was held and of these lines.
    pub fn put<W: Write>(&mut self, output: &mut W, flows: &[Flow]) -> Result<(), WriteFailed>
        ensures format { self.new.format ≡ self.old.format }
        ensures told { OnOk result (Tells (W.contents output.old) self.old.held (W.contents output.new) self.new.held
            (flat_map (flow_line self.old.format) flows.now)) }
        ensures front { IfErr result (λ _. TellsFront (W.contents output.old) self.old.held (W.contents output.new)
            (flat_map (flow_line self.old.format) flows.now)) }
    {
        tell_flows(flows, self.format, &mut self.lines, output)
    }

    /// Writes all that is held. After an `Err` the writer has a prefix of it.
    pub fn end<W: Write>(self, output: &mut W) -> Result<(), WriteFailed>
        ensures all { OnOk result (Appends (W.contents output.old) (W.contents output.new) self.held) }
        ensures front { IfErr result
            (λ _. AppendsFront (W.contents output.old) (W.contents output.new) self.held) }
    {
        let mut lines = self.lines;
        lines.flush(output)
    }
}

/// Writes flows: START DOMAIN PROTOCOL OCTETS PACKETS.
pub fn write_flows<W: Write>(
    alloc: Global,
    flows: &[Flow],
    format: Format,
    output: &mut W,
) -> Result<(), TextError>
    ensures all { OnOk result (Appends (W.contents output.old) (W.contents output.new) (flows_text format flows.now)) }
    ensures cut { IfErr result (IsCut (W.contents output.old) (W.contents output.new) (flows_text format flows.now)) }
{
    let mut lines = FlowLines::new(alloc, format)?;
    lines.put(output, flows)?;
    lines.end(output)?;
    Ok(())
}
