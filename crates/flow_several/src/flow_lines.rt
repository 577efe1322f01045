//! Lines of an archive's flows, with its number.

ghost use Rattle.std.specs.Prelude.{◌≡◌, ◌++◌, [], OnOk, IfErr};
ghost use Rattle.std.specs.Io.KnownBytes.{Appends};
ghost use Rattle.std.specs.List.{flat_map};
ghost use Rattle.flow_report.specs.Telling.{Tells, TellsFront};
ghost use Rattle.flow_report.specs.Writing.{AppendsFront};
ghost use Rattle.flow_several.specs.Flows.{names_before_flows, numbered_flow};

use crate::numbered::push_protocol;
use flow_measure::Flow;
use flow_report::{
    Format, Layout, MOST_VALUE, Patience, TextError, put_last, put_opening, put_time, put_value,
    write_patiently,
};
use std::alloc::{AllocError, Global};
use std::io::Write;

/// The octets of text that are held before they are written.
const MOST_HELD: usize = 65_536;

/// Puts the line of a flow after a text: ARCHIVE START DOMAIN PROTOCOL OCTETS PACKETS.
#[tactic(auto, unfolding(crate::specs::Flows::numbered_flow))]
fn push_flow(text: &mut Vec<u8>, format: Format, number: u64, flow: Flow) -> Result<(), AllocError>
    ensures { OnOk result (text.new.items ≡ text.old.items ++ numbered_flow format number flow) }
{
    text.reserve(4 * MOST_VALUE)?;
    put_opening(text, format);
    put_value(text, format, "archive", number);
    put_time(text, format, "start", flow.start);
    put_value(text, format, "domain", flow.domain);
    push_protocol(text, format, flow.protocol)?;
    text.reserve(2 * MOST_VALUE)?;
    put_value(text, format, "octets", flow.octets);
    put_last(text, format, "packets", flow.packets);
    Ok(())
}

/// The text before the lines of an archive's flows: in CSV before those of the first one the names of their values.
fn names_before_flows(layout: Layout, number: u64) -> &'static str
    ensures { result.now ≡ names_before_flows layout number }
{
    if number != 1 {
        return "";
    }
    match layout {
        Layout::Lines => "",
        Layout::Csv => "archive,start,domain,protocol,octets,packets\n",
        Layout::Json => "",
    }
}

/// Writes the text before the lines of an archive's flows.
pub(crate) fn write_names<W: Write>(
    format: Format,
    number: u64,
    output: &mut W,
) -> Result<(), TextError>
    ensures all { OnOk result
        (Appends (W.contents output.old) (W.contents output.new) (names_before_flows format.layout number)) }
    ensures cut { IfErr result (λ _. AppendsFront (W.contents output.old) (W.contents output.new)
        (names_before_flows format.layout number)) }
{
    let names = names_before_flows(format.layout, number);
    write_patiently(output, names.as_bytes(), &mut Patience::new())?;
    Ok(())
}

/// Writes the text that is held, where it is much, and then holds none.
#[tactic(auto, using(crate::proofs::Listed::still_held, crate::proofs::Listed::held_written))]
fn write_much<W: Write>(text: &mut Vec<u8>, output: &mut W) -> Result<(), TextError>
    ensures told { OnOk result
        (Tells (W.contents output.old) text.old.items (W.contents output.new) text.new.items []) }
    ensures cut { IfErr result (λ _. TellsFront (W.contents output.old) text.old.items (W.contents output.new) []) }
{
    if text.len() < MOST_HELD {
        return Ok(());
    }
    write_patiently(output, text.as_slice(), &mut Patience::new())?;
    text.clear();
    Ok(())
}

/// Takes the line of a flow.
fn put_flow<W: Write>(
    text: &mut Vec<u8>,
    format: Format,
    number: u64,
    flow: Flow,
    output: &mut W,
) -> Result<(), TextError>
    ensures told { OnOk result (Tells (W.contents output.old) text.old.items (W.contents output.new) text.new.items
        (numbered_flow format number flow)) }
    ensures cut { IfErr result (λ _. TellsFront (W.contents output.old) text.old.items (W.contents output.new)
        (numbered_flow format number flow)) }
{
    write_much(text, output)?;
    push_flow(text, format, number, flow)?;
    Ok(())
}

/// Writes the lines of flows. Some 64 KiB of them are held, and written once there are more.
pub(crate) fn write_flows<W: Write>(
    alloc: Global,
    flows: &[Flow],
    format: Format,
    number: u64,
    output: &mut W,
) -> Result<(), TextError>
    ensures all { OnOk result (Appends (W.contents output.old) (W.contents output.new)
        (flat_map (numbered_flow format number) flows.now)) }
    ensures cut { IfErr result (λ _. AppendsFront (W.contents output.old) (W.contents output.new)
        (flat_map (numbered_flow format number) flows.now)) }
{
    let mut text = Vec::new(alloc);
    for flow in flows {
        put_flow(&mut text, format, number, *flow, output)?;
    }
    write_patiently(output, text.as_slice(), &mut Patience::new())?;
    Ok(())
}
