//! A message that is whole, by its own header.

ghost use Rattle.std.specs.Prelude.{◌≡◌, ◌≢◌, ◌⊎◌, true, OnOk, OnErr, IfErr};
ghost use Rattle.std.specs.Io.KnownBytes.{Appends, Keeps};
ghost use Rattle.flow_codec.specs.Cutting.{IsCutOff};
ghost use Rattle.flow_export.specs.declared.refusal.ExportRefusal.TheVariants as refusal;
ghost use Rattle.flow_export.specs.Export.{IsBlameless};
ghost use Rattle.flow_report.specs.Writing.{AppendsFront};

use crate::refusal::ExportRefusal;
use flow_codec::front_of;
use flow_refusals::ReadRefusal;
use flow_report::{Patience, write_patiently};
use std::io::Write;

/// Whether octets are one message, cut off by its own header.
fn is_whole(octets: &[u8]) -> bool
    ensures whole { result ≡ true → IsCutOff octets.now }
    ensures every { IsCutOff octets.now → result ≡ true }
{
    if octets.is_empty() {
        return false;
    }
    match front_of(0, octets) {
        Ok(length) => length == octets.len(),
        Err(_) => false,
    }
}

/// Writes a message of a file. Octets that are none, whatever the disk gave, are damage of the file, and none of them
/// is written.
pub(crate) fn write_whole<W: Write>(
    file: u64,
    octets: &[u8],
    output: &mut W,
    patience: &mut Patience,
) -> Result<(), ExportRefusal>
    ensures whole { OnOk result (IsCutOff octets.now) }
    ensures all { OnOk result (Appends (W.contents output.old) (W.contents output.new) octets.now) }
    ensures some { OnErr result (AppendsFront (W.contents output.old) (W.contents output.new) octets.now) }
    // Of octets that are no whole message nothing is written.
    ensures part { OnErr result (Keeps (W.contents output.old) (W.contents output.new) ⊎ IsCutOff octets.now) }
    ensures blameless { IsCutOff octets.now → IfErr result IsBlameless }
    ensures quiet { IfErr result (λ e. e ≢ refusal.Query ReadRefusal.Fault) }
{
    if !is_whole(octets) {
        return Err(ExportRefusal::Query(ReadRefusal::Damaged(file, 0)));
    }
    write_patiently(output, octets, patience)?;
    Ok(())
}
