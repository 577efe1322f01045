//! The program's lines.

ghost use Rattle.std.specs.Prelude.{◌≡◌, ◌∷◌, ◌++◌, OnOk};
ghost use Rattle.std.specs.Fmt.{decimal};
ghost use Rattle.flow_report.specs.Formats.{second_text};
ghost use Rattle.flow_report.specs.Lines.{message_line, start_text};

use crate::format::Times;
use flow_codec::Header;
use flow_dates::time_text;
use itoa::Buffer;
use std::alloc::AllocError;

/// A number in decimal.
fn push_number(text: &mut Vec<u8>, number: u64) -> Result<(), AllocError>
    ensures { OnOk result (text.new.items ≡ text.old.items ++ decimal number) }
{
    let mut digits = Buffer::new();
    text.extend_from_slice(digits.format(number).as_bytes())?;
    Ok(())
}

/// What a record's line begins with: `record ID` or `options ID`.
#[tactic(auto, unfolding(crate::specs::Lines::start_text))]
pub fn push_start(text: &mut Vec<u8>, options: bool, id: u16) -> Result<(), AllocError>
    ensures { OnOk result (text.new.items ≡ text.old.items ++ start_text options id) }
{
    let kind = if options { "options" } else { "record" };
    text.extend_from_slice(kind.as_bytes())?;
    text.push(b' ')?;
    push_number(text, id as u64)
}

/// A space, and a number in decimal.
fn push_word(text: &mut Vec<u8>, number: u32) -> Result<(), AllocError>
    ensures { OnOk result (text.new.items ≡ text.old.items ++ 32 ∷ decimal number) }
{
    text.push(b' ')?;
    push_number(text, number as u64)
}

/// A space, and a count in decimal.
pub fn push_count(text: &mut Vec<u8>, number: u64) -> Result<(), AllocError>
    ensures { OnOk result (text.new.items ≡ text.old.items ++ 32 ∷ decimal number) }
{
    text.push(b' ')?;
    push_number(text, number)
}

/// A space, and a time.
pub fn push_time(text: &mut Vec<u8>, times: Times, second: u32) -> Result<(), AllocError>
    ensures { OnOk result (text.new.items ≡ text.old.items ++ 32 ∷ second_text times second) }
{
    text.push(b' ')?;
    match times {
        Times::Seconds => push_number(text, second as u64),
        Times::Dates => {
            text.extend_from_slice(&time_text(second))?;
            Ok(())
        }
    }
}

/// The line of a message: `message LENGTH TIME SEQUENCE DOMAIN`.
#[tactic(auto, unfolding(crate::specs::Lines::message_line))]
pub fn push_message_line(text: &mut Vec<u8>, header: &Header) -> Result<(), AllocError>
    ensures { OnOk result (text.new.items ≡ text.old.items ++ message_line header.now) }
{
    text.extend_from_slice("message".as_bytes())?;
    push_word(text, header.length as u32)?;
    push_word(text, header.time)?;
    push_word(text, header.sequence)?;
    push_word(text, header.domain)?;
    text.push(b'\n')?;
    Ok(())
}
