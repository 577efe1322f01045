//! The line of a File that was fed, and its status.

ghost use Rattle.std.specs.Prelude.{◌≡◌, ◌≢◌, ◌≤◌, ◌∷◌, ◌++◌, OnOk, IfOk};
ghost use Rattle.flow_refusals.specs.Table.{code_text};
ghost use Rattle.flow_commands.specs.Feeding.{fed_line, stop_status};

use flow_feed::{Fed, FeedStop};
use flow_refusals::RefusalCode;
use flow_report::push_count;
use std::alloc::{AllocError, Global};

/// The exit status of a File that isn't taken in whole: 1 for what is refused, 3 for a device or a File that can't be
/// read, 4 for memory, 5 for damage.
pub(crate) fn stop_status(stop: FeedStop) -> u8
    ensures value { result ≡ stop_status stop }
    ensures other { result ≢ 2 }
    ensures most { result ≤ 5 }
{
    stop.code().status()
}

/// Puts the number and the name of a refusal after a text, each after a space.
#[tactic(auto, unfolding(flow_refusals::specs::Table::code_text))]
fn push_code(text: &mut Vec<u8>, code: RefusalCode) -> Result<(), AllocError>
    ensures { OnOk result (text.new.items ≡ text.old.items ++ 32 ∷ code_text code) }
{
    push_count(text, code.number())?;
    text.push(b' ')?;
    text.extend_from_slice(code.name().as_bytes())?;
    Ok(())
}

/// Puts the line of the File of this number after a text: `fed N MESSAGES` or `stopped N MESSAGES NUMBER NAME`.
#[tactic(auto, unfolding(crate::specs::Feeding::fed_line))]
fn push_line(text: &mut Vec<u8>, number: u64, fed: Fed) -> Result<(), AllocError>
    ensures { OnOk result (text.new.items ≡ text.old.items ++ fed_line number fed) }
{
    let name = match fed.stop {
        None => "fed",
        Some(_) => "stopped",
    };
    text.extend_from_slice(name.as_bytes())?;
    push_count(text, number)?;
    push_count(text, fed.messages)?;
    if let Some(stop) = fed.stop {
        push_code(text, stop.code())?;
    }
    text.push(b'\n')?;
    Ok(())
}

/// The line of the File of this number.
pub fn fed_line(alloc: Global, number: u64, fed: Fed) -> Result<Vec<u8>, AllocError>
    ensures { IfOk result (λ text. text.items ≡ fed_line number fed) }
{
    let mut text = Vec::new(alloc);
    push_line(&mut text, number, fed)?;
    Ok(text)
}
