//! The line of the whole File.

ghost use Rattle.std.specs.Prelude.{◌≡◌, ◌++◌, OnOk};
ghost use Rattle.flow_inspect.specs.Reports.{whole_line};

use crate::reporting::push_tally;
use crate::tally::Tally;
use flow_report::{Times, push_count};
use std::alloc::AllocError;

/// Puts the line of the whole File after a text: `all domains N`, and what was counted of all domains together.
#[tactic(auto, unfolding(crate::specs::Reports::whole_line))]
pub(crate) fn push_whole(
    text: &mut Vec<u8>,
    times: Times,
    domains: u64,
    whole: Option<Tally>,
) -> Result<(), AllocError>
    ensures { OnOk result (text.new.items ≡ text.old.items ++ whole_line times domains whole) }
{
    match whole {
        Some(whole) => {
            text.extend_from_slice("all domains".as_bytes())?;
            push_count(text, domains)?;
            push_tally(text, times, &whole)?;
        }
        None => text.extend_from_slice(NO_MESSAGE.as_bytes())?,
    }
    Ok(())
}

/// The line of a File without messages.
const NO_MESSAGE: &str =
    "all domains 0 messages 0 records 0 options 0 unread 0 0 replaced 0 gaps 0 missing 0 backwards 0 \
     from - to - starts - - longest - long 0 placed 0 uncounted 0 sampled 0\n";
