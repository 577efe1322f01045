//! What an archive answers by itself.

use crate::refusal::SummingRefusal;
use crate::together::Together;
use flow_disk::{Faults, SealedFile};

/// What an archive answers by itself, and how many of its reads failed.
#[derive(Drop)]
pub(crate) struct Answer<S: SealedFile> {
    pub sums: Result<Together, SummingRefusal>,
    pub faults: Faults<S>,
}
