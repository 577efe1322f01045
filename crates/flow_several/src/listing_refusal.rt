//! Why an archive's flows aren't all listed.

ghost use Rattle.std.specs.Prelude.{◌≡◌};
ghost use Rattle.flow_refusals.specs.declared.read_refusal.ReadRefusal.TheVariants as query;
ghost use Rattle.flow_several.specs.Flows.{of_listing, of_text};
ghost use Rattle.flow_several.specs.declared.listing_refusal.ListingRefusal.TheVariants as listing;

use crate::error::TogetherError;
use crate::refusal::{SeveralRefusal, SummingRefusal};
use flow_manifest::OpenError;
use flow_refusals::ReadRefusal;
use flow_report::{TextError, WriteFailed};
use std::alloc::AllocError;

/// Why an archive's flows aren't all listed.
#[derive(Drop)]
pub(crate) enum ListingRefusal {
    /// It can't be opened, and nothing is written of it.
    Opening(OpenError),
    /// One of its files can't be asked, or memory ran out.
    Query(ReadRefusal),
    /// Writing failed.
    Write(WriteFailed),
}

impl ListingRefusal {
    /// As a refusal of the archive with this number.
    pub(crate) fn numbered(self, number: u64) -> SeveralRefusal
        ensures { result ≡ of_listing number self }
    {
        match self {
            ListingRefusal::Opening(error) => {
                SeveralRefusal::Archive(number, SummingRefusal::Opening(error))
            }
            ListingRefusal::Query(error) => SeveralRefusal::Archive(
                number,
                SummingRefusal::Sums(TogetherError::Query(error)),
            ),
            ListingRefusal::Write(failed) => SeveralRefusal::Write(failed),
        }
    }
}

impl From<ReadRefusal> for ListingRefusal {
    ghost from_gives = { λ e r. r ≡ listing.Query e };

    fn from(error: ReadRefusal) -> ListingRefusal {
        ListingRefusal::Query(error)
    }
}

impl From<AllocError> for ListingRefusal {
    ghost from_gives = { λ _ r. r ≡ listing.Query query.OutOfMemory };

    fn from(_e: AllocError) -> ListingRefusal {
        ListingRefusal::Query(ReadRefusal::OutOfMemory)
    }
}

impl From<TextError> for ListingRefusal {
    ghost from_gives = { λ e r. r ≡ of_text e };

    fn from(error: TextError) -> ListingRefusal {
        match error {
            TextError::OutOfMemory => ListingRefusal::Query(ReadRefusal::OutOfMemory),
            TextError::Write(failed) => ListingRefusal::Write(failed),
        }
    }
}
