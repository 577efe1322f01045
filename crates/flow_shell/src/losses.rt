//! What the Files that were fed show of records that aren't read, or are summed otherwise than their exporter may mean,
//! and the answer to `losses`.

ghost use Rattle.std.specs.Prelude.{◌≡◌, IfErr, IfOk, OnOk, Some, string_bytes};
ghost use Rattle.flow_shell.specs.Endings.{IsUnanswered};
ghost use Rattle.flow_codec.specs.Losses.{no_caveats};
ghost use Rattle.flow_shell.specs.Losses.{caveats_text, domain_text, losses_text, passed_text, refused_text};
ghost use Rattle.flow_shell.specs.Losses.{with_losses, HasLosses, IsCounted, IsOfNoFile};

use crate::board::{Board, Ends};
use crate::finishing::{DONE, NO_MEMORY, WITHOUT_MEMORY, answer_text};
use flow_codec::{CaveatCounts, Losses, MessageError};
use flow_commands::{ArchiveRefusal, shows_more};
use flow_feed::{Counter, RefusedDatagrams};
use flow_refusals::RefusalCode;
use std::alloc::{AllocError, Global};
use std::fmt;
use std::io::Write;
use std::sync::Wait;

/// What a File that is fed shows not to be read, or to be summed otherwise.
#[derive(Clone, Copy)]
pub(crate) enum Missed {
    /// Records, and flows that are summed otherwise, by a batch that was taken in.
    Records(Losses),
    /// A datagram, which isn't accepted for this fault.
    Datagram(MessageError),
}

/// What all Files so far show not to be read, or to be summed otherwise. Counts stop at 2^64 - 1.
#[derive(Clone, Copy)]
pub(crate) struct FeedCounts {
    /// Data Sets without a definition in force.
    sets: u64,
    /// The Observation Domain of the first of them.
    domain: Option<u32>,
    /// Messages whose Sequence Number is past the due one.
    gaps: u64,
    /// How many records are missing there.
    records: u64,
    /// Flows that are summed otherwise than their exporter may mean.
    caveats: CaveatCounts,
    /// Datagrams that were passed over.
    refused: RefusedDatagrams,
}

impl FeedCounts {
    /// Of no File.
    pub(crate) fn none() -> FeedCounts
        ensures { IsOfNoFile result }
    {
        FeedCounts {
            sets: 0,
            domain: None,
            gaps: 0,
            records: 0,
            caveats: CaveatCounts::none(),
            refused: RefusedDatagrams::none(),
        }
    }

    /// With what a batch shows.
    fn with_losses(self, losses: Losses) -> FeedCounts
        ensures { result ≡ with_losses losses self }
    {
        FeedCounts {
            sets: self.sets.saturating_add(losses.unread),
            domain: self.domain.or(losses.domain),
            gaps: self.gaps.saturating_add(losses.gaps),
            records: self.records.saturating_add(losses.missing),
            caveats: self.caveats.and(losses.caveats),
            refused: self.refused,
        }
    }

    /// Adds what is shown.
    pub(crate) fn add(&mut self, missed: Missed)
        ensures { IsCounted missed self.old self.new }
    {
        match missed {
            Missed::Records(losses) => *self = self.with_losses(losses),
            Missed::Datagram(fault) => self.refused.add(fault),
        }
    }
}

/// The line of the first domain, where there is one.
#[derive(Clone, Copy)]
struct DomainLine {
    domain: Option<u32>,
}

impl fmt::Display for DomainLine {
    ghost output = { λ line. Some (domain_text line.domain) };

    #[tactic(auto, unfolding(crate::specs::Losses::domain_text))]
    fn fmt<W: fmt::Write>(&self, f: &mut fmt::Formatter<W>) -> fmt::Result {
        match self.domain {
            None => write!(f, ""),
            Some(domain) => write!(f, "domain {domain}\n"),
        }
    }
}

/// The lines of the flows that are summed otherwise.
#[derive(Clone, Copy)]
struct CaveatLines {
    caveats: CaveatCounts,
}

impl fmt::Display for CaveatLines {
    ghost output = { λ lines. Some (caveats_text lines.caveats) };

    #[tactic(auto, unfolding(crate::specs::Losses::caveats_text))]
    fn fmt<W: fmt::Write>(&self, f: &mut fmt::Formatter<W>) -> fmt::Result {
        let CaveatCounts {
            placed,
            uncounted,
            sampled,
        } = self.caveats;
        write!(
            f,
            "placed {placed}\nuncounted {uncounted}\nsampled {sampled}\n"
        )
    }
}

/// The line of the datagrams that were passed over by a refusal, where there are any.
#[derive(Clone, Copy)]
struct PassedLine {
    refused: RefusedDatagrams,
    code: RefusalCode,
}

impl fmt::Display for PassedLine {
    ghost output = { λ line. Some (passed_text line.refused.counts line.code) };

    #[tactic(auto, unfolding(crate::specs::Losses::passed_text))]
    fn fmt<W: fmt::Write>(&self, f: &mut fmt::Formatter<W>) -> fmt::Result {
        let count = self.refused.of_number(self.code.number());
        if count == 0 {
            return write!(f, "");
        }
        write!(f, "datagrams {} {}\n", count, self.code)
    }
}

/// The lines of the datagrams that were passed over, by the numbers of their refusals.
#[derive(Clone, Copy)]
struct PassedLines {
    refused: RefusedDatagrams,
}

impl fmt::Display for PassedLines {
    ghost output = { λ lines. Some (refused_text lines.refused.counts) };

    fn fmt<W: fmt::Write>(&self, f: &mut fmt::Formatter<W>) -> fmt::Result {
        write!(
            f,
            "{}{}{}{}{}{}{}{}{}{}",
            PassedLine {
                refused: self.refused,
                code: RefusalCode::Short
            },
            PassedLine {
                refused: self.refused,
                code: RefusalCode::Version
            },
            PassedLine {
                refused: self.refused,
                code: RefusalCode::Length
            },
            PassedLine {
                refused: self.refused,
                code: RefusalCode::SetLength
            },
            PassedLine {
                refused: self.refused,
                code: RefusalCode::TemplateCut
            },
            PassedLine {
                refused: self.refused,
                code: RefusalCode::TemplateId
            },
            PassedLine {
                refused: self.refused,
                code: RefusalCode::ScopeCount
            },
            PassedLine {
                refused: self.refused,
                code: RefusalCode::RecordCut
            },
            PassedLine {
                refused: self.refused,
                code: RefusalCode::TemplatesFull
            },
            PassedLine {
                refused: self.refused,
                code: RefusalCode::DomainsFull
            }
        )
    }
}

impl fmt::Display for FeedCounts {
    ghost output = { λ counts. Some (losses_text counts) };

    fn fmt<W: fmt::Write>(&self, f: &mut fmt::Formatter<W>) -> fmt::Result {
        write!(
            f,
            "sets {}\n{}gaps {}\nrecords {}\n{}{}",
            self.sets,
            DomainLine {
                domain: self.domain
            },
            self.gaps,
            self.records,
            CaveatLines {
                caveats: self.caveats
            },
            PassedLines {
                refused: self.refused
            }
        )
    }
}

/// The lines of `losses`.
fn losses_lines(alloc: Global, counts: &FeedCounts) -> Result<String, AllocError>
    ensures { IfOk result (λ text. string_bytes text ≡ losses_text counts.now) }
{
    format!(in alloc; "{counts}")
}

/// Answers what all Files so far show not to be read, or to be summed otherwise, those that are fed too.
#[tactic(auto, using(crate::proofs::Unanswered::written))]
pub(crate) fn answer_losses<B: Ends, H: Wait, W: Write>(
    rt: &H,
    alloc: Global,
    board: &Board<B>,
    output: &mut W,
) -> Result<(), ArchiveRefusal>
    ensures answered { OnOk result (HasLosses B.had (W.contents output.old) (W.contents output.new)) }
    ensures unanswered { IfErr result IsUnanswered }
{
    let counts = board.counts(rt);
    let Ok(lines) = losses_lines(alloc, &counts) else {
        return answer_text(NO_MEMORY, WITHOUT_MEMORY, output);
    };
    answer_text(lines.as_str(), DONE, output)
}

/// Counts on a board what a File that is fed shows not to be read, or to be summed otherwise, as soon as it is shown.
#[derive(Drop)]
pub(crate) struct Noting<'a, B: Ends, H: Wait> {
    pub(crate) rt: &'a H,
    pub(crate) board: &'a Board<B>,
}

impl<B: Ends, H: Wait> Counter for Noting<'_, B, H> {
    fn add_losses(&mut self, piece: Losses) {
        if shows_more(piece) {
            self.board.add(self.rt, Missed::Records(piece));
        }
    }

    fn add_refused(&mut self, fault: MessageError) {
        self.board.add(self.rt, Missed::Datagram(fault));
    }
}
