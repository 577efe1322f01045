//! Laws of events and what they lead to.

ghost use Rattle.flow_headline.specs.IpfixFiles.{FilesAreIpfix};
ghost use Rattle.flow_headline.specs.Lives.{LivesHaveHistories};
ghost use Rattle.flow_headline.specs.Openings.{AnswersLeadToOneState};

/// Two states after the same events, with the same answers, are one.
pub fn answers_lead_to_one_state()
    ensures { AnswersLeadToOneState }
{}

/// Who has a history of an archive when it is made, has one after every opening since.
pub fn lives_have_histories()
    ensures { LivesHaveHistories }
{}

/// Whatever a stop left of an archive, each file that its manifest names is an IPFIX File (RFC 5655), as far as its
/// octets count: a segment one of its prefix's messages and its own, and a file of sums one of its rows.
pub fn files_are_ipfix()
    ensures { FilesAreIpfix }
{}
