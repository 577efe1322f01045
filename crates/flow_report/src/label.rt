//! The text before a listed element's value on a record's line.

ghost use Rattle.std.specs.Prelude.{◌≡◌, ◌≤◌, ℕ, List, ◌∷◌, ◌++◌, [], drop, option_map, IfSome};
ghost use Rattle.flow_elements.specs.Lending.{listed_of};

use flow_elements::ElementType::{Address4, Address6, Mac, Milliseconds, Other, Seconds};
use flow_elements::{ElementId, ElementType, Width};

/// How many octets hold a label: no text of one is longer.
pub(crate) const LABEL_ROOM: usize = 32;

// Numbers by their width in octets.
const ONE: ElementType = ElementType::Unsigned(Width::One);

const TWO: ElementType = ElementType::Unsigned(Width::Two);

const FOUR: ElementType = ElementType::Unsigned(Width::Four);

const EIGHT: ElementType = ElementType::Unsigned(Width::Eight);

/// A listed element's type, and its text ` NAME=` at the end of octets that are copied whole.
#[derive(Clone, Copy)]
pub(crate) struct Label {
    pub(crate) octets: &'static [u8; LABEL_ROOM],
    /// How many octets are before the text.
    pub(crate) before: usize,
    pub(crate) kind: ElementType,
}

/// The label of a listed element.
const fn listed(
    octets: &'static [u8; LABEL_ROOM],
    before: usize,
    kind: ElementType,
) -> Option<Label>
    ensures { result ≡ Some (record { octets = octets.entry; before = before; kind = kind }) }
{
    Some(Label {
        octets,
        before,
        kind,
    })
}

/// The label of a listed element, by its name in IANA's registry.
pub(crate) fn label_of(id: &ElementId) -> Option<Label>
    ensures text { option_map {U = List ℕ × ElementType} (λ l. (drop l.before l.octets.now, l.kind)) result
        ≡ option_map {U = List ℕ × ElementType} (λ e. (32 ∷ e.0 ++ 61 ∷ [], e.1)) (listed_of id.now) }
    ensures before { IfSome result (λ l. l.before ≤ 32) }
{
    if id.enterprise.is_some() {
        return None;
    }
    match id.number {
        1 => listed(b"                octetDeltaCount=", 15, EIGHT),
        2 => listed(b"               packetDeltaCount=", 14, EIGHT),
        4 => listed(b"             protocolIdentifier=", 12, ONE),
        5 => listed(b"               ipClassOfService=", 14, ONE),
        7 => listed(b"            sourceTransportPort=", 11, TWO),
        8 => listed(b"              sourceIPv4Address=", 13, Address4),
        10 => listed(b"               ingressInterface=", 14, FOUR),
        11 => listed(b"       destinationTransportPort=", 6, TWO),
        12 => listed(b"         destinationIPv4Address=", 8, Address4),
        14 => listed(b"                egressInterface=", 15, FOUR),
        16 => listed(b"              bgpSourceAsNumber=", 13, FOUR),
        17 => listed(b"         bgpDestinationAsNumber=", 8, FOUR),
        27 => listed(b"              sourceIPv6Address=", 13, Address6),
        28 => listed(b"         destinationIPv6Address=", 8, Address6),
        56 => listed(b"               sourceMacAddress=", 14, Mac),
        58 => listed(b"                         vlanId=", 24, TWO),
        60 => listed(b"                      ipVersion=", 21, ONE),
        80 => listed(b"          destinationMacAddress=", 9, Mac),
        85 => listed(b"                octetTotalCount=", 15, EIGHT),
        86 => listed(b"               packetTotalCount=", 14, EIGHT),
        136 => listed(b"                  flowEndReason=", 17, ONE),
        144 => listed(b"             exportingProcessId=", 12, FOUR),
        145 => listed(b"                     templateId=", 20, TWO),
        148 => listed(b"                         flowId=", 24, EIGHT),
        149 => listed(b"            observationDomainId=", 11, FOUR),
        150 => listed(b"               flowStartSeconds=", 14, Seconds),
        151 => listed(b"                 flowEndSeconds=", 16, Seconds),
        152 => listed(b"          flowStartMilliseconds=", 9, Milliseconds),
        153 => listed(b"            flowEndMilliseconds=", 11, Milliseconds),
        210 => listed(b"                  paddingOctets=", 17, Other),
        376 => listed(b"         originalFlowsInitiated=", 8, EIGHT),
        384 => listed(b"        valueDistributionMethod=", 7, ONE),
        _ => None,
    }
}
