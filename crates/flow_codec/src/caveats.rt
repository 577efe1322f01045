//! Elements of definitions whose records may have sums that are other than their exporter means.

ghost use Rattle.std.specs.Prelude.{◌≡◌, ◌||◌};
ghost use Rattle.flow_codec.specs.Caveats.{are_uncounted, elements_of, is_octets, is_other_octets, is_other_packets};
ghost use Rattle.flow_codec.specs.Caveats.{is_packets, is_rate, with_element};

use flow_elements::ElementId;

/// Which elements the records of a definition have, by IANA's numbers alone.
#[derive(Clone, Copy)]
pub(crate) struct Elements {
    /// octetDeltaCount, which is summed.
    octets: bool,
    /// packetDeltaCount, which is summed.
    packets: bool,
    /// postOctetDeltaCount, octetTotalCount or layer2OctetDeltaCount.
    other_octets: bool,
    /// postPacketDeltaCount or packetTotalCount.
    other_packets: bool,
    /// A sampling rate.
    pub(crate) rate: bool,
}

/// Whether octetDeltaCount was found, or is this element.
fn has_octets(found: bool, id: ElementId) -> bool
    ensures { result ≡ (found || is_octets id) }
{
    found || (id.enterprise.is_none() && id.number == 1)
}

/// Whether packetDeltaCount was found, or is this element.
fn has_packets(found: bool, id: ElementId) -> bool
    ensures { result ≡ (found || is_packets id) }
{
    found || (id.enterprise.is_none() && id.number == 2)
}

/// Whether postOctetDeltaCount, octetTotalCount or layer2OctetDeltaCount was found, or is this element.
fn has_other_octets(found: bool, id: ElementId) -> bool
    ensures { result ≡ (found || is_other_octets id) }
{
    found || (id.enterprise.is_none() && (id.number == 23 || id.number == 85 || id.number == 352))
}

/// Whether postPacketDeltaCount or packetTotalCount was found, or is this element.
fn has_other_packets(found: bool, id: ElementId) -> bool
    ensures { result ≡ (found || is_other_packets id) }
{
    found || (id.enterprise.is_none() && (id.number == 24 || id.number == 86))
}

/// Whether a sampling rate was found, or is this element: samplingInterval, samplerRandomInterval, or a parameter of a
/// sampling method (RFC 5477, section 8.2).
fn has_rate(found: bool, id: ElementId) -> bool
    ensures { result ≡ (found || is_rate id) }
{
    if found || id.enterprise.is_some() {
        return found;
    }
    id.number == 34 || id.number == 50 || (305 <= id.number && id.number <= 311)
}

/// Which elements were found, with one more.
fn with_element(found: Elements, id: ElementId) -> Elements
    ensures { result ≡ with_element found id }
{
    Elements {
        octets: has_octets(found.octets, id),
        packets: has_packets(found.packets, id),
        other_octets: has_other_octets(found.other_octets, id),
        other_packets: has_other_packets(found.other_packets, id),
        rate: has_rate(found.rate, id),
    }
}

/// Which elements are among these fields.
pub(crate) fn elements_of(fields: &[(ElementId, u16)]) -> Elements
    ensures { result ≡ elements_of fields.now }
{
    let mut found = Elements {
        octets: false,
        packets: false,
        other_octets: false,
        other_packets: false,
        rate: false,
    };
    for (id, _) in fields {
        found = with_element(found, *id);
    }
    found
}

/// Whether octets or packets are counted by another element alone.
pub(crate) fn are_uncounted(elements: Elements) -> bool
    ensures { result ≡ are_uncounted elements }
{
    (elements.other_octets && !elements.octets) || (elements.other_packets && !elements.packets)
}
