//! Information elements, their types and their names.

ghost use Rattle.std.specs.Prelude.{◌≡◌, option_map};
ghost use Rattle.flow_elements.specs.Elements.{type_of, name_of};
ghost use Rattle.flow_elements.specs.Lending.{listed_of};

/// An information element (RFC 7011, section 3.2).
#[derive(Clone, Copy, Debug, PartialEq, Eq)]
pub struct ElementId {
    /// The number of the enterprise that defines the element; `None` for one of IANA's.
    pub enterprise: Option<u32>,
    /// The element's number, of 15 bits in a message.
    pub number: u16,
}

/// The length of an unsigned number, in octets.
#[derive(Clone, Copy, Debug, PartialEq, Eq)]
pub enum Width {
    One,
    Two,
    Four,
    Eight,
}

/// The abstract data type of an information element (RFC 7012, section 3.1).
#[derive(Clone, Copy, Debug, PartialEq, Eq)]
pub enum ElementType {
    /// A number; more than one octet may come in fewer octets (RFC 7011, section 6.2).
    Unsigned(Width),
    /// An IPv4 address, 4 octets.
    Address4,
    /// An IPv6 address, 16 octets.
    Address6,
    /// A MAC address, 6 octets.
    Mac,
    /// Seconds since 1970-01-01 00:00 UTC, 4 octets.
    Seconds,
    /// Milliseconds since 1970-01-01 00:00 UTC, 8 octets.
    Milliseconds,
    /// Octets of any length. So is each element that isn't listed, and each of an enterprise.
    Other,
}

/// The name of a listed element, as in IANA's registry, and its type.
pub fn listed_element(id: ElementId) -> Option<(&'static str, ElementType)>
    ensures { option_map (λ e. (e.0.now, e.1)) result ≡ listed_of id }
{
    if id.enterprise.is_some() {
        return None;
    }
    match id.number {
        1 => Some(("octetDeltaCount", ElementType::Unsigned(Width::Eight))),
        2 => Some(("packetDeltaCount", ElementType::Unsigned(Width::Eight))),
        4 => Some(("protocolIdentifier", ElementType::Unsigned(Width::One))),
        5 => Some(("ipClassOfService", ElementType::Unsigned(Width::One))),
        7 => Some(("sourceTransportPort", ElementType::Unsigned(Width::Two))),
        8 => Some(("sourceIPv4Address", ElementType::Address4)),
        10 => Some(("ingressInterface", ElementType::Unsigned(Width::Four))),
        11 => Some((
            "destinationTransportPort",
            ElementType::Unsigned(Width::Two),
        )),
        12 => Some(("destinationIPv4Address", ElementType::Address4)),
        14 => Some(("egressInterface", ElementType::Unsigned(Width::Four))),
        16 => Some(("bgpSourceAsNumber", ElementType::Unsigned(Width::Four))),
        17 => Some(("bgpDestinationAsNumber", ElementType::Unsigned(Width::Four))),
        27 => Some(("sourceIPv6Address", ElementType::Address6)),
        28 => Some(("destinationIPv6Address", ElementType::Address6)),
        56 => Some(("sourceMacAddress", ElementType::Mac)),
        58 => Some(("vlanId", ElementType::Unsigned(Width::Two))),
        60 => Some(("ipVersion", ElementType::Unsigned(Width::One))),
        80 => Some(("destinationMacAddress", ElementType::Mac)),
        85 => Some(("octetTotalCount", ElementType::Unsigned(Width::Eight))),
        86 => Some(("packetTotalCount", ElementType::Unsigned(Width::Eight))),
        136 => Some(("flowEndReason", ElementType::Unsigned(Width::One))),
        144 => Some(("exportingProcessId", ElementType::Unsigned(Width::Four))),
        145 => Some(("templateId", ElementType::Unsigned(Width::Two))),
        148 => Some(("flowId", ElementType::Unsigned(Width::Eight))),
        149 => Some(("observationDomainId", ElementType::Unsigned(Width::Four))),
        150 => Some(("flowStartSeconds", ElementType::Seconds)),
        151 => Some(("flowEndSeconds", ElementType::Seconds)),
        152 => Some(("flowStartMilliseconds", ElementType::Milliseconds)),
        153 => Some(("flowEndMilliseconds", ElementType::Milliseconds)),
        210 => Some(("paddingOctets", ElementType::Other)),
        376 => Some((
            "originalFlowsInitiated",
            ElementType::Unsigned(Width::Eight),
        )),
        384 => Some(("valueDistributionMethod", ElementType::Unsigned(Width::One))),
        _ => None,
    }
}

/// The type of an element: of RFC 7012 for those listed, else `Other`.
pub fn element_type(id: ElementId) -> ElementType
    ensures { result ≡ type_of id }
{
    match listed_element(id) {
        Some((_, kind)) => kind,
        None => ElementType::Other,
    }
}

/// The name of a listed element, as in IANA's registry.
pub fn element_name(id: ElementId) -> Option<&'static str>
    ensures { option_map (λ name. name.now) result ≡ name_of id }
{
    match listed_element(id) {
        Some((name, _)) => Some(name),
        None => None,
    }
}
