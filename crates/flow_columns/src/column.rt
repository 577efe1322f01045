//! Columns, and the names that ask for them.

ghost use Rattle.std.specs.Prelude.{◌≡◌, ◌<◌, ◌^◌, codes, option_map};
ghost use Rattle.flow_columns.specs.declared.column.Column.TheVariants.{Element};
ghost use Rattle.flow_columns.specs.Columns.{column_of, element_of, listed_number, number_after_e, numbered};

use flow_elements::ElementId;
use flow_report::number_between;

/// The greatest number of an element: 15 bits (RFC 7011, section 3.2).
const MOST_NUMBER: u64 = 32_767;

/// The greatest number of an enterprise.
const MOST_ENTERPRISE: u64 = 4_294_967_295;

/// What a column has of a flow's data record.
#[derive(Clone, Copy, Debug, PartialEq, Eq)]
pub enum Column {
    /// When the flow starts.
    Start,
    /// The Observation Domain of the record's message.
    Domain,
    /// The ID of the record's template.
    Template,
    /// The record's first field of this element.
    Element(ElementId),
}

/// The number of the listed element with a name, as in IANA's registry.
fn listed_number(name: &str) -> Option<u16>
    ensures { result ≡ listed_number name.now }
{
    match name {
        "octetDeltaCount" => Some(1),
        "packetDeltaCount" => Some(2),
        "octetTotalCount" => Some(85),
        "packetTotalCount" => Some(86),
        "flowId" => Some(148),
        "originalFlowsInitiated" => Some(376),
        "ingressInterface" => Some(10),
        "egressInterface" => Some(14),
        "bgpSourceAsNumber" => Some(16),
        "bgpDestinationAsNumber" => Some(17),
        "exportingProcessId" => Some(144),
        "observationDomainId" => Some(149),
        "sourceTransportPort" => Some(7),
        "destinationTransportPort" => Some(11),
        "vlanId" => Some(58),
        "templateId" => Some(145),
        "protocolIdentifier" => Some(4),
        "ipClassOfService" => Some(5),
        "ipVersion" => Some(60),
        "flowEndReason" => Some(136),
        "valueDistributionMethod" => Some(384),
        "sourceIPv4Address" => Some(8),
        "destinationIPv4Address" => Some(12),
        "sourceIPv6Address" => Some(27),
        "destinationIPv6Address" => Some(28),
        "sourceMacAddress" => Some(56),
        "destinationMacAddress" => Some(80),
        "flowStartSeconds" => Some(150),
        "flowEndSeconds" => Some(151),
        "flowStartMilliseconds" => Some(152),
        "flowEndMilliseconds" => Some(153),
        "paddingOctets" => Some(210),
        _ => None,
    }
}

/// The number after an `e`, digits alone.
fn number_after_e(word: &str, most: u64) -> Option<u64>
    requires { most < 2 ^ 60 }
    ensures { result ≡ number_after_e most word.now }
{
    let octets = word.as_bytes();
    if octets.is_empty() || octets[0] != b'e' {
        return None;
    }
    number_between(0, most, &octets[1..])
}

/// The element that `eNUMBER` or `eENTERPRISE.NUMBER` is.
fn numbered(name: &str) -> Option<ElementId>
    ensures { result ≡ numbered name.now }
{
    match name.split_once('.') {
        Some((front, back)) => {
            let enterprise = number_after_e(front, MOST_ENTERPRISE)?;
            let number = number_between(0, MOST_NUMBER, back.as_bytes())?;
            Some(ElementId {
                enterprise: Some(enterprise as u32),
                number: number as u16,
            })
        }
        None => {
            let number = number_after_e(name, MOST_NUMBER)?;
            Some(ElementId {
                enterprise: None,
                number: number as u16,
            })
        }
    }
}

/// The element with a name.
fn element_of(name: &str) -> Option<ElementId>
    ensures { result ≡ element_of name.now }
{
    match listed_number(name) {
        Some(number) => Some(ElementId {
            enterprise: None,
            number,
        }),
        None => numbered(name),
    }
}

/// The column of an element, where there is one.
fn column_by(element: Option<ElementId>) -> Option<Column>
    ensures { result ≡ option_map Element element }
{
    match element {
        Some(id) => Some(Column::Element(id)),
        None => None,
    }
}

/// The column that a name asks for.
pub(crate) fn column_of(name: &str) -> Option<Column>
    ensures { result ≡ column_of name.now }
{
    match name {
        "start" => Some(Column::Start),
        "domain" => Some(Column::Domain),
        "template" => Some(Column::Template),
        _ => column_by(element_of(name)),
    }
}
