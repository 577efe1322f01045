//! The numbers that count in a data record.

ghost use Rattle.std.specs.Prelude.{◌≡◌, ◌≤◌, length};
ghost use Rattle.std.specs.Option.{is_none};
ghost use Rattle.std.specs.List.{AllByRecursion};
ghost use Rattle.flow_codec.specs.Fields.{fields_in};
ghost use Rattle.flow_codec.specs.Plan.{most_of, values_by, values_of};
ghost use Rattle.flow_codec.specs.Raw.{IsWholeRecord};
ghost use Rattle.flow_elements.specs.Values.{number_of};
ghost use Rattle.flow_measure.specs.Counting.{no_counts, with_value, counts_with, flow_by, step_values, step_rest};
ghost use Rattle.flow_measure.specs.Counting.{IsStep, IsPlace, IsWide, ArePlaces, number_at, counts_at};
ghost use Rattle.flow_measure.specs.Caveats.{has_no_start, own_start, own_start_in};
ghost use Rattle.flow_measure.specs.Flows.{start_of, flow_from};

use crate::flow::Flow;
use flow_codec::{Definition, FieldStep, Header, Place, Places, Role, VARIABLE, Way, split_field};
use flow_elements::number_of;

/// The numbers found in a record so far, of each role the first.
#[derive(Clone, Copy, Debug)]
pub(crate) struct Counts {
    octets: Option<u64>,
    packets: Option<u64>,
    protocol: Option<u8>,
    seconds: Option<u32>,
    milliseconds: Option<u64>,
}

impl Counts {
    /// No numbers.
    pub(crate) fn none() -> Self
        ensures { result ≡ no_counts }
    {
        Counts {
            octets: None,
            packets: None,
            protocol: None,
            seconds: None,
            milliseconds: None,
        }
    }

    /// Takes the number of a value, unless one of its role came before.
    pub(crate) fn count(&mut self, role: Role, value: &[u8])
        requires { length value.now ≤ most_of role }
        ensures { self.new ≡ with_value role value.now self.old }
    {
        let number = number_of(value);
        match role {
            Role::Octets => self.octets = self.octets.or(Some(number)),
            Role::Packets => self.packets = self.packets.or(Some(number)),
            Role::Protocol => self.protocol = self.protocol.or(Some(number as u8)),
            Role::Seconds => self.seconds = self.seconds.or(Some(number as u32)),
            Role::Milliseconds => self.milliseconds = self.milliseconds.or(Some(number)),
        }
    }

    /// Takes the number that counts under one step, if any, and answers the octets after it.
    #[tactic(auto, unfolding(crate::specs::Counting::counts_with))]
    fn count_step<'a>(&mut self, step: &FieldStep, octets: &'a [u8]) -> &'a [u8]
        requires { IsStep step.now }
        ensures counts { self.new ≡ counts_with self.old (step_values step.now octets.now) }
        ensures rest { result.now ≡ step_rest step.now octets.now }
    {
        match step {
            FieldStep::Skip(count) => &octets[(*count).min(octets.len())..],
            FieldStep::Fixed(role, len) => {
                let (value, rest) = split_field(*len, octets);
                self.count(*role, value);
                rest
            }
            FieldStep::Variable(None) => split_field(VARIABLE, octets).1,
            FieldStep::Variable(Some(role)) => {
                let (value, rest) = split_field(VARIABLE, octets);
                if role.is_counted(value.len()) {
                    self.count(*role, value);
                }
                rest
            }
        }
    }

    /// The flow of a record with these numbers.
    pub(crate) fn flow(self, header: &Header) -> Flow
        ensures { result ≡ flow_by header.now self }
    {
        Flow {
            domain: header.domain,
            start: start_of(header.time, self.milliseconds, self.seconds),
            protocol: self.protocol,
            octets: self.octets.unwrap_or(0),
            packets: self.packets.unwrap_or(0),
        }
    }
}

/// The start of a record's own: milliseconds in seconds where these fit, else seconds.
fn own_start(milliseconds: Option<u64>, seconds: Option<u32>) -> Option<u32>
    ensures { result ≡ own_start milliseconds seconds }
{
    if let Some(n) = milliseconds {
        let start = n / 1000;
        if start <= 4294967295 {
            return Some(start as u32);
        }
    }
    seconds
}

/// The start of a record's own, else the message's Export Time.
fn start_of(time: u32, milliseconds: Option<u64>, seconds: Option<u32>) -> u32
    ensures { result ≡ start_of time milliseconds seconds }
{
    own_start(milliseconds, seconds).unwrap_or(time)
}

/// The numbers that count under these steps.
#[inline(never)]
fn counts_by(steps: &[FieldStep], octets: &[u8]) -> Counts
    requires { AllByRecursion IsStep steps.now }
    ensures { result ≡ counts_with no_counts (values_by steps.now octets.now) }
{
    let mut counts = Counts::none();
    let mut rest = octets;
    for step in steps {
        rest = counts.count_step(step, rest);
    }
    counts
}

/// The number at a place of a record.
#[inline(always)]
fn number_at(octets: &[u8], place: &Option<Place>) -> Option<u64>
    requires { (role : Role) × IsPlace role octets.now place.now }
    ensures { result ≡ number_at octets.now place.now }
{
    let Some(place) = place else {
        return None;
    };
    let at = place.at as usize;
    // The length that nearly all exporters use is looked for first.
    if place.len == 8 {
        return Some(number_of(&octets[at..at + 8]));
    }
    Some(reduced_number_of(&octets[at..at + place.len as usize]))
}

/// A number in at most 8 octets, the highest first, as in reduced-size encoding (RFC 7011, section 6.2).
#[inline(never)]
fn reduced_number_of(octets: &[u8]) -> u64
    requires { length octets.now ≤ 8 }
    ensures { result ≡ number_of octets.now }
{
    number_of(octets)
}

/// The number in the one octet at a place of a record.
fn protocol_at(octets: &[u8], place: Option<Place>) -> Option<u8>
    requires { IsWide 1 octets.now place }
    ensures { result ≡ number_at octets.now place }
{
    let at = place?.at as usize;
    Some(number_of(&octets[at..at + 1]) as u8)
}

/// A number in at most 4 octets, the highest first.
fn short_number_of(octets: &[u8]) -> u32
    requires { length octets.now ≤ 4 }
    ensures { result ≡ number_of octets.now }
{
    number_of(octets) as u32
}

/// The number in the 4 octets at a place of a record.
fn seconds_at(octets: &[u8], place: Option<Place>) -> Option<u32>
    requires { IsWide 4 octets.now place }
    ensures { result ≡ number_at octets.now place }
{
    let at = place?.at as usize;
    Some(short_number_of(&octets[at..at + 4]))
}

/// The number in the 8 octets at a place of a record.
fn milliseconds_at(octets: &[u8], place: Option<Place>) -> Option<u64>
    requires { IsWide 8 octets.now place }
    ensures { result ≡ number_at octets.now place }
{
    let at = place?.at as usize;
    Some(number_of(&octets[at..at + 8]))
}

/// The start of its own of a record whose numbers are at these places.
#[inline(always)]
fn own_start_at(octets: &[u8], places: &Places) -> Option<u32>
    requires { ArePlaces octets.now places.now }
    ensures { result ≡ own_start (counts_at octets.now places.now).milliseconds
        (counts_at octets.now places.now).seconds }
{
    if let Some(n) = milliseconds_at(octets, places.milliseconds) {
        let start = n / 1000;
        if start <= 4294967295 {
            return Some(start as u32);
        }
    }
    seconds_at(octets, places.seconds)
}

/// When the flow of a record starts whose numbers are at these places.
#[inline(always)]
fn start_at(header: &Header, octets: &[u8], places: &Places) -> u32
    requires { ArePlaces octets.now places.now }
    ensures { result ≡ (flow_by header.now (counts_at octets.now places.now)).start }
{
    own_start_at(octets, places).unwrap_or(header.time)
}

/// The flow of a record whose numbers are at these places.
#[inline(always)]
fn flow_at(header: &Header, octets: &[u8], places: &Places) -> Flow
    requires { ArePlaces octets.now places.now }
    ensures { result ≡ flow_by header.now (counts_at octets.now places.now) }
{
    Flow {
        domain: header.domain,
        start: start_at(header, octets, places),
        protocol: protocol_at(octets, places.protocol),
        octets: number_at(octets, &places.octets).unwrap_or(0),
        packets: number_at(octets, &places.packets).unwrap_or(0),
    }
}

/// The flow of a record by these steps. It is a function of its own so that their numbers take no memory where the
/// places are known.
#[inline(always)]
fn flow_by(header: &Header, steps: &[FieldStep], octets: &[u8]) -> Flow
    requires { AllByRecursion IsStep steps.now }
    ensures { result ≡ flow_by header.now (counts_with no_counts (values_by steps.now octets.now)) }
{
    counts_by(steps, octets).flow(header)
}

/// The flow of a whole record of a Template. Where each field is of fixed length, its numbers are read at their places.
#[inline(always)]
pub fn flow_of(header: &Header, definition: &Definition, octets: &[u8]) -> Flow
    requires { IsWholeRecord definition.now octets.now }
    ensures { result ≡ flow_from header.now (values_of (fields_in definition.now.fields octets.now)) }
{
    match &definition.plan().way {
        Way::ByPlaces(places) => flow_at(header, octets, places),
        Way::BySteps(steps) => flow_by(header, steps.as_slice(), octets),
    }
}

/// The start of its own of a record that is read by these steps.
#[inline(never)]
fn own_start_by(steps: &[FieldStep], octets: &[u8]) -> Option<u32>
    requires { AllByRecursion IsStep steps.now }
    ensures { result ≡ own_start (counts_with no_counts (values_by steps.now octets.now)).milliseconds
        (counts_with no_counts (values_by steps.now octets.now)).seconds }
{
    let counts = counts_by(steps, octets);
    own_start(counts.milliseconds, counts.seconds)
}

/// The start, in seconds since 1970-01-01 00:00 UTC, that a whole record of a Template has of its own: milliseconds
/// where they fit in 32 bits of seconds, else seconds; none where its flow starts at the Export Time of its message.
/// Where each field is of fixed length, nothing else of it is read.
#[inline(always)]
pub fn own_start_of(definition: &Definition, octets: &[u8]) -> Option<u32>
    requires { IsWholeRecord definition.now octets.now }
    ensures { result ≡ own_start_in (values_of (fields_in definition.now.fields octets.now)) }
{
    match &definition.plan().way {
        Way::ByPlaces(places) => own_start_at(octets, places),
        Way::BySteps(steps) => own_start_by(steps.as_slice(), octets),
    }
}

/// When the flow of a whole record of a Template starts. Where each field is of fixed length, nothing else of it is
/// read.
#[inline(always)]
pub fn start_of_flow(header: &Header, definition: &Definition, octets: &[u8]) -> u32
    requires { IsWholeRecord definition.now octets.now }
    ensures { result ≡ (flow_from header.now (values_of (fields_in definition.now.fields octets.now))).start }
{
    own_start_of(definition, octets).unwrap_or(header.time)
}

/// Whether a whole record of a Template has no start that counts, so that its flow starts at the Export Time of its
/// message. Where each field is of fixed length, nothing else of it is read.
#[inline(always)]
pub fn has_no_start(definition: &Definition, octets: &[u8]) -> bool
    requires { IsWholeRecord definition.now octets.now }
    ensures { result ≡ has_no_start (values_of (fields_in definition.now.fields octets.now)) }
{
    own_start_of(definition, octets).is_none()
}
