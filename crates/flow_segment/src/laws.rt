//! Laws of segments.

ghost use Rattle.std.specs.Prelude.{◌≡◌, ℕ, ◌+◌, ◌*◌, ◌<◌, ◌≤◌, ◌^◌, length, List, [], ◌∷◌, ◌++◌, map};
ghost use Rattle.flow_disk.specs.Window.{Window};
ghost use Rattle.flow_codec.specs.File.{IsFile};
ghost use Rattle.flow_codec.specs.Fault.{IsOctets};
ghost use Rattle.flow_codec.specs.Message.{in_fields, IsAccepted};
ghost use Rattle.flow_codec.specs.Raw.{RawMessage};
ghost use Rattle.flow_measure.specs.History.{Accepted, AreAcceptedFrom, read_from, templates_from};
ghost use Rattle.flow_segment.specs.Carry.{carry_from, carry_with, no_carry, octets_of, restated, segment_octets};
ghost use Rattle.flow_segment.specs.Carry.{Carry, IsCarry, IsReadBack};
ghost use Rattle.std.specs.List.{AllByRecursion};
ghost use Rattle.flow_codec.specs.Cutting.{IsCutOff};
ghost use Rattle.flow_codec.specs.Message.{joined};
ghost use Rattle.flow_segment.specs.Part.{rest_of, Gives};
ghost use Rattle.flow_codec.specs.Templates.{AllTemplates};
ghost use Rattle.flow_measure.specs.declared.flow.Flow.{Flow};
ghost use Rattle.flow_measure.specs.Flows.{flows_of, FlowFits};
ghost use Rattle.flow_measure.specs.History.{flows_in};
ghost use Rattle.flow_measure.specs.Sums.{table_of, AllFit};
ghost use Rattle.flow_segment.specs.PartFlows.{with_flows};

/// What a segment passes on.
pub fn handed_on()
    // A carry stays one with each accepted message.
    ensures start { IsCarry (no_carry 0) }
    ensures kept { (c : Carry) (a : Accepted) → IsCarry c → IsAccepted a.octets c.templates a.message a.after
        → IsCarry (carry_with c a) }
    // The prefix, read from nothing, is accepted messages without data records, and passes on the same.
    ensures read_back { (c : Carry) → IsCarry c → IsReadBack c (restated c) }
    ensures read { (c : Carry) → IsCarry c → read_from [] (octets_of (restated c)) ≡ restated c }
    // What a segment passes on is known from that segment alone, once it has a message.
    ensures alone { (c : Carry) (time : ℕ) (a : Accepted) (more : List Accepted) → IsCarry c
        → carry_from (no_carry time) (restated c ++ a ∷ more) ≡ carry_from c (a ∷ more) }
    // The octets of a sealed segment are a File of its prefix and its messages.
    ensures file { (c : Carry) (messages : List Accepted) → IsCarry c → AreAcceptedFrom c.templates messages
        → IsFile (segment_octets c messages) (map (λ a. a.message) (restated c ++ messages))
        (templates_from c.templates messages) }
{}

/// What a window gives up to the end of a part are the part's messages.
pub fn read_to_the_end()
    ensures { (octets : List ℕ) (file : ℕ) (c last : Window) (messages parts : List (List ℕ))
        → Gives octets file c messages last → rest_of octets c ≡ joined parts → AllByRecursion IsCutOff parts
        → messages ≡ parts }
{}

/// An accepted message has at most 65,535 records, and the counts of each of its flows fit their types: each is read
/// from at most eight octets. The octets are numbers below 256.
pub fn accepted_message_fits()
    ensures few { (octets : List ℕ) (before after : AllTemplates) (message : RawMessage)
        → IsAccepted octets before message after → length message.records ≤ 65535 }
    ensures fit { (octets : List ℕ) (before after : AllTemplates) (message : RawMessage) → IsOctets octets
        → IsAccepted octets before message after → AllByRecursion FlowFits (flows_of (in_fields message)) }
    ensures all { (before : AllTemplates) (messages : List Accepted) → AreAcceptedFrom before messages
        → AllByRecursion (λ a. IsOctets a.octets) messages → AllByRecursion FlowFits (flows_in messages) }
{}

/// The sums of flows and of those of messages after them fit their types, where they are few: a message has fewer than
/// 65,536 flows. To add these is never refused by 14.
pub fn few_messages_fit()
    ensures { (width : ℕ) (before : AllTemplates) (flows : List Flow) (messages : List Accepted)
        → AreAcceptedFrom before messages → AllByRecursion FlowFits flows → AllByRecursion FlowFits (flows_in messages)
        → length flows + 65536 * length messages < 2 ^ 64
        → AllFit (with_flows (flows_in messages) (table_of width flows)) }
{}
