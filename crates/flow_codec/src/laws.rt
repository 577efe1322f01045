//! Laws of the format: what its definitions say of all octets.

ghost use Rattle.std.specs.Prelude.{◌≡◌, ◌≢◌, ◌<◌, ◌≤◌, ◌+◌, ◌^◌, List, [], ◌++◌, length, ℕ, Some};
ghost use Rattle.flow_elements.specs.declared.element.ElementId.{ElementId};
ghost use Rattle.flow_codec.specs.declared.losses.Losses.{Losses};
ghost use Rattle.flow_codec.specs.Layout.{Layout};
ghost use Rattle.flow_codec.specs.Losses.{joined_losses, losses_from, none_after, AreCounts};
ghost use Rattle.flow_codec.specs.Fields.{AreFields, fields_in};
ghost use Rattle.flow_codec.specs.Templates.{AllTemplates, AreDefinitions, AreTemplatesInForce, IsOnce, applied};
ghost use Rattle.flow_codec.specs.Templates.{definition_of, definitions_of, unless_own};
ghost use Rattle.flow_codec.specs.Raw.{RawMessage, IsWholeRecord};
ghost use Rattle.flow_codec.specs.Message.{IsAccepted, IsMessage};
ghost use Rattle.flow_codec.specs.Replaced.{AreReplaced, replaced_of};
ghost use Rattle.flow_codec.specs.Unread.{AreUnread, unread_of};
ghost use Rattle.flow_codec.specs.File.{IsFile, AcceptedFront, AreAccepted, whole, broken};
ghost use Rattle.flow_codec.specs.Prefix.{prefix_messages, prefix_reads, AreDomains, AreNumbers};
ghost use Rattle.flow_codec.specs.declared.file.FileError.{FileError};
ghost use Rattle.flow_codec.specs.Fault.{IsFault, IsOctets, IsAnswered};
ghost use Rattle.flow_codec.specs.declared.error.MessageError.{MessageError};
ghost use Rattle.flow_codec.specs.declared.kind.TemplateKind.{TemplateKind};
ghost use Rattle.flow_codec.specs.declared.message.Field.{Field};
ghost use Rattle.flow_codec.specs.declared.templates.TemplateRecord.TheVariants.{Define, Withdraw, WithdrawAll};
ghost use Rattle.flow_codec.specs.declared.templates.TemplateRecord.{TemplateRecord};

/// Octets are one accepted message, or have one first fault, and never both. The message and the templates after it are
/// a function of the octets and the templates before. What holds of templates in force is kept: each domain and each ID
/// once, no domain without definitions, definitions that a template record can give, and both limits.
pub fn one_answer()
    ensures some { (octets : List ℕ) (before : AllTemplates) → IsOctets octets → IsAnswered octets before }
    ensures one_message { (octets : List ℕ) (before after other : AllTemplates) (m n : RawMessage)
        → IsAccepted octets before m after → IsAccepted octets before n other → m ≡ n }
    ensures one_state { (octets : List ℕ) (before after other : AllTemplates) (m n : RawMessage)
        → IsAccepted octets before m after → IsAccepted octets before n other → after ≡ other }
    ensures one_fault { (octets : List ℕ) (before : AllTemplates) (d e : MessageError) → IsOctets octets
        → IsFault octets before d → IsFault octets before e → d ≡ e }
    ensures never_both { (octets : List ℕ) (before after : AllTemplates) (m : RawMessage) (d : MessageError)
        → IsOctets octets → IsAccepted octets before m after → IsFault octets before d → ⊥ }
    ensures in_force { (octets : List ℕ) (before after : AllTemplates) (m : RawMessage) → AreTemplatesInForce before
        → IsAccepted octets before m after → AreTemplatesInForce after }
{}

/// The octets of a whole record divide into fields in one way, which `fields_in` gives, and octets begin with at most
/// one whole record of a definition.
pub fn one_division()
    ensures fields { (layout : Layout) (octets : List ℕ) → IsWholeRecord layout octets
        → AreFields layout.fields octets (fields_in layout.fields octets) }
    ensures one { (specifiers : List (ElementId × ℕ)) (octets : List ℕ) (xs ys : List Field)
        → AreFields specifiers octets xs → AreFields specifiers octets ys → xs ≡ ys }
    ensures front { (layout : Layout) (octets others rest back : List ℕ) → IsWholeRecord layout octets
        → IsWholeRecord layout others → octets ++ rest ≡ others ++ back → octets ≡ others }
{}

/// The data Sets of a message without a definition in force, which are found by reading, are those of its Sets of which
/// this holds under the templates of the Sets before it.
pub fn unread_sets()
    ensures { (octets : List ℕ) (before after : AllTemplates) (m : RawMessage) (h : IsMessage octets before m after)
        → AreUnread m.header.domain before h.sets (unread_of before octets) }
{}

/// How many template records of a message replace a definition, which is found by reading, is how many of its Sets'
/// template records define an ID otherwise than the definition in force before them.
pub fn replaced_definitions()
    ensures { (octets : List ℕ) (before after : AllTemplates) (m : RawMessage) (h : IsMessage octets before m after)
        → AreReplaced m.header.domain before h.sets (replaced_of before octets) }
{}

/// What messages show of records that aren't read is the same, whether they are counted as one piece or as two.
pub fn losses_by_pieces()
    ensures { (a : Losses) (messages : List Losses) → AreCounts a
        → joined_losses a (losses_from (none_after a) messages) ≡ losses_from a messages }
{}

/// A message has fewer than 65,536 octets, at least one for each data record after its header, and changes the
/// templates of its own domain alone.
pub fn message_bounds()
    ensures size { (octets : List ℕ) (before after : AllTemplates) (m : RawMessage) → IsAccepted octets before m after
        → (m.header.length ≡ length octets) × (length octets < 2 ^ 16) }
    ensures records { (octets : List ℕ) (before after : AllTemplates) (m : RawMessage)
        → IsAccepted octets before m after → 16 + length m.records ≤ length octets }
    ensures domains { (octets : List ℕ) (before after : AllTemplates) (m : RawMessage) (other : ℕ)
        → IsAccepted octets before m after → other ≢ m.header.domain
        → definitions_of other after ≡ definitions_of other before }
{}

/// What a template record changes, where no domain and no ID of its domain is listed twice, as holds of templates in
/// force.
pub fn template_changes()
    // What is defined is in force, and other IDs are as before.
    ensures defined { (domain id : ℕ) (kind : TemplateKind) (layout : Layout) (all : AllTemplates) → IsOnce all
        → AreDefinitions (definitions_of domain all)
        → definition_of id (definitions_of domain (applied domain kind (Define id layout) all)) ≡ Some layout }
    ensures not_defined { (domain id other : ℕ) (kind : TemplateKind) (layout : Layout) (all : AllTemplates)
        → IsOnce all → other ≢ id
        → definition_of other
        (definitions_of domain (applied domain kind (Define id layout) all)) ≡ definition_of other
        (definitions_of domain all) }
    // A withdrawal takes away the definition of the ID where it is of its own kind, and leaves other IDs.
    ensures withdrawn { (domain id : ℕ) (kind : TemplateKind) (all : AllTemplates) → IsOnce all
        → AreDefinitions (definitions_of domain all)
        → definition_of id (definitions_of domain (applied domain kind (Withdraw id) all)) ≡ unless_own kind
        (definition_of id (definitions_of domain all)) }
    ensures not_withdrawn { (domain id other : ℕ) (kind : TemplateKind) (all : AllTemplates) → IsOnce all → other ≢ id
        → definition_of other (definitions_of domain (applied domain kind (Withdraw id) all)) ≡ definition_of other
        (definitions_of domain all) }
    // A withdrawal of all takes away each definition of its own kind, and no other.
    ensures all_withdrawn { (domain id : ℕ) (kind : TemplateKind) (all : AllTemplates) → IsOnce all
        → AreDefinitions (definitions_of domain all)
        → definition_of id (definitions_of domain (applied domain kind WithdrawAll all)) ≡ unless_own kind
        (definition_of id (definitions_of domain all)) }
    // Other domains keep their definitions.
    ensures domains { (domain other : ℕ) (kind : TemplateKind) (change : TemplateRecord) (all : AllTemplates)
        → other ≢ domain → definitions_of other (applied domain kind change all) ≡ definitions_of other all }
{}

/// Octets that are accepted to their end are a File of the same messages, and the octets of a File have no fault of a
/// File: from no templates on they are accepted to their end, or up to a message that is refused.
pub fn files_and_fronts()
    ensures file { (octets : List ℕ) (messages : List RawMessage) (after : AllTemplates)
        → AcceptedFront octets messages after whole → IsFile octets messages after }
    ensures unbroken { (octets : List ℕ) (messages others : List RawMessage) (after then : AllTemplates)
        (fault : FileError) → IsFile octets messages after → AcceptedFront octets others then (broken fault) → ⊥ }
{}

/// The messages that restate templates in force are accepted from no templates on: they have no data records, and leave
/// just these templates, in their order.
pub fn restated_templates()
    ensures { (time : ℕ) (due : List (ℕ × ℕ)) (all : AllTemplates) → AreTemplatesInForce all → AreDomains all
        → AreNumbers due → time < 2 ^ 32
        → AreAccepted [] (prefix_messages time due all) (prefix_reads time due all) all }
{}
