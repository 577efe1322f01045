//! Laws of kept messages, and of their flows.

ghost use Rattle.std.specs.Prelude.{◌≡◌, ℕ, ◌<◌, List};
ghost use Rattle.std.specs.List.{AllByRecursion};
ghost use Rattle.flow_codec.specs.Cutting.{IsCutOff};
ghost use Rattle.flow_measure.specs.declared.flow.Flow.{Flow};
ghost use Rattle.flow_measure.specs.Query.{flows_in_view};
ghost use Rattle.flow_measure.specs.View.{View};
ghost use Rattle.flow_model.specs.Shelf.{Shelf};
ghost use Rattle.flow_model.specs.Views.{IsViewOf};
ghost use Rattle.flow_segment.specs.Segment.{AreMessagesOf};
ghost use Rattle.flow_snapshot.specs.Files.{cut_into};
ghost use Rattle.flow_snapshot.specs.Found.{kept_by_file, AreOwnFlows, KeptFile};

/// Messages that fill a sealed segment's octets, so many, are those that the octets are cut into; and where each of
/// these is cut off by its own header, they fill the octets.
pub fn parts_are()
    ensures found { (octets : List ℕ) (count : ℕ) (messages : List (List ℕ)) → AreMessagesOf octets count messages
        → cut_into count octets ≡ messages }
    ensures whole { (octets : List ℕ) (count : ℕ) → 0 < count → AllByRecursion IsCutOff (cut_into count octets)
        → AreMessagesOf octets count (cut_into count octets) }
{}

/// The flows of a view are those of its files, each read after its own prefix; and files have no others.
pub fn flows_by_file()
    ensures view { (from to : ℕ) (s : Shelf) (v : View) → IsViewOf s v
        → AreOwnFlows from to (kept_by_file s) (flows_in_view from to v) }
    ensures once { (from to : ℕ) (files : List KeptFile) (flows others : List Flow) → AreOwnFlows from to files flows
        → AreOwnFlows from to files others → flows ≡ others }
{}
