//! Laws of rolled files.

ghost use Rattle.std.specs.Prelude.{◌≡◌, ℕ, ◌<◌, ◌≤◌, ◌^◌, List, [], ◌∷◌, ◌++◌, length, map, Option, None};
ghost use Rattle.std.specs.List.{AllByRecursion, Contains};
ghost use Rattle.std.specs.FinMap.{get};
ghost use Rattle.flow_measure.specs.declared.rows.Key.{Key};
ghost use Rattle.flow_measure.specs.Sums.{Table, sums_by};
ghost use Rattle.flow_rolled.specs.Rollup.{IsRollup, IsBroken, IsFront, rollup_octets};
ghost use Rattle.flow_codec.specs.Templates.{AllTemplates};
ghost use Rattle.flow_codec.specs.File.{IsFile};
ghost use Rattle.flow_rolled.specs.declared.row.RolledRow.{RolledRow};
ghost use Rattle.flow_rolled.specs.Rows.{AreRows, IsTable, rows_in};
ghost use Rattle.flow_rolled.specs.Messages.{RolledMessage, head, messages_with, rows_within, AllFollow, EndsWell};
ghost use Rattle.flow_rolled.specs.Rollup.{table_messages};
ghost use Rattle.flow_rolled.specs.AsFile.{messages_of, flows_within, flow_of_row, SameCounts};

/// What is made of a table is its rolled file. Octets are the rolled file of one table at most, whatever the Export
/// Time. Octets that are none break off at one place, and octets that are a rolled file at none.
pub fn one_rollup()
    ensures one_table { (width : ℕ) (octets : List ℕ) (s t : Table) → width < 2 ^ 32 → IsRollup width octets s
        → IsRollup width octets t → s ≡ t }
    ensures rolled { (t : Table) (time : ℕ) → IsTable t → time < 2 ^ 32 → IsRollup t.width (rollup_octets t time) t }
    ensures one_place { (width : ℕ) (octets : List ℕ) (at other : ℕ) → IsBroken width octets at
        → IsBroken width octets other → at ≡ other }
    ensures never_both { (width : ℕ) (octets : List ℕ) (at : ℕ) (t : Table) → IsBroken width octets at
        → IsRollup width octets t → ⊥ }
    ensures different { (s t : Table) (time other : ℕ) → IsTable s → IsTable t → s.width ≡ t.width → s.width < 2 ^ 32
        → time < 2 ^ 32 → other < 2 ^ 32 → rollup_octets s time ≡ rollup_octets t other → s ≡ t }
{}

/// A rolled file is an IPFIX File (RFC 5655): messages, each cut off by its Length, and each one under the templates of
/// those before it. The codec's limits aside: a File of more than 64 domains is refused there at its 65th head.
///
/// Each of its rows is read as one flow, in the file's order. So these flows have the octets and packets of the table
/// key by key, and no other key; how many flows a key had isn't kept by them.
pub fn rolled_file()
    ensures file { (t : Table) (time : ℕ) → IsTable t → time < 2 ^ 32
        → (after : AllTemplates) × IsFile (rollup_octets t time) (messages_of t.width (table_messages t time)) after }
    ensures flows { (t : Table) (time : ℕ) → IsTable t → time < 2 ^ 32
        → flows_within (messages_of t.width (table_messages t time)) ≡ map flow_of_row (rows_in t.sums) }
    ensures sums { (t : Table) (time : ℕ) → IsTable t → time < 2 ^ 32 → (key : Key)
        → SameCounts (get (sums_by t.width (flows_within (messages_of t.width (table_messages t time)))) key)
        (get t.sums key) }
{}

/// What the messages of rows in the file's order are. Joined, their rows are these rows: none is lost, none is twice. A
/// message has up to 1,000 rows, all of its own domain, and each message has the Export Time. A message with rows comes
/// after the head of its domain, and a head after messages of lesser domains alone, so a domain has one head.
///
/// Each message follows the one before it, and the last one is no head. Messages of this time that do so are the
/// messages of their rows, and no others are.
pub fn messages_of_rows()
    ensures joined { (width time : ℕ) (rows : List RolledRow) → time < 2 ^ 32 → AreRows width None rows
        → rows_within (messages_with time rows) ≡ rows }
    ensures few { (width time : ℕ) (rows : List RolledRow) → time < 2 ^ 32 → AreRows width None rows
        → AllByRecursion (λ p. length p.rows ≤ 1000) (messages_with time rows) }
    ensures own { (width time : ℕ) (rows : List RolledRow) → time < 2 ^ 32 → AreRows width None rows
        → AllByRecursion (λ p. AllByRecursion (λ r. r.key.domain ≡ p.domain) p.rows) (messages_with time rows) }
    ensures time { (time : ℕ) (rows : List RolledRow) → AllByRecursion (λ p. p.time ≡ time) (messages_with time rows) }
    ensures opened { (width time : ℕ) (rows : List RolledRow) (before more : List RolledMessage) (p : RolledMessage)
        → time < 2 ^ 32
        → AreRows width None rows → messages_with time rows ≡ before ++ p ∷ more → 0 < length p.rows
        → Contains before (head time p.domain) }
    ensures once { (width time : ℕ) (rows : List RolledRow) (before more : List RolledMessage) (p : RolledMessage)
        → time < 2 ^ 32
        → AreRows width None rows → messages_with time rows ≡ before ++ p ∷ more → p.rows ≡ []
        → AllByRecursion (λ q. q.domain < p.domain) before }
    ensures follow { (width time : ℕ) (rows : List RolledRow) → time < 2 ^ 32 → AreRows width None rows
        → AllFollow width None (messages_with time rows) × EndsWell None (messages_with time rows) }
    ensures only { (width time : ℕ) (parts : List RolledMessage) → AllFollow width None parts → EndsWell None parts
        → AllByRecursion (λ p. p.time ≡ time) parts → messages_with time (rows_within parts) ≡ parts }
{}
