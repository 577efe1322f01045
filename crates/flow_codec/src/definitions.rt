//! The definitions of one kind in an Observation Domain.

ghost use Rattle.std.specs.Prelude.{◌≡◌, IsTrue, Some, ◌++◌, ◌<◌, ◌≤◌, ◌^◌, [], ◌==◌, nat_eq, length, OnOk, OnErr};
ghost use Rattle.std.specs.Prelude.{IfOk};
ghost use Rattle.std.specs.Prelude.{unwrap_or};
ghost use Rattle.std.specs.Map.{lookup};
ghost use Rattle.std.specs.Option.{option_copied};
ghost use Rattle.flow_codec.specs.Slots.{entries_of, made, started, IsReady};
ghost use Rattle.flow_codec.specs.Entries.{entries_size, IsOnce};
ghost use Rattle.flow_codec.specs.Working.{overlaid, IsOver};
ghost use Rattle.std.specs.List.{AllByRecursion};
ghost use Rattle.flow_codec.specs.Templates.{IsEntry};
ghost use Rattle.flow_codec.specs.Message.{joined};
ghost use Rattle.flow_codec.specs.Prefix.{defining_records};

use crate::kind::TemplateKind;
use crate::overlay::Overlay;
use crate::slot_table::SlotTable;
use crate::templates::Definition;
use std::alloc::{AllocError, Global};
use std::marker::Model;

/// Definitions by their IDs, in order, and how many octets their template records have.
#[derive(Drop)]
pub(crate) struct Definitions {
    table: SlotTable,
    size: u64,
}

impl Model for Definitions {
    ghost use Rattle.std.specs.Prelude.{◌≡◌, List, ℕ};
    ghost use Rattle.flow_codec.specs.Layout.{Layout};
    ghost use Rattle.flow_codec.specs.Slots.{entries_of, IsTable};
    ghost use Rattle.flow_codec.specs.Entries.{entries_size, IsOnce};

    ghost Value = { List (ℕ × Layout) };

    ghost view = { λ d. entries_of d.table };

    ghost invariant = { λ d. IsTable d.table × (d.size ≡ entries_size (entries_of d.table)) };
}

impl Definitions {
    pub(crate) fn new(alloc: Global) -> Self
        ensures { result ≡ [] }
    {
        Definitions {
            table: SlotTable::new(alloc),
            size: 0,
        }
    }

    pub(crate) fn is_empty(&self) -> bool
        ensures { result ≡ (length self.now == 0) }
    {
        self.table.is_empty()
    }

    /// The octets of these template records.
    pub(crate) fn size(&self) -> u64
        ensures size { result ≡ entries_size self.now }
        ensures once { IsOnce self.now }
    {
        self.size
    }

    pub(crate) fn get(&self, id: u16) -> Option<&Definition>
        ensures { option_copied result ≡ lookup (nat_eq id) self.now }
    {
        self.table.get(id)
    }

    /// Appends the template records of these definitions to octets, in order.
    pub(crate) fn put_records(
        &self,
        octets: &mut Vec<u8>,
        kind: TemplateKind,
    ) -> Result<(), AllocError>
        requires { AllByRecursion (IsEntry kind) self.now }
        ensures { OnOk result (octets.new.items ≡ octets.old.items ++ joined (defining_records kind self.now)) }
    {
        self.table.put_records(octets, kind)
    }

    /// A copy that shares the definitions.
    pub(crate) fn try_copy(&self) -> Result<Self, AllocError>
        ensures { IfOk result (λ copy. copy ≡ self.now) }
    {
        Ok(Definitions {
            table: self.table.copy_with_room(0)?,
            size: self.size,
        })
    }
}

/// Applies a message's changes to both lists of a domain, and takes them out of the overlays. All memory is taken
/// first, so an `Err` changes nothing in the lists.
pub(crate) fn make_changes(
    templates: &mut Definitions,
    options: &mut Definitions,
    to_templates: &mut Overlay,
    to_options: &mut Overlay,
) -> Result<(), AllocError>
    requires templates { IsOver templates.old to_templates.old }
    requires options { IsOver options.old to_options.old }
    requires sizes { (to_templates.old.size < 2 ^ 64) × (to_options.old.size < 2 ^ 64) }
    ensures ok { OnOk result ((templates.new ≡ overlaid templates.old to_templates.old)
        × (options.new ≡ overlaid options.old to_options.old)) }
    ensures err { OnErr result ((templates.new ≡ templates.old) × (options.new ≡ options.old)) }
{
    let first = templates
        .table
        .prepare(to_templates.cleared, to_templates.log.as_slice().len())?;
    let second = options
        .table
        .prepare(to_options.cleared, to_options.log.as_slice().len())?;
    templates.table.finish(first, to_templates.log.take());
    templates.size = to_templates.size as u64;
    options.table.finish(second, to_options.log.take());
    options.size = to_options.size as u64;
    Ok(())
}
