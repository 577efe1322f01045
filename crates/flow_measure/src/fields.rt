//! The flows of a message that was read into fields.

ghost use Rattle.std.specs.Prelude.{◌≡◌, IfOk};
ghost use Rattle.flow_codec.specs.Plan.{role_of, counting, values_of};
ghost use Rattle.flow_measure.specs.Counting.{no_counts, counts_with};
ghost use Rattle.flow_measure.specs.Flows.{flow_of_record, flows_of};

use crate::counts::Counts;
use crate::flow::Flow;
use flow_codec::{DataRecord, Field, Header, Message, Role};
use std::alloc::{AllocError, Global};

/// Takes the number of a field, if it counts and is the first of its role.
#[tactic(auto, unfolding(crate::specs::Counting::counts_with))]
fn count_field(counts: &mut Counts, field: &Field)
    ensures { counts.new ≡ counts_with counts.old (counting (role_of field.now.id) field.now.octets) }
{
    let Some(role) = Role::of(&field.id) else {
        return;
    };
    let value = field.octets.as_slice();
    if role.is_counted(value.len()) {
        counts.count(role, value);
    }
}

/// The numbers that count among these fields.
fn counts_of(fields: &[Field]) -> Counts
    ensures { result ≡ counts_with no_counts (values_of fields.now) }
{
    let mut counts = Counts::none();
    for field in fields {
        count_field(&mut counts, field);
    }
    counts
}

/// The flow of a record, unless it is one of an Options Template.
fn flow_of_record(header: &Header, whole: &DataRecord) -> Option<Flow>
    ensures { result ≡ flow_of_record header.now whole.now }
{
    if whole.options {
        return None;
    }
    Some(counts_of(whole.fields.as_slice()).flow(header))
}

/// The flows of a message, in the order of its records.
pub fn flows_of_message(alloc: Global, message: &Message) -> Result<Vec<Flow>, AllocError>
    ensures { IfOk result (λ flows. flows.items ≡ flows_of message.now) }
{
    let mut flows = Vec::new(alloc);
    for record in message.records.as_slice() {
        if let Some(flow) = flow_of_record(&message.header, record) {
            flows.push(flow)?;
        }
    }
    Ok(flows)
}
