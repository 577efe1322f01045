// Growth inside the room that was made before.
ghost use Rattle.std.specs.Prelude.{◌≡◌, ◌+◌, ◌≤◌, length, vec_len, vec_capacity, ◌++◌};

/// Appends octets for which there is room: takes no memory.
pub(crate) fn append(list: &mut Vec<u8>, more: &[u8])
    requires { vec_len list.old + length more.now ≤ vec_capacity list.old }
    ensures items { list.new.items ≡ list.old.items ++ more.now }
    ensures capacity { vec_capacity list.old ≤ vec_capacity list.new }
{
    let _ = list.extend_from_slice(more);
}

/// Makes a list these octets, for which there is room: takes no memory.
pub(crate) fn replace(list: &mut Vec<u8>, octets: &[u8])
    requires { length octets.now ≤ vec_capacity list.old }
    ensures items { list.new.items ≡ octets.now }
    ensures capacity { vec_capacity list.old ≤ vec_capacity list.new }
{
    list.clear();
    append(list, octets);
}
