// The names of files in a folder.
ghost use Rattle.std.specs.Prelude.{◌≡◌, ℕ, ◌<◌, ◌^◌, ◌++◌, ◌∷◌, [], None, Some, IfOk, IfSome};
ghost use Rattle.std.specs.Prelude.{string_bytes, decimal, IsTrue, ◌↔◌};
ghost use Rattle.flow_folder.specs.Naming.{IsPlain, name_of, mark_of};

use std::alloc::{AllocError, Global};

/// The path of a file in a folder.
pub(crate) fn path_of(alloc: Global, folder: &str, file: u64) -> Result<String, AllocError>
    ensures { IfOk result (λ path. string_bytes path ≡ folder.now ++ 47 ∷ name_of file) }
{
    match file {
        1 => format!(in alloc; "{folder}/1.slot"),
        2 => format!(in alloc; "{folder}/2.slot"),
        _ => format!(in alloc; "{folder}/{file}.ipfix"),
    }
}

/// The path of the name that marks a file, in a folder.
pub(crate) fn mark_path_of(alloc: Global, folder: &str, file: u64) -> Result<String, AllocError>
    ensures { IfOk result (λ path. string_bytes path ≡ folder.now ++ 47 ∷ mark_of file) }
{
    format!(in alloc; "{folder}/{file}.settled")
}

/// Whether this could be digits as a number is written.
fn is_plain(octets: &[u8]) -> bool
    ensures { IsTrue result ↔ IsPlain octets.now }
{
    match octets {
        [] | [b'+', ..] | [b'0', _, ..] => false,
        _ => true,
    }
}

/// The number that this text is in decimal, without leading zeros.
fn number_of(digits: &str) -> Option<u64>
    ensures written { IfSome result (λ number. digits.now ≡ decimal number) }
    ensures every { (number : ℕ) → number < 2 ^ 64 → digits.now ≡ decimal number → result ≡ Some number }
{
    if !is_plain(digits.as_bytes()) {
        return None;
    }
    digits.parse::<u64>().ok()
}

/// The file that has this name. Other names are no file's, those of marks neither.
pub(crate) fn file_named(name: &str) -> Option<u64>
    ensures named { IfSome result (λ file. name.now ≡ name_of file) }
    ensures every { (file : ℕ) → file < 2 ^ 64 → name.now ≡ name_of file → result ≡ Some file }
    ensures marks { (file : ℕ) → name.now ≡ mark_of file → result ≡ None }
{
    if name == "1.slot" {
        return Some(1);
    }
    if name == "2.slot" {
        return Some(2);
    }
    let file = number_of(name.strip_suffix(".ipfix")?)?;
    if file == 1 || file == 2 {
        return None;
    }
    Some(file)
}

/// The file that this name marks. Other names mark none.
pub(crate) fn file_marked_by(name: &str) -> Option<u64>
    ensures named { IfSome result (λ file. name.now ≡ mark_of file) }
    ensures every { (file : ℕ) → file < 2 ^ 64 → name.now ≡ mark_of file → result ≡ Some file }
{
    number_of(name.strip_suffix(".settled")?)
}
