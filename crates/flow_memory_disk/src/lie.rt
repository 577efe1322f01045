// The lengths that a disk that lies answers.
ghost use Rattle.std.specs.Prelude.{◌≡◌, ◌≤◌, ◌^◌, ℕ, Some, IfSome};

use flow_disk::{DiskError, LIMIT};

/// The length that is answered instead of a file's own, as a seed chooses: at most its own, up to 63 octets more, or
/// almost 2^62; or none, which is no lie.
fn told_length(real: u64, seed: u64) -> Option<u64>
    requires { real ≤ 2 ^ 62 }
    ensures { IfSome result (λ count. count ≤ 2 ^ 62) }
{
    let part = seed / 65536;
    match seed / 4294967296 % 8 {
        0 | 1 => Some(part % (real + 1)),
        2 | 3 => Some((real + part % 64).min(LIMIT)),
        4 => Some(LIMIT - part % 64),
        _ => None,
    }
}

/// The length that is answered instead of a file's own, of one file at a time.
#[derive(Drop)]
pub(crate) struct Lie {
    file: u64,
    told: Option<u64>,
    ghost within: { (count : ℕ) → told ≡ Some count → count ≤ 2 ^ 62 },
}

impl Lie {
    ghost use Rattle.std.specs.Prelude.{◌≢◌, false, None, IsTrue, OnOk, unwrap_or};
    ghost use Rattle.flow_memory_disk.specs.Lying.{told_of};

    /// No lie about any file.
    pub(crate) fn none() -> Self
        ensures { (n : ℕ) → told_of result n ≡ None }
    {
        Lie {
            file: 0,
            told: None,
        }
    }

    /// The length that is answered of a file, if that is a lie; then there is none about another file.
    pub(crate) fn of(&self, file: u64) -> Option<u64>
        ensures is { result ≡ told_of self.now file }
        ensures within { IfSome result (λ count. count ≤ 2 ^ 62) }
        ensures alone { IfSome result (λ _. (n : ℕ) → n ≢ file → told_of self.now n ≡ None) }
    {
        if self.file == file { self.told } else { None }
    }

    /// Whether there is no lie about any file.
    pub(crate) fn is_none(&self) -> bool
        ensures none { IsTrue result → (n : ℕ) → told_of self.now n ≡ None }
        ensures some { result ≡ false → self.now.told ≢ None }
    {
        self.told.is_none()
    }

    /// Answers this length of a file from now on. There must be no lie about another file.
    pub(crate) fn tell(&mut self, file: u64, count: u64)
        requires within { count ≤ 2 ^ 62 }
        requires alone { (n : ℕ) → n ≢ file → told_of self.old n ≡ None }
        ensures here { told_of self.new file ≡ Some count }
        ensures others { (n : ℕ) → n ≢ file → told_of self.new n ≡ told_of self.old n }
    {
        *self = Lie {
            file,
            told: Some(count),
        };
    }

    /// The same where a call has passed; else nothing changes.
    pub(crate) fn tell_after(&mut self, call: &Result<(), DiskError>, file: u64, count: u64)
        requires within { count ≤ 2 ^ 62 }
        requires alone { (n : ℕ) → n ≢ file → told_of self.old n ≡ None }
        ensures here { OnOk call.now (told_of self.new file ≡ Some count) }
        ensures others { (n : ℕ) → n ≢ file → told_of self.new n ≡ told_of self.old n }
    {
        if call.is_ok() {
            self.tell(file, count);
        }
    }

    /// The length that is answered of a file with so many octets, as a seed chooses: a lie only where there is none
    /// yet.
    pub(crate) fn choose(&mut self, file: u64, real: u64, seed: u64) -> u64
        requires within { real ≤ 2 ^ 62 }
        requires first { told_of self.old file ≡ None }
        ensures here { unwrap_or (told_of self.new file) real ≡ result }
        ensures others { (n : ℕ) → n ≢ file → told_of self.new n ≡ told_of self.old n }
    {
        match told_length(real, seed) {
            Some(count) if self.is_none() => {
                self.tell(file, count);
                count
            }
            _ => real,
        }
    }

    /// Ends the lie about a file.
    pub(crate) fn forget(&mut self, file: u64)
        ensures here { told_of self.new file ≡ None }
        ensures others { (n : ℕ) → n ≢ file → told_of self.new n ≡ told_of self.old n }
    {
        if self.file == file {
            *self = Lie::none();
        }
    }
}
