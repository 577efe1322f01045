//! Numbers on the command line.

ghost use Rattle.std.specs.Prelude.{◌≡◌, ◌<◌, ◌^◌};
ghost use Rattle.flow_report.specs.Numbers.{number_between};

/// The number that a word is, digits alone, from `least` to `most`.
pub fn number_between(least: u64, most: u64, word: &[u8]) -> Option<u64>
    requires { most < 2 ^ 60 }
    ensures { result ≡ number_between least most word.now }
{
    if word.is_empty() {
        return None;
    }
    let mut number: u64 = 0;
    for octet in word {
        if *octet < b'0' || *octet > b'9' {
            return None;
        }
        number = number
            .saturating_mul(10)
            .saturating_add((*octet - b'0') as u64);
    }
    if least <= number && number <= most {
        Some(number)
    } else {
        None
    }
}
