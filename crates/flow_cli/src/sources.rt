//! What the program is built from: `./renew-release --stamp` writes this file.

/// The version, and the first digits of the sum of the sources.
pub const VERSION: &str = "1.9.7 (sources 1c7495e8ea91)";
