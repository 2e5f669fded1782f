//! How NSEC records are made.

ghost use Rattle.std.specs.Prelude.{◌≡◌, true, false};

/// How NSEC records are made.
#[derive(Clone, Copy, Debug, PartialEq, Eq, Drop)]
pub struct GenerateNsecConfig {
    /// Whether the bitmap of the apex has DNSKEY. DNSKEY records are often added only when the zone
    /// is signed.
    pub assume_dnskeys_will_be_added: bool,
}

impl GenerateNsecConfig {
    /// A configuration under which DNSKEY records will be added later.
    pub fn new() -> Self
        ensures { result.assume_dnskeys_will_be_added ≡ true }
    {
        GenerateNsecConfig {
            assume_dnskeys_will_be_added: true,
        }
    }

    /// A configuration under which the bitmap of the apex has DNSKEY only where the zone has DNSKEY
    /// records.
    pub fn without_assuming_dnskeys_will_be_added(self) -> Self
        ensures { result.assume_dnskeys_will_be_added ≡ false }
    {
        GenerateNsecConfig {
            assume_dnskeys_will_be_added: false,
        }
    }
}
