//! How a chain of hashed names is made (RFC 5155, 4, 6 and 7.1).

ghost use Rattle.std.specs.Prelude.{◌≡◌, true, false};
ghost use Rattle.denial_nsec_data.specs.Hashed.{with_opt_out};
ghost use Rattle.definitions.specs.ZoneChain.{excludes};
ghost use Rattle.denial_nsec3_hash.specs.Configured.{parameter_ttl, parameters};
ghost use Rattle.denial_nsec3_hash.specs.declared.config.Nsec3ParamTtlMode.TheVariants.{Fixed, Soa};
ghost use Rattle.denial_nsec3_hash.specs.declared.config.Nsec3ParamTtlMode.TheVariants.{SoaMinimum};

use denial_nsec_data::nsec3param::Nsec3param;
use names_wire::octets::Octets;
use plain::Ttl;

/// The choice of the NSEC3PARAM record's TTL.
#[derive(Clone, Copy, Debug, PartialEq, Eq)]
pub enum Nsec3ParamTtlMode {
    Fixed(Ttl),
    /// The TTL of the SOA record.
    Soa,
    /// The SOA record's minimum field.
    SoaMinimum,
}

impl Nsec3ParamTtlMode {
    pub fn fixed(ttl: Ttl) -> Self
        ensures { result ≡ Fixed ttl }
    {
        Nsec3ParamTtlMode::Fixed(ttl)
    }

    pub fn soa() -> Self
        ensures { result ≡ Soa }
    {
        Nsec3ParamTtlMode::Soa
    }

    pub fn soa_minimum() -> Self
        ensures { result ≡ SoaMinimum }
    {
        Nsec3ParamTtlMode::SoaMinimum
    }

    /// The TTL of the NSEC3PARAM record, from the TTL and the minimum of the SOA record.
    pub fn ttl(self, soa: Ttl, minimum: Ttl) -> Ttl
        ensures { result ≡ parameter_ttl self soa minimum }
    {
        match self {
            Nsec3ParamTtlMode::Fixed(ttl) => ttl,
            Nsec3ParamTtlMode::Soa => soa,
            Nsec3ParamTtlMode::SoaMinimum => minimum,
        }
    }
}

/// How a chain of hashed names is made.
#[derive(Drop)]
pub struct GenerateNsec3Config<Octs: Octets> {
    /// Whether the type bitmap of the apex has DNSKEY, whose records will be added later.
    pub assume_dnskeys_will_be_added: bool,
    /// The parameters of the hash, and the flags of the chain's records.
    pub params: Nsec3param<Octs>,
    /// Whether delegations without DS are left out where opt-out is set (RFC 5155, 6).
    pub opt_out_exclude_owner_names_of_unsigned_delegations: bool,
    pub nsec3param_ttl_mode: Nsec3ParamTtlMode,
}

impl<Octs: Octets> GenerateNsec3Config<Octs> {
    /// A configuration under which DNSKEY records will be added later, unsigned delegations are
    /// left out where opt-out is set, and the NSEC3PARAM record has the SOA record's TTL.
    pub fn new(params: Nsec3param<Octs>) -> Self
        ensures dnskeys { result.assume_dnskeys_will_be_added ≡ true }
        ensures params { result.params ≡ params }
        ensures excluding { result.opt_out_exclude_owner_names_of_unsigned_delegations ≡ true }
        ensures mode { result.nsec3param_ttl_mode ≡ Soa }
    {
        GenerateNsec3Config {
            assume_dnskeys_will_be_added: true,
            params,
            opt_out_exclude_owner_names_of_unsigned_delegations: true,
            nsec3param_ttl_mode: Nsec3ParamTtlMode::Soa,
        }
    }

    pub fn with_ttl_mode(self, mode: Nsec3ParamTtlMode) -> Self
        ensures { result ≡ record self { nsec3param_ttl_mode = mode } }
    {
        let mut config = self;
        config.nsec3param_ttl_mode = mode;
        config
    }

    /// Sets the flag of opt-out in the chain's records (RFC 5155, 3.1.2.1).
    pub fn with_opt_out(self) -> Self
        ensures { let params = record self.params { flags = with_opt_out self.params.flags } in
            result ≡ record self { params = params } }
    {
        let mut config = self;
        config.params.set_opt_out_flag();
        config
    }

    pub fn without_opt_out_excluding_owner_names_of_unsigned_delegations(self) -> Self
        ensures { result
            ≡ record self { opt_out_exclude_owner_names_of_unsigned_delegations = false } }
    {
        let mut config = self;
        config.opt_out_exclude_owner_names_of_unsigned_delegations = false;
        config
    }

    pub fn without_assuming_dnskeys_will_be_added(self) -> Self
        ensures { result ≡ record self { assume_dnskeys_will_be_added = false } }
    {
        let mut config = self;
        config.assume_dnskeys_will_be_added = false;
        config
    }

    /// Whether delegations without DS are left out.
    pub fn excludes(&self) -> bool
        ensures { result ≡ excludes (parameters self.now) }
    {
        self.params.opt_out_flag() && self.opt_out_exclude_owner_names_of_unsigned_delegations
    }
}
