//! Laws of DNSSEC record data. Each is a function without a parameter, whose contract is the law.

ghost use Rattle.std.specs.Prelude.{◌≡◌, ◌≤◌, true, length};
ghost use Rattle.definitions.specs.Name.{Name, IsName};
ghost use Rattle.definitions.specs.Bitmap.{is_bitmap};
ghost use Rattle.definitions.specs.Dnskey.{Dnskey, Ds, dnskey_data};
ghost use Rattle.names_rdata.specs.ReadBack.{IsReadBack};
ghost use Rattle.denial_fields.specs.Ended.{ended_part};
ghost use Rattle.denial_keys.specs.Keys.{ds_data};
ghost use Rattle.denial_nsec_data.specs.Hashed.{Nsec3Data, Nsec3paramData, nsec3_octets};
ghost use Rattle.denial_nsec_data.specs.Hashed.{nsec3_part, nsec3param_octets, nsec3param_part};
ghost use Rattle.denial_nsec_data.specs.Nsec.{nsec_part};
ghost use Rattle.denial_nsec_data.specs.NsecData.{NsecData, nsec_octets};
ghost use Rattle.denial_data.specs.EqualData.{KeysAreTold, DigestsAreTold, SignaturesAreTold};
ghost use Rattle.denial_data.specs.EqualData.{LinksAreTold, ParametersAreTold, HashedLinksAreTold};
ghost use Rattle.denial_data.specs.HashTexts.{HashesAreReadBack};
ghost use Rattle.denial_data.specs.Protos.{IsSignedOver};
ghost use Rattle.denial_data.specs.RrsigData.{RrsigData, rrsig_octets};
ghost use Rattle.denial_data.specs.Signatures.{rrsig_part};

pub use crate::orders::{
    dnskey_order_is_total, ds_order_is_total, nsec_order_is_total, nsec3_order_is_total,
    nsec3param_order_is_total, rrsig_order_is_total,
};
pub use denial_bitmap::laws::printed_bitmap_tells_its_types;

/// `ProtoRrsig::compose_canonical` writes the fields that a signature is made over (RFC 4034,
/// 3.1.8.1).
pub fn fields_are_signed()
    ensures { IsSignedOver }
{}

/// DNSKEY data are read as the octets that were written, wherever they stand in a message.
pub fn dnskey_data_are_read_back()
    ensures { (k : Dnskey) → length (dnskey_data k) ≤ 65535
        → IsReadBack ended_part (dnskey_data k) }
{}

/// DS data are read as the octets that were written, wherever they stand in a message.
pub fn ds_data_are_read_back()
    ensures { (d : Ds) → length (ds_data d) ≤ 65535 → IsReadBack ended_part (ds_data d) }
{}

/// RRSIG data are read as the octets that were written, wherever they stand in a message.
pub fn rrsig_data_are_read_back()
    ensures { (d : RrsigData Name) → IsName d.proto.signer_name
        → length (rrsig_octets (λ n. n) d) ≤ 65535
        → IsReadBack rrsig_part (rrsig_octets (λ n. n) d) }
{}

/// NSEC data are read as the octets that were written, wherever they stand in a message.
pub fn nsec_data_are_read_back()
    ensures { (d : NsecData Name) → IsName d.next_name → is_bitmap d.types ≡ true
        → length (nsec_octets (λ n. n) d) ≤ 65535
        → IsReadBack nsec_part (nsec_octets (λ n. n) d) }
{}

/// NSEC3 data are read as the octets that were written, wherever they stand in a message.
pub fn nsec3_data_are_read_back()
    ensures { (d : Nsec3Data) → is_bitmap d.types ≡ true → length (nsec3_octets d) ≤ 65535
        → IsReadBack nsec3_part (nsec3_octets d) }
{}

/// NSEC3PARAM data are read as the octets that were written, wherever they stand in a message.
pub fn nsec3param_data_are_read_back()
    ensures { (d : Nsec3paramData) → IsReadBack nsec3param_part (nsec3param_octets d) }
{}

/// A printed hash is read as the same hash, memory aside (RFC 5155, 3.3).
pub fn hashes_are_read_back()
    ensures { HashesAreReadBack }
{}

/// DNSKEY data with the same octets are equal, so what is read back is equal.
pub fn dnskey_octets_tell_the_data()
    ensures { KeysAreTold }
{}

/// DS data with the same octets are equal, so what is read back is equal.
pub fn ds_octets_tell_the_data()
    ensures { DigestsAreTold }
{}

/// RRSIG data with the same octets are equal, so what is read back is equal.
pub fn rrsig_octets_tell_the_data()
    ensures { SignaturesAreTold }
{}

/// NSEC data with the same octets are equal, so what is read back is equal.
pub fn nsec_octets_tell_the_data()
    ensures { LinksAreTold }
{}

/// NSEC3 data with the same octets are equal, so what is read back is equal.
pub fn nsec3_octets_tell_the_data()
    ensures { HashedLinksAreTold }
{}

/// NSEC3PARAM data with the same octets are equal, so what is read back is equal.
pub fn nsec3param_octets_tell_the_data()
    ensures { ParametersAreTold }
{}
