//! Laws of DNSSEC record data, sorted records and chains. Each is a function without a parameter,
//! whose contract is the law.

pub use definitions::laws::{
    one_hash_link_speaks, one_link_speaks, one_nsec_record_speaks, one_nsec3_record_speaks,
};
pub use denial_bitmap::laws::{
    bitmap_spells_its_set, built_bitmap_gives_its_types, equal_bitmaps_are_equal_sets,
    no_types_are_no_octets, printed_bitmap_tells_its_types,
};
pub use denial_data::laws::{
    dnskey_data_are_read_back, dnskey_octets_tell_the_data, dnskey_order_is_total,
    ds_data_are_read_back, ds_octets_tell_the_data, ds_order_is_total, fields_are_signed,
    hashes_are_read_back, nsec_data_are_read_back, nsec_octets_tell_the_data, nsec_order_is_total,
    nsec3_data_are_read_back, nsec3_octets_tell_the_data, nsec3_order_is_total,
    nsec3param_data_are_read_back, nsec3param_octets_tell_the_data, nsec3param_order_is_total,
    rrsig_data_are_read_back, rrsig_octets_tell_the_data, rrsig_order_is_total,
};
pub use denial_fields::laws::{one_time_is_near, salts_are_read_back, times_are_read_back};
pub use denial_sorted::laws::{
    added_records_are_the_first, unknown_data_order_is_total, zone_data_order_is_total,
};
