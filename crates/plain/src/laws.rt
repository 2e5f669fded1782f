//! Laws of record data and records. Each is a function without a parameter, whose contract is the
//! law.

ghost use Rattle.definitions.specs.Name.{Name, IsName, wire};
ghost use Rattle.names_rdata.specs.Reading.{name_part};
ghost use Rattle.names_rdata.specs.ReadBack.{IsReadBack};
ghost use Rattle.plain.specs.Spelling.{SoaIsReadBack, SoaIsNamesAndNumbers, NsIsName};
ghost use Rattle.plain.specs.Spelling.{SoaOctetsSpell, NsOctetsSpell, RecordOctetsSpell};

/// SOA data are read as the octets that were written, wherever they stand in a message (RFC 1035,
/// 3.3.13).
pub fn soa_data_are_read_back()
    ensures { SoaIsReadBack }
{}

/// NS data are read as the octets that were written, wherever they stand in a message (RFC 1035,
/// 3.3.11).
pub fn ns_data_are_read_back()
    ensures { (n : Name) → IsName n → IsReadBack name_part (wire n) }
{}

/// SOA data are read exactly where two names and twenty octets stand, up to the end of the data
/// (RFC 1035, 3.3.13).
pub fn soa_data_are_two_names_and_numbers()
    ensures { SoaIsNamesAndNumbers }
{}

/// NS data are read exactly where a name stands, up to the end of the data (RFC 1035, 3.3.11).
pub fn ns_data_are_one_name()
    ensures { NsIsName }
{}

/// SOA data with the same octets have the same fields; in canonical form up to the case of names
/// (RFC 4034, 6.2).
pub fn soa_octets_spell_one_value()
    ensures { SoaOctetsSpell }
{}

/// NS data with the same octets have the same name; in canonical form up to case (RFC 4034, 6.2).
pub fn ns_octets_spell_one_name()
    ensures { NsOctetsSpell }
{}

/// Records with the same octets have the same owner, type, class, TTL and data; in canonical form
/// the owner up to case (RFC 1035, 3.2.1; RFC 4034, 6.2).
pub fn record_octets_spell_one_record()
    ensures { RecordOctetsSpell }
{}
