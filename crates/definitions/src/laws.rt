//! Laws over the definitions. Each is the contract of a function that does nothing.
ghost use Rattle.std.specs.Prelude.{ℕ, List};
ghost use Rattle.definitions.specs.Name.{Name};
ghost use Rattle.definitions.specs.Laws.{OrdersNames, IsInterval, OneLinkSpeaks, OneHashLinkSpeaks};
ghost use Rattle.definitions.specs.Laws.{NsecChainSpeaks, Nsec3ChainSpeaks, WireSpells};
ghost use Rattle.definitions.specs.Laws.{SignedOctetsSpell, OrderMeansNothing, SpellsSet};
ghost use Rattle.definitions.specs.Laws.{OneSpelling, ReadsExactly, EndsOnce, ReadingIsShort};

/// Names have one canonical order up to ASCII case, and are equal in it exactly where they are the
/// same up to case (RFC 4034, 6.1).
pub fn name_order()
    ensures { OrdersNames }
{}

/// The names at or below an apex are an interval of the order that begins with the apex.
pub fn names_below_apex()
    ensures { (apex : Name) → IsInterval apex }
{}

/// Exactly one link of a chain that rises from its apex matches or covers each name at or below the
/// apex (RFC 4034, 4).
pub fn one_link_speaks()
    ensures { OneLinkSpeaks }
{}

/// Exactly one link of an ascending chain of hashes matches or covers each hash; the last link
/// leads back to the first hash (RFC 5155, 3.1.7).
pub fn one_hash_link_speaks()
    ensures { OneHashLinkSpeaks }
{}

/// The NSEC chain of a zone with records at its apex has the live owners, each once and in
/// canonical order, and exactly one of its records matches or covers each name at or below the apex
/// (RFC 4034, 4).
pub fn one_nsec_record_speaks()
    ensures { NsecChainSpeaks }
{}

/// The NSEC3 chain of a zone with records at its apex, no two names of which share a hash, has a
/// record for each kept name, in order of hash. It matches no other name whose hash isn't shared,
/// and exactly one record matches or covers each hash (RFC 5155, 7.1 and 8.3).
pub fn one_nsec3_record_speaks()
    ensures { Nsec3ChainSpeaks }
{}

/// The wire form of a name tells where it ends: no name's octets begin with those of another (RFC
/// 1035, 3.1).
pub fn wire_form_spells_one_name()
    ensures { WireSpells }
{}

/// What a signature is made over tells its fields and its RRset: equal octets have equal type,
/// class, TTL and data, and up to ASCII case one signer and one signed owner (RFC 4034, 3.1.8.1;
/// RFC 4035, 5.3.2).
pub fn signed_octets_spell_one_rrset()
    ensures { SignedOctetsSpell }
{}

/// What a zone says of a name and a type depends on neither the order nor the repetition of its
/// records, nor on the case of their owners.
pub fn order_of_records_means_nothing()
    ensures { OrderMeansNothing }
{}

/// The spelling of a set of types is a bitmap that has the types of the set and no other (RFC 4034,
/// 4.1.2).
pub fn bitmap_spells_its_set()
    ensures { (ts : List ℕ) → SpellsSet ts }
{}

/// Lists of types have one bitmap exactly where they have the same types.
pub fn equal_bitmaps_are_equal_sets()
    ensures { OneSpelling }
{}

/// A name is read through a limited number of pointers exactly where a name of at most 255 octets
/// stands, and it ends where that name ends: behind its first pointer or its root octet (RFC 1035,
/// 4.1.4).
pub fn names_are_read_where_they_stand()
    ensures { ReadsExactly }
{}

/// At most one name stands at a place, and it ends at one place, within the octets.
pub fn a_name_ends_once()
    ensures { (m : List ℕ) → EndsOnce m }
{}

/// Reading a name of at most 255 octets through at most 255 pointers looks at no more than 383
/// heads.
pub fn reading_a_name_is_short()
    ensures { ReadingIsShort }
{}
