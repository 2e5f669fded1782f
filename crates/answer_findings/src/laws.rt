//! Laws of what verdicts on other questions say of a name. Each is the contract of a function that
//! does nothing.
ghost use Rattle.answer_findings.specs.Laws.{DnamesRedirect, DsVerdictsTellDelegations};
ghost use Rattle.answer_findings.specs.Laws.{OpenWhateverAsked, OwnCnamesRename};
ghost use Rattle.answer_findings.specs.Laws.{OwnDsVerdictsCut, RecordsAreThere};
ghost use Rattle.answer_findings.specs.Laws.{StarCnamesRename};

/// A name whose CNAME a zone answers is an alias for each other type, and leads to the CNAME's
/// name: its own CNAME, or that of the wildcard that stands for it (RFC 1034, 3.6.2; RFC 4592,
/// 3.3.1).
pub fn cnames_rename()
    ensures own { OwnCnamesRename }
    ensures by_wildcard { StarCnamesRename }
{}

/// A name that opt-out leaves open for one type is left open for each (RFC 5155, 6), and where it
/// is no alias for the one it is none for any.
pub fn open_names_are_open()
    ensures { OpenWhateverAsked }
{}

/// A DNAME that a zone answers redirects each name below its owner, whatever the type: to the name
/// with the owner's labels exchanged, or to none where that is too long (RFC 6672, 2.2).
pub fn dnames_redirect()
    ensures { DnamesRedirect }
{}

/// Where a zone delegates a name for NS and answers for DS there, the name is the topmost
/// delegation at or above each name at or below it (RFC 4035, 3.1.4.1).
pub fn own_ds_verdicts_cut()
    ensures { OwnDsVerdictsCut }
{}

/// Where a name has no DS record, the verdict on its NS records says whether the zone delegates
/// there.
pub fn ds_verdicts_tell_delegations()
    ensures { DsVerdictsTellDelegations }
{}

/// Records that a zone answers are those that it has, at a name below no other delegation.
pub fn records_are_there()
    ensures { RecordsAreThere }
{}
