//! What rules of denial are needed for. Each law is the contract of a function that does nothing.
ghost use Rattle.std.specs.Prelude.{true, false, []};
ghost use Rattle.definitions.specs.ZoneChain.{Nsec, Nsec3};
ghost use Rattle.counterexamples_denial.specs.Falsely.{DecidesFalsely, MissesOwnAnswer};
ghost use Rattle.counterexamples_denial.specs.Falsely.{RightChoicesAreTheRules};
ghost use Rattle.counterexamples_denial.specs.Falsely.{RightChoicesAreNeverFalse};
ghost use Rattle.counterexamples_denial.specs.Falsely.{RightChoicesMissNothing};
ghost use Rattle.counterexamples_denial.specs.Mistakes.{all_open, nothing, without_delegations};
ghost use Rattle.counterexamples_denial.specs.Mistakes.{without_child_types, without_wildcards};
ghost use Rattle.counterexamples_denial.specs.Mistakes.{without_label_counts, by_wire_octets};
ghost use Rattle.counterexamples_denial.specs.Mistakes.{without_non_terminals, without_opt_out};
ghost use Rattle.counterexamples_denial.specs.Mistakes.{without_aliases, without_redirections};
ghost use Rattle.counterexamples_denial.specs.Mistakes.{without_denied_names};
ghost use Rattle.counterexamples_denial.specs.Mistakes.{without_denied_wildcards};
ghost use Rattle.counterexamples_denial.specs.Mistakes.{without_made_up_enclosers};
ghost use Rattle.counterexamples_denial.specs.Mistakes.{without_made_up_names, without_first_names};
ghost use Rattle.counterexamples_denial.specs.Mistakes.{without_made_up_wildcards};

/// With all choices made rightly the rules are those of `denial_laws`. They never decide falsely,
/// and miss no zone's own answer.
pub fn right_choices_are_the_rules()
    ensures same { RightChoicesAreTheRules }
    ensures truly { RightChoicesAreNeverFalse }
    ensures fully { RightChoicesMissNothing }
{}

/// Not all may be left open: a name that is left open has no protection, and an attacker adds or
/// takes away what lies there (RFC 5155, 12.2).
pub fn not_all_is_open()
    ensures nsec { DecidesFalsely all_open Nsec }
    ensures nsec3 { DecidesFalsely all_open (Nsec3 0 [] true) }
{}

/// Nor may all be refused: a rule that says nothing is never false, and of no use.
pub fn something_must_be_said()
    ensures { MissesOwnAnswer nothing Nsec }
{}

/// A record at a delegation covers the names below it, which are the child zone's. An attacker who
/// replays it would deny all names of the child zone (RFC 6840, 4.1).
pub fn delegations_decide_first()
    ensures nsec { DecidesFalsely without_delegations Nsec }
    ensures nsec3 { DecidesFalsely without_delegations (Nsec3 0 [] false) }
{}

/// A record at a delegation lists the types of the parent's side. An attacker who replays it would
/// deny the types that the child zone has there (RFC 6840, 4.1).
pub fn child_types_are_not_denied()
    ensures nsec { DecidesFalsely without_child_types Nsec }
    ensures nsec3 { DecidesFalsely without_child_types (Nsec3 0 [] false) }
{}

/// A wildcard answers for a name that is covered. An attacker who replays what covers the name
/// would deny all names for which the wildcard answers (RFC 4035, 5.4; RFC 5155, 8.4).
pub fn the_wildcard_is_looked_for()
    ensures nsec { DecidesFalsely without_wildcards Nsec }
    ensures nsec3 { DecidesFalsely without_wildcards (Nsec3 0 [] false) }
{}

/// A wildcard answers for a name from its closest encloser alone. An attacker would let one further
/// up answer for names that do not exist (RFC 4035, 5.3.4; RFC 5155, 8.8).
pub fn label_counts_are_compared()
    ensures nsec { DecidesFalsely without_label_counts Nsec }
    ensures nsec3 { DecidesFalsely without_label_counts (Nsec3 0 [] false) }
{}

/// Names stand in canonical order, label by label from the root on. In the order of their wire
/// octets a zone's own records cover names that exist, and an attacker would deny them (RFC 4034,
/// 6.1).
pub fn names_are_in_canonical_order()
    ensures { DecidesFalsely by_wire_octets Nsec }
{}

/// A name that is covered exists where the next name stands below it. Who takes it for missing may
/// take all names below it for missing (RFC 4592, 2.2.2; RFC 8020, 2).
pub fn names_above_names_exist()
    ensures { DecidesFalsely without_non_terminals Nsec }
{}

/// Under opt-out an unsigned delegation may lie in a gap. An attacker would deny it, and all names
/// of the child zone (RFC 5155, 6).
pub fn opt_out_proves_nothing()
    ensures { DecidesFalsely without_opt_out (Nsec3 0 [] true) }
{}

/// A record of the name with NXNAME in its bits denies the name. Who takes it for one that lacks a
/// type takes a name that does not exist for one that does (RFC 9824, 3).
pub fn names_are_denied_by_nxname()
    ensures { DecidesFalsely without_denied_names Nsec }
{}

/// A record of the wildcard with NXNAME in its bits denies no type there. Who takes it for one that
/// lacks a type takes names for which no wildcard stands for names that exist (RFC 9824, 3).
pub fn no_type_is_denied_at_a_denied_wildcard()
    ensures { DecidesFalsely without_denied_wildcards Nsec }
{}

/// An owner that a signer made up stands above no name: who takes it for the closest encloser finds
/// no wildcard under it, and denies the names for which that above it stands (RFC 4470, 3).
pub fn a_made_up_owner_is_no_encloser()
    ensures { DecidesFalsely without_made_up_enclosers Nsec }
{}

/// A record tells nothing of an owner that was made up. An attacker would ask for names right
/// behind one for which a wildcard stands, and deny all its types (RFC 4470, 3).
pub fn no_type_is_denied_at_a_made_up_owner()
    ensures { DecidesFalsely without_made_up_names Nsec }
{}

/// Nor where its next name is somewhere below it: a signer makes such records up too. No record
/// that is made to cover a name has the first name below as its next (RFC 9824, 3.2).
pub fn an_empty_non_terminal_has_the_first_name_next()
    ensures { DecidesFalsely without_first_names Nsec }
{}

/// A wildcard that is a made-up owner need not exist. Who takes its record for one that lacks a
/// type takes names for which no wildcard stands for names that exist (RFC 4470, 3).
pub fn no_type_is_denied_at_a_made_up_wildcard()
    ensures { DecidesFalsely without_made_up_wildcards Nsec }
{}

/// A record with CNAME in its bits proves no type missing: the alias answers for each of them. An
/// attacker who replays it would deny the records that the alias leads to (RFC 6840, 4.3).
pub fn an_alias_lacks_no_type()
    ensures nsec { DecidesFalsely without_aliases Nsec }
    ensures nsec3 { DecidesFalsely without_aliases (Nsec3 0 [] false) }
{}

/// A record with DNAME in its bits proves nothing of the names below it: they are redirected. An
/// attacker who replays it would deny them all (RFC 6840, 4.1).
pub fn redirected_names_are_not_denied()
    ensures nsec { DecidesFalsely without_redirections Nsec }
    ensures nsec3 { DecidesFalsely without_redirections (Nsec3 0 [] false) }
{}
