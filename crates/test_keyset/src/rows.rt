//! Rows of the tables of rolls.

use keyset::{Action, KeySet, KeyState, KeyType};
use test_lines::Line;

/// The short name of an action, as the tables have it.
fn short_name(action: Action) -> &'static str {
    match action {
        Action::CreateCdsRrset => "create CDS",
        Action::RemoveCdsRrset => "remove CDS",
        Action::UpdateDnskeyRrset => "update DNSKEY",
        Action::UpdateDsRrset => "update DS",
        Action::UpdateRrsig => "update RRSIG",
        Action::ReportDnskeyPropagated => "report DNSKEY",
        Action::WaitDnskeyPropagated => "wait for DNSKEY",
        Action::ReportDsPropagated => "report DS",
        Action::WaitDsPropagated => "wait for DS",
        Action::ReportRrsigPropagated => "report RRSIG",
        Action::WaitRrsigPropagated => "wait for RRSIG",
    }
}

/// A column of the tables: which keys are in it.
#[derive(Clone, Copy)]
pub enum Column {
    Present,
    SignsKeys,
    SignsZone,
    AtParent,
}

/// The flags of a key as a key signing key.
fn as_ksk(keytype: KeyType) -> Option<KeyState> {
    match keytype {
        KeyType::Ksk(state) | KeyType::Csk(state, _) => Some(state),
        KeyType::Zsk(_) | KeyType::Include(_) => None,
    }
}

/// The flags of a key as a zone signing key.
fn as_zsk(keytype: KeyType) -> Option<KeyState> {
    match keytype {
        KeyType::Zsk(state) | KeyType::Csk(_, state) => Some(state),
        KeyType::Ksk(_) | KeyType::Include(_) => None,
    }
}

impl Column {
    pub fn has(self, keytype: KeyType) -> bool {
        match self {
            Column::Present => keytype.main_role().present(),
            Column::SignsKeys => as_ksk(keytype).is_some_and(|state| state.signer()),
            Column::SignsZone => as_zsk(keytype).is_some_and(|state| state.signer()),
            Column::AtParent => as_ksk(keytype).is_some_and(|state| state.at_parent()),
        }
    }

    fn has_key(self, set: &KeySet, reference: &str) -> bool {
        match set.key(reference) {
            Some(key) => self.has(key.keytype()),
            None => false,
        }
    }
}

/// The shown keys that are in a column.
pub fn keys_in<'l>(line: &Line<'l>, set: &KeySet, shown: &[String], column: Column) -> Line<'l> {
    let mut keys = line.aside(" ");
    for reference in shown {
        if column.has_key(set, reference.as_str()) {
            keys.say(reference.as_str());
        }
    }
    keys.say_if_empty("none");
    keys
}

/// Says the short names of actions.
pub fn name_all(line: &mut Line<'_>, actions: &[Action]) {
    let mut names = line.aside(", ");
    for action in actions {
        names.say(short_name(*action));
    }
    names.say_if_empty("none");
    line.append(names);
}

/// The row of a step: what the shown keys are behind it, and what is to be done.
pub fn row(line: &mut Line<'_>, set: &KeySet, shown: &[String], step: &str, actions: &[Action]) {
    line.say("|");
    line.say(step);
    for column in [
        Column::Present,
        Column::SignsKeys,
        Column::SignsZone,
        Column::AtParent,
    ] {
        line.say("|");
        line.append(keys_in(line, set, shown, column));
    }
    line.say("|");
    name_all(line, actions);
    line.say("|");
}
