//! A zone's key set, and which of its keys are shown.

use crate::drawing::draw;
use crate::rows::row;
use crate::scenes::Scene;
use crate::words::{keys_at, moment_at, roll_at};
use keyset::{Action, Error, KeySet, RollType};
use names_flat::name::Name;
use test_lines::Line;

#[derive(Drop)]
pub struct Zone {
    set: KeySet,
    /// A copy of the set that was put aside.
    aside: Option<KeySet>,
    shown: Vec<String>,
    /// What was shown behind each call of a roll whose moment is said.
    scenes: Vec<Scene>,
}

impl Zone {
    /// The set of a zone that has no keys, its name of its text (RFC 1035, 5.1).
    pub fn read(line: &mut Line<'_>) -> Option<Zone> {
        let shown = keys_at(line, 2);
        match Name::vec_from_str(line.alloc(), line.word(1)) {
            Ok(name) if !line.is_lost() => {
                let set = KeySet::new(line.alloc(), name);
                line.say("keys of");
                line.value(set.name());
                Some(Zone {
                    set,
                    aside: None,
                    shown,
                    scenes: Vec::new(line.alloc()),
                })
            }
            _ => {
                line.lose();
                None
            }
        }
    }

    pub fn set(&self) -> &KeySet {
        &self.set
    }

    pub fn set_mut(&mut self) -> &mut KeySet {
        &mut self.set
    }

    /// Puts a copy of the set aside.
    pub fn copy(&mut self, line: &mut Line<'_>) {
        match self.set.clone() {
            Ok(copy) => {
                line.say(if copy.name() == self.set.name() {
                    "ok"
                } else {
                    "another name"
                });
                self.aside = Some(copy);
            }
            Err(_) => line.lose(),
        }
    }

    /// Takes the copy that is put aside, and puts the set there.
    pub fn swap(&mut self, line: &mut Line<'_>) {
        match self.aside.take() {
            Some(copy) => {
                self.aside = Some(std::mem::replace(&mut self.set, copy));
                line.say("ok");
            }
            None => line.lose(),
        }
    }

    /// Starts a roll: the keys of two lists, and a moment.
    pub fn start(&mut self, line: &mut Line<'_>) {
        let (roll, now) = (roll_at(line, 1), moment_at(line, 4));
        let (old, new) = (keys_at(line, 2), keys_at(line, 3));
        if !line.is_lost() {
            let answered = self.set.start_roll(roll, &old, &new, &now);
            self.rolled(line, "start", roll, 4, answered);
        }
    }

    /// Reports that what a step changed came everywhere.
    pub fn report(&mut self, line: &mut Line<'_>) {
        let (roll, ttl, now) = (roll_at(line, 1), line.u32_at(2), moment_at(line, 3));
        if line.is_lost() {
            return;
        }
        let (step, answered) = match line.word(0) {
            "report1" => ("report 1", self.set.propagation1_complete(roll, ttl, &now)),
            _ => ("report 2", self.set.propagation2_complete(roll, ttl, &now)),
        };
        self.rolled(line, step, roll, 3, answered);
    }

    /// Says that a wait is over.
    pub fn wait(&mut self, line: &mut Line<'_>) {
        let (roll, now) = (roll_at(line, 1), moment_at(line, 2));
        if line.is_lost() {
            return;
        }
        let (step, answered) = match line.word(0) {
            "wait1" => ("wait 1", self.set.cache_expired1(roll, &now)),
            _ => ("wait 2", self.set.cache_expired2(roll, &now)),
        };
        self.rolled(line, step, roll, 2, answered);
    }

    /// Ends a roll.
    pub fn end(&mut self, line: &mut Line<'_>) {
        let roll = roll_at(line, 1);
        if !line.is_lost() {
            match self.set.roll_done(roll) {
                Ok(actions) => row(line, &self.set, &self.shown, "done", &actions),
                Err(error) => line.refused(&error),
            }
        }
    }

    /// Says the row of a step of a roll, and keeps what is shown behind it, the moment standing at
    /// a place; or says why it was refused.
    fn rolled(
        &mut self,
        line: &mut Line<'_>,
        step: &'static str,
        roll: RollType,
        place: usize,
        answered: Result<Vec<Action>, Error>,
    ) {
        match answered {
            Ok(actions) => {
                row(line, &self.set, &self.shown, step, &actions);
                let now = line.number(place);
                if let Some(scene) = Scene::new(line, &self.set, &self.shown, roll, step, now) {
                    line.must(self.scenes.push(scene));
                }
            }
            Err(error) => line.refused(&error),
        }
    }

    /// A drawing of the last roll.
    pub fn drawing(&self, line: &mut Line<'_>) {
        draw(line, &self.scenes);
    }
}
