//! Questions (RFC 1035, 4.1.2).
ghost use Rattle.messages.specs.WrittenLaws.{IsQuestion};

use crate::names::{Name, ZoneName};
use names_rdata::rtype::Rtype;
use plain::Class;

/// What is asked for.
#[derive(Debug, Drop)]
pub struct Question<N = Name<Vec<u8>>> {
    pub name: N,
    pub rtype: Rtype,
    pub class: Class,
}

impl Question {
    ghost use Rattle.messages.specs.Questions.{asked_of};

    /// What every question keeps: a name, and numbers that fit their places. It does nothing.
    pub fn keeps(&self)
        ensures { IsQuestion (asked_of self.now) }
    {
        self.name.keeps();
        let _ = self.rtype.to_int();
        let _ = self.class.to_int();
    }
}
