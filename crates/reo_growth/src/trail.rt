//! Marks that are changed back.
ghost use Rattle.std.specs.Prelude.{◌≡◌, ◌<◌, ◌≤◌, length, nat_eq, OnOk};
ghost use Rattle.reo_growth.specs.Marks.{Changes};
ghost use Rattle.reo_growth.specs.Trail.{CanUndo, IsBack, Undoes};

use crate::marks::Mark;
use std::alloc::AllocError;

/// What the mark of a place was.
#[derive(Clone, Copy)]
pub struct Old {
    pub place: u32,
    pub mark: Mark,
}

/// Marks, and what those were that have been changed, the last change last.
#[derive(Drop)]
pub struct Trail {
    pub marks: Vec<Mark>,
    pub log: Vec<Old>,
}

impl Trail {
    /// Changes a mark.
    pub fn change(&mut self, place: u32, mark: Mark) -> Result<(), AllocError>
        requires { place < length self.old.marks.items }
        ensures changed { OnOk result (Changes (nat_eq place) (λ _. mark) self.old.marks.items self.new.marks.items) }
        ensures undo { OnOk result (Undoes self.old self.new) }
    {
        let old = self.marks[place as usize];
        self.log.push(Old { place, mark: old })?;
        self.marks[place as usize] = mark;
        Ok(())
    }

    /// Changes marks back, the last change first, until there are no more changes than these.
    pub fn undo(&mut self, changes: usize)
        requires { CanUndo changes self.old }
        ensures { IsBack changes self.old self.new }
    {
        while self.log.len() > changes {
            let Some(old) = self.log.pop() else {
                break;
            };
            self.marks[old.place as usize] = old.mark;
        }
    }
}

/// The marks of a list of automata: of all automata, and of all names.
#[derive(Drop)]
pub struct Marking {
    pub automata: Trail,
    pub names: Trail,
}
