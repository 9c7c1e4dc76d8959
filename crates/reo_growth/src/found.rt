//! What growth has found.
ghost use Rattle.std.specs.Prelude.{◌≡◌, ◌+◌, ◌<◌, ◌≤◌, ◌^◌, ◌∷◌, [], ◌++◌, length, IfOk, OnOk};
ghost use Rattle.reo_growth.specs.Found.{fired_places, ranked, rows_of, seen};

use crate::marks::{Mark, fires};
use std::alloc::{AllocError, Global};

/// As many firings as a region may have.
const MOST_FIRINGS: u32 = 4_096;

/// The names of a firing, behind how many of all names they lack: so rows are ordered as tables are.
#[derive(PartialEq, Eq, PartialOrd, Ord, Drop)]
pub struct Row {
    pub fewer: u32,
    pub names: Vec<u32>,
}

/// For how many more vertices there is room, how many firings there are, and the rows of the first of them.
#[derive(Drop)]
pub struct Found {
    pub alloc: Global,
    pub room: u32,
    pub count: u32,
    pub rows: Vec<Row>,
}

/// The row of the names that are marked as firing.
fn row_of(alloc: Global, marks: &[Mark]) -> Result<Row, AllocError>
    requires { length marks.now < 2 ^ 32 }
    ensures { IfOk result (λ row. seen row ≡ ranked (length marks.now) (fired_places marks.now)) }
{
    let mut names = Vec::with_capacity(alloc, marks.len())?;
    for (name, mark) in marks.iter().enumerate() {
        if fires(*mark) {
            names.push(name as u32)?;
        }
    }
    let fewer = (marks.len() - names.len()) as u32;
    Ok(Row { fewer, names })
}

impl Found {
    /// Counts a firing, and keeps its row while there are not too many.
    pub fn keep(&mut self, marks: &[Mark]) -> Result<(), AllocError>
        requires names { length marks.now < 2 ^ 32 }
        requires count { self.old.count + 1 < 2 ^ 32 }
        ensures room { OnOk result (self.new.room ≡ self.old.room) }
        ensures count { OnOk result (self.new.count ≡ self.old.count + 1) }
        ensures rows { OnOk result (self.new.count ≤ 4096 → rows_of self.new ≡ rows_of self.old ++ ranked (length marks.now) (fired_places marks.now) ∷ []) }
    {
        if self.count < MOST_FIRINGS {
            let row = row_of(self.alloc, marks)?;
            self.rows.push(row)?;
        }
        self.count += 1;
        Ok(())
    }
}
