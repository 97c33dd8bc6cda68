ghost use Rattle.sheet.specs.Meaning.{SheetMeaning};
ghost use Rattle.sheet.specs.Answers.{Permits};
ghost use Rattle.sheet.specs.declared.judging.FillRefusal.{FillRefusal};
ghost use Rattle.std.specs.Prelude.{Result};
ghost use Rattle.layers.specs.Changes.{ChangesNothing, KeepsItsShape};

use rigset::RigSet;
use sheet::{FillRefusal, PermittedRefusal, Sheet};

/// What a layer goes by: a table that changes what the sheet below means.
pub trait Table: Copy {
    /// What the meaning of the sheet below becomes.
    ghost changed: { Self → SheetMeaning → SheetMeaning };

    /// The table changes neither how many rigs there are nor how many types, and names no foreign rig.
    ghost keeps: { (t : Self) → KeepsItsShape (changed t) };

    /// The answer to the table, where the sheet below has this meaning.
    ghost judged: { Self → SheetMeaning → Result (Unit {0}) FillRefusal → Type 0 };

    /// A table that changes nothing, as in a layer that was never filled.
    fn unfilled() -> Self
        ensures { ChangesNothing (changed result) };

    /// Judges the table for the sheet below.
    fn judge<S: Sheet>(&self, below: &S) -> Result<(), FillRefusal>
        ensures { judged self.now (S.Sheet.meaning below.now) result };

    /// The rigs that may test pumps of a type, by the table and the sheet below.
    fn permitted<S: Sheet>(&self, below: &S, kind: usize) -> Result<RigSet, PermittedRefusal>
        ensures { Permits (changed self.now (S.Sheet.meaning below.now)) kind result };
}

/// A layer: a sheet below, and a table that changes what it means.
#[derive(Drop)]
pub struct Layer<S, T> {
    below: S,
    table: T,
}

impl<S: Sheet, T: Table> Layer<S, T> {
    ghost use Rattle.std.specs.Prelude.{◌≡◌};
    ghost use Rattle.sheet.specs.Meaning.{SameMeaning};
    ghost use Rattle.sheet.specs.Answers.{Fills};
    ghost use Rattle.layers.specs.Sheets.{layer_meaning};

    /// A layer over a sheet, to be filled: it changes nothing.
    pub fn over(below: S) -> Layer<S, T>
        ensures below { result.below ≡ below }
        ensures means { SameMeaning (layer_meaning S.Sheet.meaning T.Table.changed result) (S.Sheet.meaning below) }
    {
        Layer {
            below,
            table: T::unfilled(),
        }
    }

    /// Takes another table. A refusal leaves the layer as it was.
    pub fn fill(&mut self, table: T) -> Result<(), FillRefusal>
        ensures judged { T.Table.judged table (S.Sheet.meaning self.old.below) result }
        ensures below { self.new.below ≡ self.old.below }
        ensures means { Fills (layer_meaning S.Sheet.meaning T.Table.changed) (T.Table.changed table (S.Sheet.meaning self.old.below)) self.old self.new result }
    {
        table.judge(&self.below)?;
        self.table = table;
        Ok(())
    }

    /// Takes the layer off, and gives the sheet below back.
    pub fn into_below(self) -> S
        ensures { result ≡ self.below }
    {
        self.below
    }
}

impl<S: Sheet, T: Table> Sheet for Layer<S, T> {
    ghost use Rattle.layers.specs.Sheets.{layer_meaning};

    ghost meaning = { layer_meaning S.Sheet.meaning T.Table.changed };

    ghost lawful = { λ s. (T.Table.keeps s.table).lawful (S.Sheet.meaning s.below) (S.Sheet.lawful s.below) };

    fn rigs(&self) -> usize {
        self.below.rigs()
    }

    fn types(&self) -> usize {
        self.below.types()
    }

    fn permitted(&self, kind: usize) -> Result<RigSet, PermittedRefusal> {
        self.table.permitted(&self.below, kind)
    }
}
