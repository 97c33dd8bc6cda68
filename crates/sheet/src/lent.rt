//! A sheet that is lent is a sheet too, so that a layer can stand on a sheet that another keeps.
use crate::interface::{PermittedRefusal, Sheet};
use rigset::RigSet;

impl<S: Sheet> Sheet for &S {
    ghost meaning = { λ s. S.Sheet.meaning s.now };

    ghost lawful = { λ s. S.Sheet.lawful s.now };

    fn rigs(&self) -> usize {
        (**self).rigs()
    }

    fn types(&self) -> usize {
        (**self).types()
    }

    fn permitted(&self, kind: usize) -> Result<RigSet, PermittedRefusal> {
        (**self).permitted(kind)
    }
}
