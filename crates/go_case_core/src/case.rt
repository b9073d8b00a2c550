//! A fault, with what stands there.

use go_diagnostic_core::snap_core::PlacedFault;
use go_diagnostic_core::{Here, ScannedFile, shown};
use go_judge_core::{
    CheckedFile, Extent, Judged, Setting, beginning, extent_of, literal_round, marked,
};
use go_report_core::denote_core::Stand;
use go_report_core::expr_core::left_place;
use go_tree_nodes::{Expr, SelectExpr};
use std::alloc::{AllocError, Global};

/// A fault of a checked file, with what stands there.
pub struct Case<'s> {
    pub here: Here<'s>,
    pub setting: Setting<'s>,
}

impl Drop for Case<'_> {
    fn drop(self) {
        let Case {
            here: _,
            setting: _,
        } = self;
    }
}

// The only one of what some expressions denote.
fn only(all: Vec<Judged>) -> Judged {
    let mut all = all;
    match all.pop() {
        Some(judged) => judged,
        None => Judged::Refused,
    }
}

impl<'s> Case<'s> {
    /// A fault of a file with what stands there, by what is known of the package of the same file; none where it lies in another file.
    ///
    /// # Errors
    ///
    /// `AllocError` where memory is wanting.
    pub fn of(
        alloc: Global,
        scanned: &'s ScannedFile<'s>,
        checked: &'s CheckedFile<'s>,
        module: &'s str,
        fault: &PlacedFault,
    ) -> Result<Option<Case<'s>>, AllocError> {
        let Some(here) = Here::of(scanned, module, fault) else {
            return Ok(None);
        };
        match Setting::of(alloc, checked, here.offset) {
            Ok(setting) => Ok(Some(Case { here, setting })),
            Err(error) => Err(error),
        }
    }

    /// A piece of the text of the file; nothing where it is none.
    pub fn source(&self, at: Extent) -> &'s str {
        match self.here.file.text().get(at.start..at.end) {
            Some(piece) => piece,
            None => "",
        }
    }

    /// An expression of the file as it is shown.
    ///
    /// # Errors
    ///
    /// `AllocError` where memory is wanting.
    pub fn shown(&self, alloc: Global, expr: &Expr) -> Result<String, AllocError> {
        shown(alloc, self.source(extent_of(expr)))
    }

    // The expressions of the piece at the place.
    fn exprs(&self, alloc: Global) -> Result<Vec<&'s Expr>, AllocError> {
        match self.setting.piece() {
            Some(piece) => piece.exprs(alloc),
            None => Ok(Vec::new(alloc)),
        }
    }

    /// The expression of the piece whose mark is the token at an offset, as by `marked`.
    ///
    /// # Errors
    ///
    /// `AllocError` where memory is wanting.
    pub fn marked(&self, alloc: Global, offset: usize) -> Result<Option<&'s Expr>, AllocError> {
        let exprs = self.exprs(alloc)?;
        for expr in &exprs {
            let found = marked(*expr, offset);
            if found.is_some() {
                return Ok(found);
            }
        }
        Ok(None)
    }

    /// The widest expression of the piece that begins at the place.
    ///
    /// # Errors
    ///
    /// `AllocError` where memory is wanting.
    pub fn beginning(&self, alloc: Global) -> Result<Option<&'s Expr>, AllocError> {
        let exprs = self.exprs(alloc)?;
        for expr in &exprs {
            let found = beginning(*expr, self.here.offset);
            if found.is_some() {
                return Ok(found);
            }
        }
        Ok(None)
    }

    /// The literal of the piece that has an element which begins at the place.
    ///
    /// # Errors
    ///
    /// `AllocError` where memory is wanting.
    pub fn literal_round(&self, alloc: Global) -> Result<Option<&'s Expr>, AllocError> {
        let exprs = self.exprs(alloc)?;
        for expr in &exprs {
            let found = literal_round(*expr, self.here.offset);
            if found.is_some() {
                return Ok(found);
            }
        }
        Ok(None)
    }

    /// The selector whose name stands at the place.
    ///
    /// # Errors
    ///
    /// `AllocError` where memory is wanting.
    pub fn selector(&self, alloc: Global) -> Result<Option<&'s SelectExpr>, AllocError> {
        match self.marked(alloc, self.here.offset)? {
            Some(Expr::Select(select)) => Ok(Some(&**select)),
            _ => Ok(None),
        }
    }

    // What an expression denotes that stands so.
    fn judged(&self, alloc: Global, expr: &Expr, place: Stand) -> Result<Judged, AllocError> {
        let all = self.setting.judge(alloc, &[expr], place)?;
        Ok(only(all))
    }

    /// What an expression denotes that stands for a value.
    ///
    /// # Errors
    ///
    /// `AllocError` where memory is wanting.
    pub fn value(&self, alloc: Global, expr: &Expr) -> Result<Judged, AllocError> {
        self.judged(alloc, expr, Stand::Value)
    }

    /// What an expression denotes that is called.
    ///
    /// # Errors
    ///
    /// `AllocError` where memory is wanting.
    pub fn callee(&self, alloc: Global, expr: &Expr) -> Result<Judged, AllocError> {
        self.judged(alloc, expr, Stand::Callee)
    }

    /// What the operand left of the dot of a selector denotes.
    ///
    /// # Errors
    ///
    /// `AllocError` where memory is wanting.
    pub fn operand(&self, alloc: Global, select: &SelectExpr) -> Result<Judged, AllocError> {
        let operand = &select.operand;
        self.judged(alloc, operand, left_place(Stand::Value, operand))
    }
}
