//! Laws of how definitions are written, with nothing to run.
ghost use Rattle.go_answer_laws.specs.definitions.Laws.{DefinitionsAreTold};

use crate::declarations::declarations_are_there;

/// The declaration of the identifier that is used at an offset of a file of a snapshot is there, and is spelled there as it is where it is used.
///
/// What is written of it tells it: `universe.NAME`, `universe.error.Error`, `package PATH`, or `PATH/FILE:OFFSET`, of a file of the workspace and of the
/// identifier that is declared in it.
///
/// The Go specification, "Declarations and scope", "Packages", "Qualified identifiers", "Selectors".
pub fn definitions_are_told()
    ensures { DefinitionsAreTold }
{
    declarations_are_there();
}
