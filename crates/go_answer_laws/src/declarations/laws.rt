//! Laws of the declarations that answers name, with nothing to run.
ghost use Rattle.go_answer_laws.specs.declarations.Laws.{AnswersAreThere, DeclarationsAreThere, SitesAreThere};

/// What each occurrence of a file of a snapshot has is there: a predeclared name, a package of the workspace that the file imports, or an identifier
/// of a file of the workspace. It is spelled there as it is where it occurs, a call as what is called.
///
/// So it is of what a snapshot answers for the path of a package, the name of a file and the number of an occurrence.
///
/// The Go specification, "Declarations and scope", "Packages", "Qualified identifiers", "Selectors", "Calls".
pub fn declarations_are_there()
    ensures each { DeclarationsAreThere }
    ensures answers { AnswersAreThere }
{}

/// What is there of a file has a site: the name of the file and the offset of an identifier which is spelled as it is named. None is left out for want
/// of a package, a file or a number, so what is written of an answer tells it.
///
/// The Go specification, "Declarations and scope".
pub fn sites_are_there()
    ensures { SitesAreThere }
{}
