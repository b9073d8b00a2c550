//! What the check of a package gives.
use go_local_core::Fault;
use go_report_core::answer::{Answer, HeldLocal};
use go_report_core::declared_core::{Face, PackageFaces};
use go_term_core::{Signature, TypeTerm};
use go_type_core::PackageTypes;

/// What stands in a file of a package. It holds what it names, and lends nothing of the package.
pub struct FileAnswers {
    /// What its occurrences have, in order of place: imports, then identifiers and calls, each at its offset in bytes from the file's start.
    pub answers: Vec<Answer>,
    /// Its faults in order of place, then of the rule's number, each once, without those that an outcome at the same place says.
    pub faults: Vec<Fault>,
    /// The locals that its functions declare, in order of their identifiers' places: one for each receiver, parameter, result, constant and
    /// variable that is not blank and is the first of its name in its block. A name that a short declaration uses again has none there.
    pub locals: Vec<HeldLocal>,
}

impl Drop for FileAnswers {
    fn drop(self) {
        let FileAnswers {
            answers: _,
            faults: _,
            locals: _,
        } = self;
    }
}

/// A package that was checked. It holds what it names, and lends nothing of the package.
#[derive(Drop)]
pub struct CheckedPackage {
    /// The types that it declares.
    pub types: PackageTypes,
    /// What it shows to the packages that import it.
    pub faces: PackageFaces,
    /// What its declarations outside functions are, in order of file and number: none where what one needs leads back to itself.
    pub declared: Vec<Option<Face<TypeTerm, Signature>>>,
    /// What stands in its files, in order of name.
    pub files: Vec<FileAnswers>,
}
