//! One package of a snapshot: what its part is made from, and the part, which holds what each occurrence of its files has, its faults, the locals
//! of its functions, and what it tells the packages that import it.
//!
//! The Go specification, "Packages", "Import declarations".

mod at_once;
mod content;
mod files;
mod input;
mod laws;
mod part;
mod parts;
mod same;
mod shared;

pub use crate::package_part::at_once::compile_over_at_once;
pub use crate::package_part::content::{PackageContent, compile_over};
pub use crate::package_part::files::PartFile;
pub use crate::package_part::input::PartInput;
pub use crate::package_part::laws::{one_part, part_has_its_path, part_has_occurrences};
pub use crate::package_part::part::{Part, compile_part, compile_part_in, types_of};
pub use crate::package_part::parts::Parts;
pub use crate::package_part::same::same_imports;
