//! What a board of published batches tells of a module: what sessions ask of its packages, and the faults in them. No lock is taken, and nothing waits.

mod asked;
mod faults;
mod kept;
mod shown;

pub use crate::queries::asked::Look;
pub use crate::queries::faults::Fault;
pub use crate::queries::shown::faults_built;
