//! What is reported of a piece of a program: its faults in order, each once, beside what its occurrences have.
#![tactic(auto)]

pub mod answer;
mod laws;
mod settling;
pub mod type_faults;
pub mod usage;

pub use laws::settled_faults_are_one;
pub use settling::{fault_order, settle_faults};

/// What the crates above name of `go_declared_core`.
pub mod declared_core {
    pub use go_summary_core::declared_core::{
        Face, FaceTable, PackageFaces, TypesHere, WrittenFaces, written_faces,
    };
}

/// What the crates above name of `go_denote_core`.
pub mod denote_core {
    pub use go_expr_core::denote_core::{Outcome, Stand};
}

/// What the crates above name of `go_expr_core`.
pub mod expr_core {
    pub use go_expr_core::left_place;
}

/// What the crates above name of `go_handle_core`.
pub mod handle_core {
    pub use go_summary_core::handle_core::{Home, SignatureRef, TypeRef};
}

/// What the crates above name of `go_operand_core`.
pub mod operand_core {
    pub use go_expr_core::operand_core::{Operand, ValueType};
}

/// What the crates above name of `go_summary_core`.
pub mod summary_core {
    pub use go_summary_core::alike::same_exports;
    pub use go_summary_core::shown::{deps_shown, imports_shown};
    pub use go_summary_core::{
        ReachedSummaries, Summary, SummaryList, View, import_view, summarize, view_of,
    };
}
