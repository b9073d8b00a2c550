//! A fault of a checked file with what stands there, and what is told of its values and its types: what sentences about it are made of.
#![tactic(auto)]

mod case;
mod embedded;
mod fields;
mod fitting;
mod headers;
mod lists;
mod missing;
mod telling;

pub use case::Case;
pub use embedded::{
    Embedded, Owner, Way, deep_pointer, embedded_with, has_method, shallowest, target_of,
};
pub use fields::{StructParts, add_difference, add_hidden_field, parts_of};
pub use fitting::{add_conversion, add_why, mark, mark_between, why_fixed};
pub use headers::{Header, header_of, results_written};
pub use lists::{Misfit, Values, misfit_in, values_of};
pub use missing::{GivenValue, add_assertion, add_missing};
pub use telling::{
    article_of, counted, is_nil, is_value, params_of, type_of, type_told, types_told, under_told,
    values_told,
};

/// What the crates above name of `go_diagnostic_core`.
pub mod diagnostic_core {
    pub use go_diagnostic_core::{
        LineKind, Message, Words, add_names, add_near, digits, kind_text, own_decl,
        package_of_name, place_here, shown,
    };
}

/// What the crates above name of `go_judge_core`.
pub mod judge_core {
    pub use go_judge_core::{
        CheckedFile, Extent, Judged, Piece, TypeText, exprs_of, inside, operand_type,
    };
}
