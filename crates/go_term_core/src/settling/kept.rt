//! Which fields and methods are kept.
ghost use Rattle.std.specs.Prelude.{◌≡◌, [], IfOk, length};
ghost use Rattle.go_term_core.specs.settling.mirrors.Kept.{keeps_field, keeps_method, kept_fields, kept_methods, those_kept};

use crate::settling::seen::SeenNames;
use crate::{Field, Method};
use go_tree_nodes::text_core::{add, is_blank};
use std::alloc::{AllocError, Global};

// Whether a field is kept: it is blank, or its name is new.
fn keeps_field(name: &str, is_new: bool) -> bool
    ensures { result ≡ keeps_field name.now is_new }
{
    is_blank(name) || is_new
}

// Whether a method is kept: it is not blank, and its name is new.
fn keeps_method(name: &str, is_new: bool) -> bool
    ensures { result ≡ keeps_method name.now is_new }
{
    !is_blank(name) && is_new
}

/// For each field whether it is kept: it is blank, or repeats no earlier name.
fn kept_fields(alloc: Global, fields: &[Field]) -> Result<Vec<bool>, AllocError>
    ensures kept { IfOk result (λ kept. kept.items ≡ kept_fields fields.now) }
    ensures len { IfOk result (λ kept. length kept.items ≡ length fields.now) }
{
    let mut seen = SeenNames::new(alloc);
    let mut kept = Vec::new(alloc);
    for field in fields {
        let name = field.name.as_str();
        let is_new = seen.add(name)?;
        add(&mut kept, keeps_field(name, is_new))?;
    }
    Ok(kept)
}

/// For each method whether it is kept: it is not blank, and repeats no earlier name.
pub(crate) fn kept_methods(alloc: Global, methods: &[Method]) -> Result<Vec<bool>, AllocError>
    ensures kept { IfOk result (λ kept. kept.items ≡ kept_methods methods.now) }
    ensures len { IfOk result (λ kept. length kept.items ≡ length methods.now) }
{
    let mut seen = SeenNames::new(alloc);
    let mut kept = Vec::new(alloc);
    for method in methods {
        let name = method.name.as_str();
        let is_new = seen.add(name)?;
        add(&mut kept, keeps_method(name, is_new))?;
    }
    Ok(kept)
}

// The same field.
fn copy_field(alloc: Global, field: &Field) -> Result<Field, AllocError>
    ensures { IfOk result (λ f. f ≡ field.now) }
{
    Ok(Field {
        name: field.name.copy(alloc)?,
        place: field.place,
        line: field.line,
    })
}

/// The fields of a struct type that are kept: those that are blank, or repeat no earlier name.
pub(crate) fn settle_fields(alloc: Global, fields: &Vec<Field>) -> Result<Vec<Field>, AllocError>
    ensures { IfOk result (λ fs. fs.items ≡ those_kept (kept_fields fields.now.items) fields.now.items) }
{
    let kept = kept_fields(alloc, fields)?;
    let mut settled = Vec::new(alloc);
    for (i, field) in fields.iter().enumerate() {
        if kept[i] {
            let copy = copy_field(alloc, field)?;
            add(&mut settled, copy)?;
        }
    }
    Ok(settled)
}
