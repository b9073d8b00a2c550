//! The part of a package.
ghost use Rattle.std.specs.Prelude.{◌≡◌, ◌++◌, ◌∷◌, [], IfOk, OnOk};
ghost use Rattle.go_report_core.specs.summary_core.Views.{types_told};
ghost use Rattle.go_package_core.specs.package_part.Inputs.{path_in};
ghost use Rattle.go_package_core.specs.package_part.Parts.{IsPart, part_content_shown, part_with};

use crate::package_part::content::{PackageContent, compile_over};
use crate::package_part::input::PartInput;
use go_path_core::ImportPath;
use go_path_core::text_core::add;
use go_report_core::summary_core::{Summary, view_of};
use go_type_core::table_core::TypeTable;
use std::alloc::{AllocError, Global};
use std::marker::Model;
use std::sync::Arc;

// What is shared of a part. Its content is shared with the parts of other inputs that give the same.
#[derive(Drop)]
struct Made {
    input: PartInput,
    content: Arc<PackageContent>,
    generation: u64,
}

/// What one package has by its input alone: what each occurrence of its files has, its faults, the locals of its functions, and what it tells those
/// that import it. A handle over one shared pointer. Its content is what its input gives: no part says of a package what is not so. Contracts see
/// the input and the content.
pub struct Part {
    made: Arc<Made>,
}

impl Drop for Part {
    fn drop(self) {
        let Part { made: _ } = self;
    }
}

impl Model for Part {
    ghost use Rattle.std.specs.Arc.{arc_value};
    ghost use Rattle.std.specs.Coded.{codes};
    ghost use Rattle.go_block_core.specs.Blocks.{coded_blocks};
    ghost use Rattle.go_report_core.specs.declared_core.codes.FaceCodes.{coded_face, coded_operand};
    ghost use Rattle.go_report_core.specs.summary_core.codes.SummaryCodes.{coded_summary};
    ghost use Rattle.go_package_core.specs.package_part.Inputs.{coded_input};
    ghost use Rattle.go_package_core.specs.package_part.Parts.{IsPart, PartModel, part_content_shown, part_with};

    ghost Value = { PartModel };

    ghost coded = { Prim.hlevel (codes, coded_input, coded_blocks, coded_face, coded_operand, coded_summary) };

    ghost view = { λ p. part_with (arc_value p.made).input (part_content_shown (arc_value (arc_value p.made).content)) };

    ghost invariant = { λ p. IsPart (arc_value p.made).input (part_content_shown (arc_value (arc_value p.made).content)) };
}

impl Part {
    /// The part of an input, with what the input gives. It is made in generation 0 (`made_in`).
    ///
    /// # Errors
    ///
    /// `AllocError` where memory is wanting.
    pub fn new(alloc: Global, input: PartInput, content: PackageContent) -> Result<Part, AllocError>
        requires { IsPart input (part_content_shown content) }
        ensures { IfOk result (λ p. p ≡ part_with input (part_content_shown content)) }
    {
        let part = Part::of_generation(alloc, input, content, 0)?;
        Ok(part)
    }

    // The same, made in a generation.
    fn of_generation(
        alloc: Global,
        input: PartInput,
        content: PackageContent,
        generation: u64,
    ) -> Result<Part, AllocError>
        requires { IsPart input (part_content_shown content) }
        ensures { IfOk result (λ p. p ≡ part_with input (part_content_shown content)) }
    {
        let content = Arc::new(alloc, content)?;
        let made = Made {
            input,
            content,
            generation,
        };
        Ok(Part {
            made: Arc::new(alloc, made)?,
        })
    }

    /// The part of another input that gives the same: its content is shared, and it says that it was made in the same generation.
    ///
    /// # Errors
    ///
    /// `AllocError` where memory is wanting, or the content has too many owners.
    pub fn with_input(&self, alloc: Global, input: PartInput) -> Result<Part, AllocError>
        requires { IsPart input self.now.content }
        ensures { IfOk result (λ p. p ≡ part_with input self.now.content) }
    {
        let content = Arc::try_clone(&self.made.content)?;
        let made = Made {
            input,
            content,
            generation: self.made.generation,
        };
        Ok(Part {
            made: Arc::new(alloc, made)?,
        })
    }

    /// The same part once more. It takes no memory.
    ///
    /// # Errors
    ///
    /// `AllocError` where it has too many owners.
    pub fn share(&self) -> Result<Part, AllocError>
        ensures { IfOk result (λ p. p ≡ self.now) }
    {
        Ok(Part {
            made: Arc::try_clone(&self.made)?,
        })
    }

    /// The generation that the part was compiled in: the one handed to `compile_part_in`, 0 where none was. No contract says so, and nothing rests on it.
    pub fn made_in(&self) -> u64 {
        self.made.generation
    }

    /// What the part was made from.
    pub fn input(&self) -> &PartInput
        ensures { result.now ≡ self.now.input }
    {
        &self.made.input
    }

    /// The path of the package.
    pub fn path(&self) -> &ImportPath
        ensures { result.now ≡ path_in self.now.input }
    {
        self.input().path()
    }

    /// What the package has. It is what the input gives.
    pub fn content(&self) -> &PackageContent
        ensures value { part_content_shown result.now ≡ self.now.content }
        ensures made { IsPart self.now.input self.now.content }
    {
        &self.made.content
    }

    /// What the package tells those that reach it by imports.
    pub fn summary(&self) -> &Summary
        ensures { result.now ≡ self.now.content.summary }
    {
        &self.made.content.summary
    }

    /// Adds what the package tells to what others tell.
    ///
    /// # Errors
    ///
    /// `AllocError` where memory is wanting.
    pub fn tell(&self, told: &mut Vec<Summary>) -> Result<(), AllocError>
        ensures { OnOk result (told.new.items ≡ told.old.items ++ self.now.content.summary ∷ []) }
    {
        add(told, self.summary().share()?)
    }
}

/// The part of an input, by the input alone: no other package is looked at. It has the blocks of the package, what each occurrence of its files
/// has, where an import that is not used has the rule I7, its faults in order, each once, the locals of its functions, and its summary.
///
/// The Go specification, "Packages", "Declarations and scope", "Import declarations".
///
/// # Errors
///
/// `AllocError` where memory is wanting.
pub fn compile_part(alloc: Global, input: &PartInput) -> Result<Part, AllocError>
    ensures input { IfOk result (λ p. p.input ≡ input.now) }
    ensures made { IfOk result (λ p. IsPart input.now p.content) }
{
    let part = compile_part_in(alloc, input, 0)?;
    Ok(part)
}

/// The same part, which says that it was made in a generation.
///
/// # Errors
///
/// `AllocError` where memory is wanting.
pub fn compile_part_in(
    alloc: Global,
    input: &PartInput,
    generation: u64,
) -> Result<Part, AllocError>
    ensures input { IfOk result (λ p. p.input ≡ input.now) }
    ensures made { IfOk result (λ p. IsPart input.now p.content) }
{
    let summaries = input.reached().list(alloc)?;
    let mut seen = view_of(alloc, &summaries)?;
    let content = compile_over(alloc, input, &mut seen)?;
    let shared = input.share()?;
    let part = Part::of_generation(alloc, shared, content, generation)?;
    Ok(part)
}

/// The types that a package sees: those of the packages that it reaches, one package's behind another's in the order of its input, and then its own.
/// They are shared. The time is linear in the packages.
///
/// # Errors
///
/// `AllocError` where memory is wanting.
pub fn types_of(alloc: Global, part: &Part) -> Result<TypeTable, AllocError>
    ensures { IfOk result (λ t. t ≡ types_told part.now.input.reached ++ part.now.content.summary.types.entries) }
{
    // What the part tells is of the path of its input, and all of it of one package.
    let _content = part.content();
    let summary = part.summary();
    let _path = summary.path();
    let reached = part.input().reached();
    let mut types = reached.types(alloc)?;
    types.add(summary.types().share()?)?;
    Ok(types)
}
