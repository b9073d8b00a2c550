//! A workspace of many packages. Those of the same form have the same texts.
use go_graph_core::Workspace;
use go_path_core::Module;
use go_submit_core::MAX_PACKAGES;
use go_text_core::Rule;
use std::alloc::{AllocError, Global};
use test_probe::show::{Lines, put_archive};

/// The functions of a package that imports none. One that imports others has fewer, and is about as long.
const FUNCTIONS: usize = 60;

/// What the imports of a package lead to.
#[derive(Clone, Copy)]
pub(crate) enum Shape {
    /// Those before it in its module.
    Near,
    /// Others of higher number, of any module: one of each part of those behind it.
    Spread,
}

/// The form of a workspace: the shape of its imports, how many packages it has, and how many a package imports, where there are so many to import. Its
/// modules have as many packages as may be.
#[derive(Clone, Copy)]
pub(crate) struct Form {
    pub(crate) shape: Shape,
    pub(crate) packages: usize,
    pub(crate) imports: usize,
}

/// What an edit may change of a package: a number in the body of its first function, and the constant that it shows.
#[derive(Clone, Copy)]
pub(crate) struct Version {
    pub(crate) body: usize,
    pub(crate) constant: usize,
}

/// The text so far, unless a piece of it is missing.
fn finished(lines: Lines) -> Result<String, Rule> {
    match lines.finish() {
        Ok(text) => Ok(text),
        Err(AllocError) => Err(Rule::M0),
    }
}

/// The module of a number.
///
/// # Errors
///
/// `Rule::M0` where memory is wanting.
pub(crate) fn module_of(alloc: Global, number: usize) -> Result<Module, Rule> {
    let mut path = Lines::new(alloc);
    path.count("ex.com/m", number, "");
    Module::read(alloc, finished(path)?.as_str())
}

/// Adds the path of a package.
fn add_path(out: &mut Lines, package: usize) {
    out.count("ex.com/m", package / MAX_PACKAGES, "");
    out.count("/p", package, "");
}

/// Adds the functions of a package, of which the first has a number in its body.
fn add_functions(out: &mut Lines, count: usize, body: usize) {
    for number in 0..count {
        let less = if number == 0 { body } else { number };
        out.count("// F", number, " adds.\n");
        out.count("func F", number, "(a, b int) int {\n\tc := a + b\n");
        out.count("\tif c > ", number, " {\n");
        out.count("\t\treturn c - ", less, "\n\t}\n\treturn c\n}\n\n");
    }
}

/// The package that an import of a package leads to, by the import's number among so many: some package of that part of those behind the importer, if it
/// has any.
fn spread_import(package: usize, behind: usize, import: usize, imports: usize) -> Option<usize> {
    let low = behind.saturating_mul(import).checked_div(imports)?;
    let high = behind
        .saturating_mul(import.saturating_add(1))
        .checked_div(imports)?;
    let mixed = package
        .saturating_mul(31)
        .saturating_add(import.saturating_mul(17));
    let inside = mixed.checked_rem(high.saturating_sub(low))?;
    Some(
        package
            .saturating_add(1)
            .saturating_add(low)
            .saturating_add(inside),
    )
}

impl Form {
    /// How many modules there are.
    pub(crate) fn modules(&self) -> usize {
        self.packages.saturating_add(MAX_PACKAGES - 1) / MAX_PACKAGES
    }

    /// The number of the first package of a module, and the one behind its last.
    pub(crate) fn packages_of(&self, module: usize) -> (usize, usize) {
        let first = module.saturating_mul(MAX_PACKAGES);
        (first, first.saturating_add(MAX_PACKAGES).min(self.packages))
    }

    /// The packages that one imports.
    fn imported(&self, alloc: Global, package: usize) -> Result<Vec<usize>, AllocError> {
        match self.shape {
            Shape::Near => {
                let first = package / MAX_PACKAGES * MAX_PACKAGES;
                (package.saturating_sub(self.imports).max(first)..package).collect(alloc)
            }
            Shape::Spread => {
                let behind = self.packages.saturating_sub(package).saturating_sub(1);
                (0..self.imports)
                    .filter_map(|import| spread_import(package, behind, import, self.imports))
                    .collect(alloc)
            }
        }
    }

    /// Adds the one file of a package to an archive.
    fn add_file(
        &self,
        out: &mut Lines,
        alloc: Global,
        package: usize,
        version: Version,
    ) -> Result<(), AllocError> {
        let imported = self.imported(alloc, package)?;
        out.add("-- ");
        add_path(out, package);
        out.count("/p.go --\npackage p", package, "\n\n");
        for other in &imported {
            out.add("import \"");
            add_path(out, *other);
            out.add("\"\n");
        }
        out.count("\nconst N = ", version.constant, "\n\n");
        for other in &imported {
            out.count("func g", *other, "() int { return p");
            out.count("", *other, ".N }\n\n");
        }
        let count = FUNCTIONS.saturating_sub(imported.len() / 2).max(1);
        add_functions(out, count, version.body);
        Ok(())
    }

    /// The version of a package that no edit changed.
    pub(crate) fn unchanged(package: usize) -> Version {
        Version {
            body: 0,
            constant: package,
        }
    }

    /// The packages of a module.
    ///
    /// # Errors
    ///
    /// `Rule::M0` where memory is wanting.
    pub(crate) fn packages_in(&self, alloc: Global, module: usize) -> Result<Workspace, Rule> {
        let mut archive = Lines::new(alloc);
        let (first, end) = self.packages_of(module);
        for package in first..end {
            let version = Form::unchanged(package);
            if let Err(AllocError) = self.add_file(&mut archive, alloc, package, version) {
                return Err(Rule::M0);
            }
        }
        let mut packages = Workspace::empty(alloc);
        put_archive(&mut packages, alloc, finished(archive)?.as_str())?;
        Ok(packages)
    }

    /// The packages of a module, with one in another version.
    ///
    /// # Errors
    ///
    /// `Rule::M0` where memory is wanting.
    pub(crate) fn edited(
        &self,
        alloc: Global,
        packages: &Workspace,
        package: usize,
        version: Version,
    ) -> Result<Workspace, Rule> {
        let mut archive = Lines::new(alloc);
        let added = self.add_file(&mut archive, alloc, package, version);
        let (Ok(()), Ok(mut packages)) = (added, packages.copy(alloc)) else {
            return Err(Rule::M0);
        };
        put_archive(&mut packages, alloc, finished(archive)?.as_str())?;
        Ok(packages)
    }
}
