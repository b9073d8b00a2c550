//! The folder of a package below a module.
ghost use Rattle.std.specs.Prelude.{◌≡◌, ◌<◌, List, ℕ, length};
ghost use Rattle.go_folder_core.specs.Folders.{joined_path};

/// The path of a package's folder from that of another package, where it lies there or below it; empty where it is that package, or lies elsewhere.
pub fn folder_of<'a>(module_path: &str, package: &'a str) -> &'a str
    ensures { (folder : List ℕ) → 0 < length module_path.now → «package».now ≡ joined_path module_path.now folder → result.now ≡ folder }
{
    match package.strip_prefix(module_path) {
        Some(behind) => match behind.strip_prefix('/') {
            Some(folder) => folder,
            None => "",
        },
        None => "",
    }
}
