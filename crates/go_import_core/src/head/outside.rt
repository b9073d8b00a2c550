//! Packages outside modules.
ghost use Rattle.std.specs.Prelude.{◌≡◌, ◌↔◌, IsTrue, false};
ghost use Rattle.go_graph_core.specs.Workspaces.{is_path_inside};
ghost use Rattle.go_import_core.specs.head.Outside.{is_inside_any};
ghost use Rattle.go_import_core.specs.head.mirrors.Marking.{AreSameTwo};

use go_graph_core::PackageSource;
use go_path_core::{ImportPath, Module};

fn is_inside(own: &Module, path: &ImportPath) -> bool
    ensures { result ≡ is_path_inside own.now path.now }
{
    own.contains(path)
}

fn is_inside_any(modules: &[Module], path: &ImportPath) -> bool
    ensures { result ≡ is_inside_any modules.now path.now }
{
    modules.iter().any(|own| is_inside(own, path))
}

/// Whether two packages have one path, which is inside none of these modules. No text is compared.
pub(crate) fn is_same_outside(
    modules: &[Module],
    one: &PackageSource,
    other: &PackageSource,
) -> bool
    requires { AreSameTwo modules.now one.now other.now }
    ensures same { IsTrue result → one.now ≡ other.now }
    ensures outside { IsTrue result ↔ ((one.now.0 ≡ other.now.0) × (is_inside_any modules.now other.now.0 ≡ false)) }
{
    one.path().is_same(other.path()) && !is_inside_any(modules, other.path())
}
