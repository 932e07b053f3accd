//! Where paths lie.
ghost use Rattle.std.specs.Prelude.{◌≡◌};
ghost use Rattle.builder_api.specs.Places.{is_within, is_below};

use res_path::Path;

/// Whether the path lies at or below one of the roots, as a command's input files do.
pub fn is_within(roots: &[Path], path: &Path) -> bool
    ensures { result ≡ is_within roots.now path.now }
{
    roots.iter().any(|root| root.is_prefix_of(path))
}

/// Whether the path lies below the other and isn't it, as a command's output files do.
pub fn is_below(output: &Path, path: &Path) -> bool
    ensures { result ≡ is_below output.now path.now }
{
    output.is_prefix_of(path) && output != path
}
