//! Which paths a request names itself.
ghost use Rattle.std.specs.Prelude.{◌≡◌, Bool, IfOk};
ghost use Rattle.nc_names.specs.declared.path.Path.{Path};

use nc_names::{Memory, Path};

/// Knows which paths the payload of a request names, so that an error about one of them gives nothing away
/// (RFC 8341 3.2.5).
pub trait Named {
    /// Whether the payload names the path.
    ghost named: { Self → Path → Bool };

    /// Whether the payload names the path.
    fn names(&self, path: &Path) -> Result<bool, Memory>
        ensures { IfOk result (λ it. it ≡ named self.now path.now) };
}
