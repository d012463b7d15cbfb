//! The export that says which version of the library is in the process.
ghost use Rattle.std.specs.Prelude.{◌≡◌};
ghost use Rattle.version.specs.Version.{version_number};

/// The library's version as one number, 10,000 times its first number, 100 times its second, and its third.
#[unsafe(no_mangle)]
pub extern "C" fn ak_version() -> u32
    ensures { result ≡ version_number }
{
    version::version_number()
}
