// The version, so that a program can ask whether its header is that of its archive.
ghost use Rattle.std.specs.Prelude.{◌≡◌};
ghost use Rattle.addercoil.specs.Version.{version};

// 10,000 times the major number, 100 times the minor one, and the patch.
pub fn addercoil_version() -> u32
    ensures { result ≡ version }
{
    1000
}
