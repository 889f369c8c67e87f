// The one function of this crate whose result can be below zero.
ghost use Rattle.std.specs.Prelude.{◌≡◌, ◌<◌, ◌^◌, pos, ◌-ℤ◌};

pub(crate) fn less(n: u32, k: u32) -> i32
    requires { (n < 2 ^ 31) × (k < 2 ^ 31) }
    ensures { result ≡ pos n -ℤ pos k }
{
    (n as i32) - (k as i32)
}
