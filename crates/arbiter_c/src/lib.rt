// Addercoil for C, over the library `arbiter`: each function calls that library's function of its name, under the same clauses. Only a static library exports, and it is an object of its own in the archive.
#![tactic(auto)]

ghost use Rattle.std.specs.Prelude.{◌≡◌};
ghost use Rattle.arbiter.specs.Checks.{check_said};
ghost use Rattle.compare.specs.Compared.{checked};
ghost use Rattle.entries.specs.Sent.{into, sent};

#[unsafe(no_mangle)]
pub extern "C" fn addercoil_check(capture: &[u8], listing: &[u8], out: &mut [u64]) -> u32
    ensures { sent result out.new ≡ into 1 out.old (check_said (checked capture.now listing.now)) }
{
    arbiter::addercoil_check(capture, listing, out)
}
