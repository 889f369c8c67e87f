// Addercoil for C, the function by which another decoder's listing is checked, in a table of its own. It is an object of its own in the archive: what it calls of the table has one caller in each, and stays in its place.
#![tactic(auto)]

ghost use Rattle.std.specs.Prelude.{◌≡◌};
ghost use Rattle.compare.specs.Compared.{checked};
ghost use Rattle.entries.specs.Sent.{sent, into};
ghost use Rattle.arbiter.specs.Checks.{check_said};

// 0 for yes, else the first line at fault, into 1 entry. Or 1, then 14, then 16.
pub fn addercoil_check(capture: &[u8], listing: &[u8], out: &mut [u64]) -> u32
    ensures { sent result out.new ≡ into 1 out.old (check_said (checked capture.now listing.now)) }
{
    if out.len() != 1 {
        return 1;
    }
    match compare::check(capture, listing) {
        Ok(None) => entries::give(out, &[0]),
        Ok(Some(line)) => entries::give(out, &[line]),
        Err(r) => refusals::number(r),
    }
}
