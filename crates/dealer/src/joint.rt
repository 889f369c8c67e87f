// The listings of two tables as one.
ghost use Rattle.std.specs.Prelude.{◌≡◌};
ghost use Rattle.dealer.specs.Joint.{joint, merge_into};

// The listing of both, with zeros behind the text, and how many bytes the text has. Or 1, then 16.
pub fn addercoil_merge(a: &[u8], b: &[u8], out: &mut [u8], written: &mut [u64]) -> u32
    ensures { joint result out.new written.new ≡ merge_into a.now b.now out.old written.old }
{
    if written.len() != 1 {
        return 1;
    }
    let merged = merge::merge(a, b, out);
    match merged {
        Ok(n) => {
            written[0] = n as u64;
            0
        }
        Err(r) => refusals::number(r),
    }
}
