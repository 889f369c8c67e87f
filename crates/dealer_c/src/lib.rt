// Addercoil for C, over the library `dealer`: each function calls that library's function of its name, under the same clauses. Only a static library exports, and it is an object of its own in the archive.
#![tactic(auto)]

ghost use Rattle.std.specs.Prelude.{◌≡◌};
ghost use Rattle.dealer.specs.Joint.{joint, merge_into};
ghost use Rattle.dealer.specs.Keys.{key_said};
ghost use Rattle.entries.specs.Sent.{into, sent};
ghost use Rattle.messages.specs.Message.{decoded};

#[unsafe(no_mangle)]
pub extern "C" fn addercoil_merge(a: &[u8], b: &[u8], out: &mut [u8], written: &mut [u64]) -> u32
    ensures { joint result out.new written.new ≡ merge_into a.now b.now out.old written.old }
{
    dealer::joint::addercoil_merge(a, b, out, written)
}

#[unsafe(no_mangle)]
pub extern "C" fn addercoil_key(message: &[u8], out: &mut [u64]) -> u32
    ensures { sent result out.new ≡ into 1 out.old (key_said (decoded message.now)) }
{
    dealer::key::addercoil_key(message, out)
}
