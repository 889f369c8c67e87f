// Messages encoded: the 14 bytes that say a message's fields.
#![tactic(auto)]

ghost use Rattle.std.specs.Prelude.{◌≡◌, ◌&&◌, ◌++◌, length};
ghost use Rattle.fields.specs.Packing.{pack, fits};
ghost use Rattle.fields.specs.Bytes.{bytes_of};
ghost use Rattle.messages.specs.Message.{head_taken, head_widths, head_fields, sealed_by};
ghost use Rattle.encoder.specs.Encoded.{encoded, encoded_bytes};
ghost use Rattle.encoder.specs.Code.{me_of};

use messages::Message;
use refusals::Refusal;

fn head_of(m: Message) -> u64
    ensures { result ≡ pack head_widths (head_fields m) }
{
    (m.format as u64) * 0x800_0000 + (m.control as u64) * 0x100_0000 + (m.address as u64)
}

fn head_fits(m: Message) -> bool
    ensures { result ≡ (fits head_widths (head_fields m) && head_taken m) }
{
    (m.format < 32) & (m.control < 8) & (m.address < 0x100_0000) & messages::head_taken(m)
}

// ME of a message that can be sent.
fn me_of(m: Message) -> Result<u64, Refusal>
    ensures { result ≡ me_of m }
{
    if !head_fits(m) {
        return Err(Refusal::Field);
    }
    layouts::me_of(m.body)
}

fn fill(out: &mut [u8], head: u64, me: u64)
    requires { length out.old ≡ 14 }
    ensures { out.new ≡ sealed_by (bytes_of 4 head ++ bytes_of 7 me) }
{
    fields::put_number(&mut out[0..4], head);
    fields::put_number(&mut out[4..11], me);
    let seal = parity_words::seal_of(&out[0..11]);
    fields::put_number(&mut out[11..14], seal as u64);
}

// Writes the 14 bytes that say it. What is refused leaves the buffer as it was.
pub fn encode(m: Message, out: &mut [u8]) -> Result<(), Refusal>
    ensures { (result ≡ encoded m out.old) × (out.new ≡ encoded_bytes m out.old) }
{
    if out.len() != 14 {
        return Err(Refusal::Length);
    }
    let me = me_of(m)?;
    fill(out, head_of(m), me);
    Ok(())
}
