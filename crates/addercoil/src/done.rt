// What a call returns that hands out nothing.
ghost use Rattle.std.specs.Prelude.{◌≡◌};
ghost use Rattle.addercoil.specs.Done.{done_number};

use refusals::Refusal;

// 0 where it is done, or the number of its refusal.
pub(crate) fn done_number(answer: Result<(), Refusal>) -> u32
    ensures { result ≡ done_number answer }
{
    match answer {
        Ok(()) => 0,
        Err(r) => refusals::number(r),
    }
}
