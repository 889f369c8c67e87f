// Identification: the category set of a TYPE, and the characters.
#![tactic(auto)]

ghost use Rattle.std.specs.Prelude.{◌≡◌, ◌<◌};
ghost use Rattle.characters.specs.Text.{category_set_of, set_at, character_of, text_of, text_at};
ghost use Rattle.characters.specs.Text.{shown as Text·shown};

use refusals::Refusal;

#[derive(Clone, Copy)]
pub enum CategorySet {
    A,
    B,
    C,
    D,
}

// The category set of a TYPE; one that is no identification has none.
#[tactic(auto, unfolding(crate::specs::Text::set_at))]
pub fn set_at(typecode: u8) -> Option<CategorySet>
    ensures { result ≡ set_at typecode }
{
    match typecode {
        4 => Some(CategorySet::A),
        3 => Some(CategorySet::B),
        2 => Some(CategorySet::C),
        1 => Some(CategorySet::D),
        _ => None,
    }
}

// The same of a TYPE within its 5 bits; a wider one is refused.
#[tactic(auto, unfolding(crate::specs::Text::category_set_of))]
pub fn category_set_of(typecode: u8) -> Result<Option<CategorySet>, Refusal>
    ensures { result ≡ category_set_of typecode }
{
    if 32 <= typecode {
        return Err(Refusal::Field);
    }
    Ok(set_at(typecode))
}

#[tactic(auto, unfolding(crate::specs::Text::shown))]
fn shown(code: u8) -> u8
    requires { code < 64 }
    ensures { result ≡ Text·shown code }
{
    match code {
        1..=26 => b'A' + (code - 1),
        32 => b' ',
        48..=57 => b'0' + (code - 48),
        _ => b'?',
    }
}

// The character of a code of 6 bits.
#[tactic(auto, unfolding(crate::specs::Text::character_of))]
pub fn character_of(code: u8) -> Result<u8, Refusal>
    ensures { result ≡ character_of code }
{
    if 64 <= code {
        return Err(Refusal::Field);
    }
    Ok(shown(code))
}

fn letter(code: u64) -> u64
    requires { code < 64 }
    ensures { (result ≡ Text·shown code) × (result < 256) }
{
    u64::from(shown(code as u8))
}

// The text of eight characters of 6 bits, the first the highest; what stands above the 48 is not read.
pub fn text_at(characters: u64) -> u64
    ensures { result ≡ text_at characters }
{
    let a = letter(characters / 0x400_0000_0000 % 64);
    let b = letter(characters / 0x10_0000_0000 % 64);
    let c = letter(characters / 0x4000_0000 % 64);
    let d = letter(characters / 0x100_0000 % 64);
    let e = letter(characters / 0x4_0000 % 64);
    let f = letter(characters / 0x1000 % 64);
    let g = letter(characters / 64 % 64);
    let h = letter(characters / 1 % 64);
    let high = a * 0x100_0000 + b * 0x1_0000 + c * 0x100 + d;
    let low = e * 0x100_0000 + f * 0x1_0000 + g * 0x100 + h;
    high * 0x1_0000_0000 + low
}

// The same of 48 bits; a wider number is refused.
#[tactic(auto, unfolding(crate::specs::Text::text_of))]
pub fn text_of(characters: u64) -> Result<u64, Refusal>
    ensures { result ≡ text_of characters }
{
    if 0x1_0000_0000_0000 <= characters {
        return Err(Refusal::Field);
    }
    Ok(text_at(characters))
}
