// Messages of 14 bytes: whether they are acceptable, and decoded.
#![tactic(auto)]

ghost use Rattle.std.specs.Prelude.{◌≡◌, length};
ghost use Rattle.messages.specs.Message.{format_taken, coarse_by, is_reserved, head_taken, decoded, kind_by, kind_of, key_by, key_of, traffic_by, traffic, starts_by, starts};
ghost use Rattle.messages.specs.Accepted.{frame_of, frame_coarse, frame_reserved, frame_refused, formed, accepted, frame_in, frame_key, frame_starts};

use keys::Kind;
use layouts::Body;
use refusals::Refusal;

#[derive(Clone, Copy)]
pub struct Message {
    // DF
    pub format: u8,
    // CA of DF 17, CF of DF 18
    pub control: u8,
    // AA
    pub address: u32,
    pub body: Body,
}

// A message's bits before PI, ME as one number.
#[derive(Clone, Copy)]
pub struct Frame {
    pub format: u8,
    pub control: u8,
    pub address: u32,
    pub me: u64,
}

// Whether DF, and of DF 18 the CF, is taken. Here and below DF is asked first, so that a message of DF 17 pays for nothing of DF 18.
fn format_taken(format: u8, control: u8) -> bool
    ensures { result ≡ format_taken format control }
{
    format == 17 || (format == 18 && ((control <= 3) | (control == 5)))
}

// Whether it is a coarse message.
pub fn coarse_by(format: u8, control: u8) -> bool
    ensures { result ≡ coarse_by format control }
{
    format == 18 && control == 3
}

// Whether the traffic service sent it, whatever the flag.
pub fn traffic_by(format: u8, control: u8) -> bool
    ensures { result ≡ traffic_by format control }
{
    format == 18 && ((control == 2) | (control == 3) | (control == 5))
}

// Whether the flag is reserved, as it is with CF 5 where it is set, or TYPE, as 31 is of the traffic service.
fn is_reserved(format: u8, control: u8, typecode: u8, flag: u8) -> bool
    ensures { result ≡ is_reserved format control typecode flag }
{
    let served = traffic_by(format, control);
    ((format == 18) & (control == 5) & (flag == 1)) | (served & (typecode == 31))
}

// Whether DF and CF, with TYPE and the flag, are taken, and the body is a coarse one just where they say so.
pub fn head_taken(m: Message) -> bool
    ensures { result ≡ head_taken m }
{
    let body = m.body;
    let reserved = is_reserved(
        m.format,
        m.control,
        layouts::type_of(body),
        layouts::flag_of(body),
    );
    let coarse = coarse_by(m.format, m.control);
    let agreed = coarse == layouts::is_coarse(body);
    format_taken(m.format, m.control) & !reserved & agreed
}

fn frame_of(s: &[u8]) -> Frame
    requires { length s.now ≡ 14 }
    ensures { result ≡ frame_of s.now }
{
    let head = fields::number_of(&s[0..4]);
    let me = fields::number_of(&s[4..11]);
    Frame {
        format: (head / 0x800_0000 % 32) as u8,
        control: (head / 0x100_0000 % 8) as u8,
        address: (head % 0x100_0000) as u32,
        me,
    }
}

// Whether a frame is a coarse message's.
pub fn frame_coarse(f: Frame) -> bool
    ensures { result ≡ frame_coarse f }
{
    coarse_by(f.format, f.control)
}

// Whether the flag or TYPE of a frame is reserved.
fn frame_reserved(f: Frame) -> bool
    ensures { result ≡ frame_reserved f }
{
    if f.format != 18 {
        return false;
    }
    let coarse = frame_coarse(f);
    is_reserved(
        f.format,
        f.control,
        layouts::type_by(coarse, f.me),
        layouts::flag_in(coarse, f.me),
    )
}

// Whether a frame earns 5, as no coarse message does.
fn frame_refused(f: Frame) -> bool
    ensures { result ≡ frame_refused f }
{
    if f.format != 18 {
        return !layouts::is_taken(false, f.me);
    }
    if frame_coarse(f) {
        return false;
    }
    !layouts::is_taken(false, f.me) | frame_reserved(f)
}

// The bits before PI of a message that earns none of 1, 3 and 4, which are asked in this order.
#[tactic(auto, unfolding(crate::specs::Accepted::formed))]
fn formed(s: &[u8]) -> Result<Frame, Refusal>
    ensures { result ≡ formed s.now }
{
    if s.len() != 14 {
        return Err(Refusal::Length);
    }
    if parity_words::remainder_of(s) != 0 {
        return Err(Refusal::Parity);
    }
    let f = frame_of(s);
    if !format_taken(f.format, f.control) {
        return Err(Refusal::Format);
    }
    Ok(f)
}

// An acceptable message with nothing unpacked of its ME, or why it is none.
#[tactic(auto, using(crate::proofs::Acceptance::accepted_by))]
pub fn accept(s: &[u8]) -> Result<Frame, Refusal>
    ensures { result ≡ accepted s.now }
{
    let f = formed(s)?;
    if frame_refused(f) {
        return Err(Refusal::TypeCode);
    }
    Ok(f)
}

// The bits before PI, or why they are refused before their layout is asked for: the decoder asks for that once.
#[tactic(auto, using(crate::proofs::Acceptance::frame_in_by))]
pub fn frame_in(s: &[u8]) -> Result<Frame, Refusal>
    ensures { result ≡ frame_in s.now }
{
    let f = formed(s)?;
    if frame_reserved(f) {
        return Err(Refusal::TypeCode);
    }
    Ok(f)
}

// What 14 bytes say, or why they are refused.
#[tactic(auto, using(crate::proofs::Acceptance::frame_says_lem))]
pub fn decode(s: &[u8]) -> Result<Message, Refusal>
    ensures { result ≡ decoded s.now }
{
    let f = frame_in(s)?;
    let body = layouts::body_by(frame_coarse(f), f.me)?;
    Ok(Message {
        format: f.format,
        control: f.control,
        address: f.address,
        body,
    })
}

// The kind of a message of DF 18.
fn kind_by(control: u8, flag: u8, station: u8) -> Kind
    ensures { result ≡ kind_by control flag station }
{
    match control {
        1 => Kind::O,
        2 => if flag == 0 { Kind::T } else { Kind::M },
        3 => Kind::C(flag, station),
        5 => Kind::N,
        _ => Kind::I,
    }
}

#[tactic(auto, unfolding(crate::specs::Message::kind_of))]
fn kind_of(format: u8, control: u8, flag: u8, station: u8) -> Kind
    ensures { result ≡ kind_of format control flag station }
{
    if format == 18 {
        return kind_by(control, flag, station);
    }
    Kind::I
}

// The key of a track: AA with its kind, by DF, CF, the flag and the station.
pub fn key_by(format: u8, control: u8, flag: u8, station: u8, address: u32) -> u32
    ensures { result ≡ key_by format control flag station address }
{
    keys::key_for(kind_of(format, control, flag, station), address)
}

// That of a message.
pub fn key_of(m: Message) -> u32
    ensures { result ≡ key_of m }
{
    key_by(
        m.format,
        m.control,
        layouts::flag_of(m.body),
        layouts::station_of(m.body),
        m.address,
    )
}

// That of a frame.
#[tactic(auto, unfolding(crate::specs::Message::kind_of))]
pub fn frame_key(f: Frame) -> u32
    ensures { result ≡ frame_key f }
{
    if f.format != 18 {
        return keys::key_for(Kind::I, f.address);
    }
    let coarse = frame_coarse(f);
    key_by(
        f.format,
        f.control,
        layouts::flag_in(coarse, f.me),
        layouts::station_in(coarse, f.me),
        f.address,
    )
}

// Whether a ground station's traffic service sent it.
#[tactic(auto, using(crate::proofs::Flags::traffic_is))]
pub fn is_traffic(m: Message) -> bool
    ensures { result ≡ traffic m }
{
    traffic_by(m.format, m.control)
}

// The one test of what may start a track: whether it is a coarse message, whether the traffic service sent it, and TYPE.
fn starts_by(coarse: bool, served: bool, typecode: u8) -> bool
    ensures { result ≡ starts_by coarse served typecode }
{
    if coarse {
        return true;
    }
    if served {
        return layouts::is_position(typecode);
    }
    typecode != 0
}

// Whether a message may start a track.
pub fn starts(m: Message) -> bool
    ensures { result ≡ starts m }
{
    let coarse = coarse_by(m.format, m.control);
    starts_by(coarse, is_traffic(m), layouts::type_of(m.body))
}

// The same of its frame.
#[tactic(auto, using(crate::proofs::Flags::traffic_is))]
pub fn frame_starts(f: Frame) -> bool
    ensures { result ≡ frame_starts f }
{
    let coarse = frame_coarse(f);
    starts_by(
        coarse,
        traffic_by(f.format, f.control),
        layouts::type_by(coarse, f.me),
    )
}
