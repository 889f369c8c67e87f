// What a message that arrives does by value, before and after its place of a lent slice is found: the functions of `slice_table` only read, call and store.
ghost use Rattle.std.specs.Prelude.{◌≡◌};
ghost use Rattle.slice_places.specs.Arrivals.{refused_with, judged, key_in, starts_in, sought_by, track_in, next_of, turned_away_by};

use crate::{Head, Place, Sought};
use messages::Message;
use refusals::Refusal;
use track::Track;

// What a message earned, and the head to go on with: one that the decoder refuses moves the clock too, so no `Result` holds both.
#[derive(Clone, Copy)]
pub struct Received {
    pub answer: Result<Message, Refusal>,
    pub head: Head,
}

// What a step answers, and what it puts at its place.
#[derive(Clone, Copy)]
pub struct Renewal {
    pub received: Received,
    pub place: Place,
}

fn refused_with(refusal: Refusal, head: Head) -> Received
    ensures { result ≡ refused_with refusal head }
{
    Received {
        answer: Err(refusal),
        head,
    }
}

// What is known of a call before its place is sought: 1, 7, 2, and then what the decoder says, with the clock moved.
#[tactic(auto, unfolding(crate::specs::Arrivals::judged))]
pub fn judge(n: usize, head: Head, message: &[u8], time: u64) -> Received
    ensures { result ≡ judged n head message.now time }
{
    if message.len() != 14 {
        return refused_with(Refusal::Length, head);
    }
    if !crate::places_fit(n) {
        return refused_with(Refusal::Places, head);
    }
    if time < head.clock {
        return refused_with(Refusal::Late, head);
    }
    Received {
        answer: messages::decode(message),
        head: Head {
            clock: time,
            ..head
        },
    }
}

fn key_in(answer: Result<Message, Refusal>) -> u32
    ensures { result ≡ key_in answer }
{
    match answer {
        Ok(m) => messages::key_of(m),
        Err(_) => 0,
    }
}

fn starts_in(answer: Result<Message, Refusal>) -> bool
    ensures { result ≡ starts_in answer }
{
    match answer {
        Ok(m) => messages::starts(m),
        Err(_) => false,
    }
}

pub fn sought_by(due: Received) -> Sought
    ensures { result ≡ sought_by due }
{
    Sought {
        clock: due.head.clock,
        key: key_in(due.answer),
        starts: starts_in(due.answer),
    }
}

#[tactic(auto, unfolding(crate::specs::Arrivals::track_in))]
fn track_in(s: Sought, p: Place) -> Track
    ensures { result ≡ track_in s p }
{
    if crate::has_key(s.clock, s.key, p) {
        crate::look_at(p)
    } else {
        track::new_track()
    }
}

// The step of the place that was chosen: of its track if it holds the key, or of a new one.
#[tactic(auto, unfolding(crate::specs::Arrivals::next_of))]
pub fn next_of(due: Received, p: Place) -> Renewal
    ensures { result ≡ next_of due p }
{
    let head = due.head;
    let s = sought_by(due);
    let stepped = track::step(track_in(s, p), due.answer, crate::site_of(head), head.clock);
    Renewal {
        received: Received {
            answer: stepped.answer,
            head,
        },
        place: Place {
            key: s.key,
            track: stepped.track,
        },
    }
}

// What is due where no place was chosen: 6, or 12.
pub fn turned_away(due: Received) -> Received
    ensures { result ≡ turned_away_by due }
{
    refused_with(rules::turned_away(starts_in(due.answer)), due.head)
}
