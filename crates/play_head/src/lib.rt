// The measured player over the mounted head, by value and lent.
#![tactic(auto)]

ghost use Rattle.std.specs.Prelude.{◌≡◌};
ghost use Rattle.play_entries.specs.Mounted.{mounted_tape};
ghost use Rattle.play_deck.specs.Deck.{head_after, play_mounted};

use play_deck::{Head, Played, play_measured};
use play_entries::Mounted;
use play_walk::{Fault, Reached};

// Where the head is after an answer: on a refusal as it was.
#[tactic(auto, unfolding(play_deck::specs::Deck::head_after))]
pub fn head_after(head: Head, r: Result<Reached, Fault>) -> Head
    ensures { result ≡ head_after head r }
{
    match r {
        Ok(a) => Head {
            position: a.stand.position,
        },
        Err(_) => head,
    }
}

// The measured player over a head by value.
#[tactic(auto, unfolding(play_deck::specs::Deck::play_mounted))]
pub fn play_mounted(m: &Mounted<'_>, head: Head, n: u32) -> Played
    ensures { result ≡ play_mounted (mounted_tape m.now) head n }
{
    let answer = play_measured(m, head.position, n);
    Played {
        head: head_after(head, answer),
        answer,
    }
}

// The measured player over the mounted head, which is lent and altered; on a refusal it is as it was.
pub fn play_head(m: &Mounted<'_>, head: &mut Head, n: u32) -> Result<Reached, Fault>
    ensures { (result ≡ (play_mounted (mounted_tape m.now) head.old n).answer)
        × (head.new
        ≡ (play_mounted (mounted_tape m.now) head.old n).head) }
{
    let p = play_mounted(m, *head, n);
    *head = p.head;
    p.answer
}

// The same over a local head, by value: the theorem `play_local_determined` is on it.
pub fn play_once(m: &Mounted<'_>, head: Head, n: u32) -> Played
    ensures { result ≡ play_mounted (mounted_tape m.now) head n }
{
    let mut h = head;
    let answer = play_head(m, &mut h, n);
    Played { head: h, answer }
}
