// The guests by their names.
ghost use Rattle.std.specs.Prelude.{◌≡◌, ◌≢◌, ◌↔◌, IsTrue, IsSome, IfSome, Contains, codes};
ghost use Rattle.example_guests.specs.Guests.{guest_names, is_headed, keys_text, three_text};

use crate::{
    counter, dirty, divide, echo, grow, keys, late, null, overflow, pair, stale, stale_grow,
    tell_free, tell_over, three, twice, unset,
};

/// The text of an example guest, by its name; None exactly where no guest has the name.
pub fn source_of(name: &str) -> Option<&'static str>
    ensures known { IsSome result ↔ Contains guest_names name.now }
    ensures headed { name.now ≢ codes "three" → IfSome result (λ text. IsTrue (is_headed name.now text.now)) }
    ensures three { name.now ≡ codes "three" → IfSome result (λ text. text.now ≡ three_text) }
{
    match name {
        "three" => Some(three::SOURCE),
        "echo" => Some(echo::SOURCE),
        "counter" => Some(counter::SOURCE),
        "divide" => Some(divide::SOURCE),
        "null" => Some(null::SOURCE),
        "overflow" => Some(overflow::SOURCE),
        "unset" => Some(unset::SOURCE),
        "twice" => Some(twice::SOURCE),
        "stale" => Some(stale::SOURCE),
        "tell_free" => Some(tell_free::SOURCE),
        "tell_over" => Some(tell_over::SOURCE),
        "pair" => Some(pair::SOURCE),
        "late" => Some(late::SOURCE),
        "dirty" => Some(dirty::SOURCE),
        "keys" => Some(keys::SOURCE),
        "grow" => Some(grow::SOURCE),
        "stale_grow" => Some(stale_grow::SOURCE),
        _ => None,
    }
}

/// The text of guest keys.
#[tactic(auto, unfolding(crate::specs::Guests::keys_text))]
pub fn keys_source() -> &'static str
    ensures { result.now ≡ keys_text }
{
    keys::SOURCE
}
