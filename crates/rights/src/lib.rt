// Sets of rights: bit i is right i.
#![tactic(auto, unfolding(model::specs::Rights::within, model::specs::Rights::has, model::specs::Rights::none_above))]

ghost use Rattle.std.specs.Prelude.{◌≡◌, ◌<◌};
ghost use Rattle.model.specs.Rights.{within, has, none_above};

// Every right asked is held.
pub fn is_within(asked: u32, held: u32) -> bool
    ensures { result ≡ within asked held }
{
    (asked & held) == asked
}

// Right i is held.
pub fn has_right(i: u8, held: u32) -> bool
    requires { i < 32 }
    ensures { result ≡ has i held }
{
    (held >> i) % 2 == 1
}

// No right above n is held.
pub fn has_none_above(n: u8, held: u32) -> bool
    ensures { result ≡ none_above n held }
{
    if n < 31 {
        return (held >> (n + 1)) == 0;
    }
    true
}
