//! Where the robot is sent.
ghost use Rattle.std.specs.Prelude.{◌≡◌, ◌≤◌};
ghost use Rattle.px_demo.specs.Errands.{distance, next_number, target};
ghost use Rattle.px_demo.specs.Limits.{most_rooms, most_seed};

/// Returns the number that follows.
pub(crate) fn next_number(number: u64) -> u64
    requires { number ≤ most_seed }
    ensures next { result ≡ next_number number }
    ensures small { result ≤ most_seed }
{
    (number * 1_103_515_245 + 12_345) % 2_147_483_648
}

/// Returns how many rooms an errand goes on: one or two.
pub(crate) fn distance(number: u64) -> u32
    ensures distance { result ≡ distance number }
    ensures near { (1 ≤ result) × (result ≤ 2) }
{
    if number / 65_536 % 2 == 0 { 1 } else { 2 }
}

/// Returns the room that is `far` rooms on from `here`. Where there is no such room, it is `far` rooms back, else one on, else one back.
pub(crate) fn target(rooms: u32, here: u32, far: u32) -> u32
    requires rooms { (2 ≤ rooms) × (rooms ≤ most_rooms) }
    requires here { (1 ≤ here) × (here ≤ rooms) }
    requires far { (1 ≤ far) × (far ≤ 2) }
    ensures target { result ≡ target rooms here far }
    ensures there { (1 ≤ result) × (result ≤ rooms) }
{
    if here + far <= rooms {
        here + far
    } else if far < here {
        here - far
    } else if here + 1 <= rooms {
        here + 1
    } else {
        here - 1
    }
}
