// Whether an output has room for the notices of a journal, told without making its calls.
#![tactic(auto)]

ghost use Rattle.std.specs.Prelude.{◌≡◌, leb};
ghost use Rattle.room.specs.Room.{most_of, most_in};

use journal::Frame;

// How many bytes an entry with this tag and this length of its body writes at most. (By the tag: its body is not read, see journal `good_length`.)
fn most_of(frame: Frame) -> usize
    ensures { result ≡ most_of frame.tag frame.length }
{
    match frame.tag {
        1 | 3 => records::NOTICE_SIZE,
        2 => frame.length,
        _ => 0,
    }
}

// Whether an output of so many bytes has room for whatever the entries of a journal may write.
pub fn has_room_for_any(src: &[u8], room: usize) -> bool
    ensures { result ≡ leb (most_in src.now) room }
{
    let mut rest = src;
    let mut left = room;
    while let Some(frame) = journal::frame_at(rest) {
        let most = most_of(frame);
        if left < most {
            return false;
        }
        left -= most;
        rest = &rest[frame.length + 3..];
    }
    true
}
