//! Copying a text to the page's room.
ghost use Rattle.std.specs.Prelude.{◌≡◌, length};
ghost use Rattle.browser.specs.Handed.{filled};

/// Copies a text to the room, as much as fits, and returns the length of the whole text.
pub(crate) fn hand(text: &[u8], room: &mut [u8]) -> usize
    ensures length { result ≡ length text.now }
    ensures room { room.new ≡ filled text.now room.old }
{
    let count = if text.len() <= room.len() {
        text.len()
    } else {
        room.len()
    };
    room[..count].copy_from_slice(&text[..count]);
    text.len()
}
