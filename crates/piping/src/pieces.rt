// The piece of an input that was read last, and how much of it was taken. For who reads by hand: after a failed read nothing waits in it,
// which the library's reader does not say.
ghost use Rattle.std.specs.Prelude.{◌<◌, ◌≤◌, vec_len};

pub(crate) mod calls;

#[derive(Drop)]
pub struct Piece {
    bytes: Vec<u8>,
    from: usize,
    to: usize,
    ghost room: { 0 < vec_len bytes },
    ghost within: { to ≤ vec_len bytes },
}
