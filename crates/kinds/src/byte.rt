// Bytes, under exclusive or.
ghost use Rattle.std.specs.Prelude.{◌<◌};

pub(crate) mod calls;

#[derive(Clone, Copy, Debug, PartialEq, Eq)]
pub struct Byte {
    pub value: u8,
    ghost fits: { value < 256 },
}
