//! The program's arguments.
use std::rt::Env;

/// The argument at an index, if it fits, or no text.
pub fn word<'a>(rt: &impl Env, index: usize, room: &'a mut [u8; 256]) -> &'a str {
    let length = rt.arg(index, room).unwrap_or(0);
    str::from_utf8(&room[..length]).unwrap_or("")
}

/// The number at an index, or 0.
pub fn number(rt: &impl Env, index: usize) -> u32 {
    let mut room = [0u8; 256];
    word(rt, index, &mut room).parse::<u32>().unwrap_or(0)
}
