// Messages and places of errors from a fixed sequence.
ghost use Rattle.std.specs.Prelude.{◌<◌};

// A linear congruence modulo 2^32.
fn next(x: u32) -> u32 {
    x.wrapping_mul(1664525).wrapping_add(1013904223)
}

// A number below an end from the upper half of a state, since the lower bits repeat early.
fn below(end: usize, x: u32) -> usize
    requires { 0 < end }
    ensures { result < end }
{
    (x >> 16) as usize % end
}

// A byte from each state; the state afterwards.
pub fn draw_message(state: u32, message: &mut [u8; 8]) -> u32 {
    let mut x = state;
    for byte in message.iter_mut() {
        x = next(x);
        *byte = below(256, x) as u8;
    }
    x
}

pub fn in_order() -> [u8; 127] {
    std::array::from_fn(|i| i as u8)
}

// Puts any ten of the places first; the state afterwards.
pub fn draw_places(state: u32, places: &mut [u8; 127]) -> u32 {
    let mut x = state;
    for i in 0..10 {
        x = next(x);
        places.swap(i, i + below(127 - i, x));
    }
    x
}
