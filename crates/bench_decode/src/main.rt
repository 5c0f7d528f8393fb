// 10,000 words of length 127 with 10 errors each are decoded, and each answer is held to the codeword that the errors hit: the
// run whose duration tools/bench records.
#![tactic(auto)]

// messages and places of errors
mod draw;

// what the channel does to a word
mod channel;

use channel::add_errors;
use code::decode::decode;
use code::encode::encode;
use draw::{draw_message, draw_places, in_order};
use std::io;

fn main(rt: HostRuntime) -> io::Result<()> {
    // The BCH code (127, 64) with d = 21, t = 10: representatives 1 3 5 7 9 11 13 15 19; b 1, z 1, f 3, h 1, L 20.
    let sheet =
        b"\x1b\0\x7f\x09\x0a\0\x01\0\x13\0\x01\x03\x05\x07\x09\x0b\x0d\x0f\x13\x01\x01\x03\0\x01\0\x14\0";
    let mut places = in_order();
    let mut state = 1;
    let mut right = 0u32;
    for i in 0..10000u32 {
        let mut message = [0u8; 8];
        state = draw_message(state, &mut message);
        state = draw_places(state, &mut places);
        right += u32::from(corrected(sheet, &message, &places));
    }
    println!(rt; "{right} of 10000 words right")
}

// Whether the message's codeword comes back from a word with errors at the first ten places.
fn corrected(sheet: &[u8], message: &[u8; 8], places: &[u8; 127]) -> bool {
    let mut codeword = [0u8; 16];
    let encoded = encode(sheet, message, &mut codeword);
    let mut received = codeword;
    add_errors(places, &mut received);
    let mut out = [0u8; 16];
    encoded.is_ok() && decode(sheet, &received, &mut out) == Ok(10) && out == codeword
}
