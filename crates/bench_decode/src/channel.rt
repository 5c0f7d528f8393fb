// What the channel does to a word of 127 places.

// Errors at the first ten of the places.
pub fn add_errors(places: &[u8; 127], word: &mut [u8; 16]) {
    for place in &places[..10] {
        flip(*place, word);
    }
}

// A place has weight 2^(7 - place mod 8) in byte place div 8. Places are below 127, so the remainder by 16 changes nothing.
fn flip(place: u8, word: &mut [u8; 16]) {
    word[usize::from(place) / 8 % 16] ^= 128 >> (place % 8);
}
