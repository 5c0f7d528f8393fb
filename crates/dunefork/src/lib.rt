// The C interface: one entry for each operation, with the answer as one number. include/dunefork.h says it for C.
#![tactic(auto)]

pub mod codes;

ghost use Rattle.std.specs.Prelude.{◌≡◌, length};
ghost use Rattle.document.specs.Marked.{shown_of};
ghost use Rattle.document.specs.Short.{encode_of, read_of, decode_of, encode_shortened_of, read_shortened_of, decode_shortened_of, decode_marked_of, decode_block_of, card_of};
ghost use Rattle.dunefork.specs.Codes.{coded_as, marked_coded_as};

use crate::codes::{marked_reply_code, reply_code};

// The codeword of a message into out.
pub fn dunefork_encode(sheet: &[u8], message: &[u8], out: &mut [u8]) -> i32
    ensures { (result, out.new) ≡ coded_as (encode_of sheet.now message.now out.old) }
{
    reply_code(code::encode::encode(sheet, message, out))
}

// The message of a codeword into out.
pub fn dunefork_read(sheet: &[u8], word: &[u8], out: &mut [u8]) -> i32
    ensures { (result, out.new) ≡ coded_as (read_of sheet.now word.now out.old) }
{
    reply_code(code::read::read(sheet, word, out))
}

// The codeword within t places of a received word into out; how many places changed.
pub fn dunefork_decode(sheet: &[u8], word: &[u8], out: &mut [u8]) -> i32
    ensures { (result, out.new) ≡ coded_as (decode_of sheet.now word.now out.old) }
{
    reply_code(code::decode::decode(sheet, word, out))
}

// The same three for a code shortened by m: messages of k - m bits, and words of n - m places.
pub fn dunefork_encode_short(sheet: &[u8], m: usize, message: &[u8], out: &mut [u8]) -> i32
    ensures { (result, out.new) ≡ coded_as (encode_shortened_of sheet.now m message.now out.old) }
{
    reply_code(code::encode::encode_short(sheet, m, message, out))
}

pub fn dunefork_read_short(sheet: &[u8], m: usize, word: &[u8], out: &mut [u8]) -> i32
    ensures { (result, out.new) ≡ coded_as (read_shortened_of sheet.now m word.now out.old) }
{
    reply_code(code::read::read_short(sheet, m, word, out))
}

pub fn dunefork_decode_short(sheet: &[u8], m: usize, word: &[u8], out: &mut [u8]) -> i32
    ensures { (result, out.new) ≡ coded_as (decode_shortened_of sheet.now m word.now out.old) }
{
    reply_code(code::decode::decode_short(sheet, m, word, out))
}

// Both decoded trial words of a received word with marked places; 2·e + trial.
pub fn dunefork_decode_marked(
    sheet: &[u8],
    word: &[u8],
    marks: &[u8],
    zeros: &mut [u8],
    ones: &mut [u8],
) -> i32
    ensures { (result, (zeros.new, ones.new)) ≡ marked_coded_as (decode_marked_of sheet.now word.now marks.now zeros.old ones.old) }
{
    marked_reply_code(code::marked::decode_marked(sheet, word, marks, zeros, ones))
}

// How long the part of a trial buffer is that is shown. An exported function cannot return the part itself.
pub fn dunefork_shown_length<'a>(trial: usize, n: usize, zeros: &'a [u8], ones: &'a [u8]) -> usize
    ensures { result ≡ length (shown_of trial n zeros.now ones.now) }
{
    code::marked::shown(trial, n, zeros, ones).len()
}

// A block of m words: each corrected word into its own bytes of out, and a verdict for each.
pub fn dunefork_decode_block(
    sheet: &[u8],
    m: usize,
    block: &[u8],
    out: &mut [u8],
    verdicts: &mut [u8],
) -> i32
    ensures { (result, (out.new, verdicts.new)) ≡ coded_as (decode_block_of sheet.now m block.now out.old verdicts.old) }
{
    reply_code(code::block::decode_block(sheet, m, block, out, verdicts))
}

// The listing of a sheet, refused ones too, into out; its length.
pub fn dunefork_card(sheet: &[u8], out: &mut [u8]) -> i32
    ensures { (result, out.new) ≡ coded_as (card_of sheet.now out.old) }
{
    reply_code(code::card::card(sheet, out))
}
