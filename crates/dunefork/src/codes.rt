// An entry's answer as the C interface tells it: one number.
ghost use Rattle.std.specs.Prelude.{◌≡◌, ◌+◌, ◌*◌, ◌^◌, ◌<◌, pos, neg_ℤ, get_or};
ghost use Rattle.document.specs.Answer.{number_of, replied_as, marked_as};
ghost use Rattle.dunefork.specs.Codes.{return_code, marked_code};

use code::refusal::refusal_number;
use document::types::{Refusal, Shown};

// Minus the number of a refusal.
pub fn refusal_code(r: Refusal) -> i32
    ensures { result ≡ neg_ℤ (pos (number_of r)) }
{
    -(refusal_number(r) as i32)
}

// The number that an entry returns, or minus its refusal's.
pub(crate) fn reply_code(reply: Result<usize, Refusal>) -> i32
    requires { get_or (replied_as reply).values 0 0 < 2 ^ 31 }
    ensures { result ≡ return_code (replied_as reply) }
{
    match reply {
        Ok(value) => value as i32,
        Err(r) => refusal_code(r),
    }
}

// 2·e + trial of decoding with marks, or minus its refusal's number.
pub(crate) fn marked_reply_code(reply: Result<Shown, Refusal>) -> i32
    requires { 2 * get_or (marked_as reply).values 0 0 + get_or (marked_as reply).values 1 0 < 2 ^ 31 }
    ensures { result ≡ marked_code (marked_as reply) }
{
    match reply {
        Ok(shown) => (2 * shown.unmarked + shown.trial) as i32,
        Err(r) => refusal_code(r),
    }
}
