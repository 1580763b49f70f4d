// The published calls of the values.
ghost use Rattle.std.specs.Prelude.{◌≡◌};
ghost use Rattle.values.specs.Refusals.{wire_code_of};
ghost use Rattle.values.specs.Token.{same_token};

use crate::limits::TOKEN_LEN;
use crate::token::Token;

// By refusal number; 0 is no refusal and has no code of its own. A constant table, as RULES.md's "Named forms" asks.
const WIRE_CODES: [u64; 9] = [0x01, 0x01, 0x01, 0x09, 0x0a, 0x00, 0x01, 0x01, 0x01];

// The transport error code of RFC 9000, 20.1 that a connection closed for a refusal carries; INTERNAL_ERROR for any other number.
pub fn wire_code(number: u64) -> u64
    ensures { result ≡ wire_code_of number }
{
    if number < 9 {
        return WIRE_CODES[number as usize];
    }
    0x01
}

// Whether presence and bytes are equal: the one comparison of tokens, published for hosts too. RFC 9000, 10.3.1 asks that a comparison not leak what a token is.
// So all sixteen bytes of both are read whatever they hold, what differs is collected, and that is tested once, at the end. Nothing is claimed about time.
pub fn token_matches(a: Token, b: Token) -> bool
    ensures { result ≡ same_token a b }
{
    let mut differences = 0;
    for i in 0..TOKEN_LEN {
        differences |= a.bytes[i] ^ b.bytes[i];
    }
    let presence = (a.present as u8) ^ (b.present as u8);
    (presence | differences) == 0
}
