// The published calls of the values: they have no state.
ghost use Rattle.std.specs.Prelude.{◌≡◌};
ghost use Rattle.values.specs.Refusals.{wire_code_of};
ghost use Rattle.values.specs.Token.{same_token};

use values::Token;

// The transport error code of RFC 9000, 20.1 for a refusal's number.
#[unsafe(no_mangle)]
pub extern "C" fn vig_wire_code(number: u64) -> u64
    ensures { result ≡ wire_code_of number }
{
    values::wire_code(number)
}

// Whether two tokens are equal, of which a host has received one and holds the other. All sixteen bytes of both are read (RFC 9000, 10.3.1).
#[unsafe(no_mangle)]
pub extern "C" fn vig_token_matches(a: Token, b: Token) -> bool
    ensures { result ≡ same_token a b }
{
    values::token_matches(a, b)
}
