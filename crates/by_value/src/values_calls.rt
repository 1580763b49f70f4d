ghost use Rattle.std.specs.Prelude.{◌≡◌};
ghost use Rattle.values.specs.Refusals.{wire_code_of};
ghost use Rattle.values.specs.Token.{same_token};

use values::Token;

#[unsafe(no_mangle)]
pub extern "C" fn val_wire_code(number: u64) -> u64
    ensures { result ≡ wire_code_of number }
{
    values::wire_code(number)
}

#[unsafe(no_mangle)]
pub extern "C" fn val_token_matches(a: Token, b: Token) -> bool
    ensures { result ≡ same_token a b }
{
    values::token_matches(a, b)
}
